use crate::Version;
use cel_tree::Facet;
use dra_values::{Duplicate, Seq, Table, Text};
use quantity::Quantity;
use std::alloc::{AllocError, Global};

/// A value that holds no others. Values of different types are unequal, quantities are equal by value,
/// and versions by precedence.
#[derive(Debug, PartialEq, Drop)]
pub enum Single {
    Null,
    Bool(bool),
    Int(i64),
    Text(Text),
    Quantity(Quantity),
    Version(Version),
}

/// The key of a map. Keys are ordered: whole numbers by value, false before true, texts by their
/// bytes.
#[derive(Debug, PartialEq, Eq, PartialOrd, Ord, Drop)]
pub enum Key {
    Int(i64),
    Bool(bool),
    Text(Text),
}

/// The value of an expression of the selector language. Lists and maps hold only single values.
#[derive(Debug, Drop)]
pub enum Value {
    Single(Single),
    List(Seq<Single>),
    Map(Table<Key, Single>),
    /// `device.attributes` or `device.capacity`: the domains, with what the device has in each.
    Domains(Facet),
    /// The attributes or the capacities that the device has in that domain, by id.
    Entries(Facet, Text),
}

impl Duplicate for Single {
    fn duplicate(&self, alloc: Global) -> Result<Single, AllocError> {
        Ok(match self {
            Single::Null => Single::Null,
            Single::Bool(truth) => Single::Bool(*truth),
            Single::Int(number) => Single::Int(*number),
            Single::Text(text) => Single::Text(text.copy(alloc)?),
            Single::Quantity(quantity) => Single::Quantity(*quantity),
            Single::Version(version) => Single::Version(version.copy(alloc)?),
        })
    }
}

impl Duplicate for Key {
    fn duplicate(&self, alloc: Global) -> Result<Key, AllocError> {
        Ok(match self {
            Key::Int(number) => Key::Int(*number),
            Key::Bool(truth) => Key::Bool(*truth),
            Key::Text(text) => Key::Text(text.copy(alloc)?),
        })
    }
}

impl Duplicate for Value {
    fn duplicate(&self, alloc: Global) -> Result<Value, AllocError> {
        Ok(match self {
            Value::Single(single) => Value::Single(single.duplicate(alloc)?),
            Value::List(items) => Value::List(items.copy(alloc)?),
            Value::Map(entries) => Value::Map(entries.copy(alloc)?),
            Value::Domains(facet) => Value::Domains(*facet),
            Value::Entries(facet, domain) => Value::Entries(*facet, domain.copy(alloc)?),
        })
    }
}

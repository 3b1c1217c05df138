ghost use Rattle.std.specs.Prelude.{◌≡◌, option_map};
ghost use Rattle.node_select.specs.Terms.{is_above, is_among, is_below, test_holds};

use crate::number::whole;
use dra_values::{Duplicate, Seq, Text};
use std::alloc::{AllocError, Global};

/// What a requirement demands of a label's value, or of a field's.
#[derive(Drop)]
pub enum Test {
    /// The value is one of these (`In`).
    OneOf(Seq<Text>),
    /// There is no value, or it is none of these (`NotIn`).
    NoneOf(Seq<Text>),
    /// There is a value (`Exists`).
    Present,
    /// There is no value (`DoesNotExist`).
    Absent,
    /// The value is a whole number above this, from -2^63 to 2^63-1 (`Gt`).
    Above(i64),
    /// The value is a whole number below this, from -2^63 to 2^63-1 (`Lt`).
    Below(i64),
}

/// A test of the value at a key (NodeSelectorRequirement of the Kubernetes API reference).
#[derive(Drop)]
pub struct Requirement {
    pub key: Text,
    pub test: Test,
}

impl Test {
    /// Whether the test holds for the value, or for a missing value. Allocates nothing.
    pub fn holds(&self, value: Option<&str>) -> bool
        ensures { result ≡ test_holds self.now (option_map (λ v. v.now) value.entry) }
    {
        match self {
            Test::OneOf(values) => match value {
                Some(value) => contains(values.as_slice(), value),
                None => false,
            },
            Test::NoneOf(values) => match value {
                Some(value) => !contains(values.as_slice(), value),
                None => true,
            },
            Test::Present => value.is_some(),
            Test::Absent => value.is_none(),
            Test::Above(least) => match value {
                Some(value) => above(*least, whole(value)),
                None => false,
            },
            Test::Below(most) => match value {
                Some(value) => below(*most, whole(value)),
                None => false,
            },
        }
    }
}

impl Duplicate for Test {
    fn duplicate(&self, alloc: Global) -> Result<Test, AllocError> {
        match self {
            Test::OneOf(values) => Ok(Test::OneOf(values.copy(alloc)?)),
            Test::NoneOf(values) => Ok(Test::NoneOf(values.copy(alloc)?)),
            Test::Present => Ok(Test::Present),
            Test::Absent => Ok(Test::Absent),
            Test::Above(least) => Ok(Test::Above(*least)),
            Test::Below(most) => Ok(Test::Below(*most)),
        }
    }
}

impl Duplicate for Requirement {
    fn duplicate(&self, alloc: Global) -> Result<Requirement, AllocError> {
        Ok(Requirement {
            key: self.key.copy(alloc)?,
            test: self.test.duplicate(alloc)?,
        })
    }
}

fn contains(values: &[Text], value: &str) -> bool
    ensures { result ≡ is_among value.now values.now }
{
    for other in values {
        if other.as_str() == value {
            return true;
        }
    }
    false
}

fn above(least: i64, number: Option<i64>) -> bool
    ensures { result ≡ is_above least number }
{
    match number {
        Some(number) => least < number,
        None => false,
    }
}

fn below(most: i64, number: Option<i64>) -> bool
    ensures { result ≡ is_below most number }
{
    match number {
        Some(number) => number < most,
        None => false,
    }
}

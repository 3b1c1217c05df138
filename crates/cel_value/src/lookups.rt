//! Lookups in a device, in a list and in a map.

ghost use Rattle.std.specs.Prelude.{◌≡◌, map, Ok, IfOk, is_some, option_copied};
ghost use Rattle.std.specs.Map.{keys_of};
ghost use Rattle.cel_value.specs.Values.{Gives, Shows, single_of};
ghost use Rattle.cel_value.specs.declared.error.EvalError.TheVariants.{NoKey};
ghost use Rattle.cel_value.specs.declared.value.Value.TheVariants as value;
ghost use Rattle.cel_value.specs.Lookups as spec;
ghost use Rattle.cel_value.specs.Operators.{in_of};
ghost use Rattle.cel_value.specs.declared.value.Single.TheVariants as single;

use crate::scalars::{key_from, single_of};
use crate::{DeviceEnv, EvalError, Key, Single, Value};
use cel_tree::Facet;
use dra_values::{Duplicate, Seq, Table, Text};
use std::alloc::{AllocError, Global};

/// `device.name`: the driver, the attributes or the capacities. NoOverload for another name.
pub fn device_member(alloc: Global, device: &DeviceEnv, name: &str) -> Result<Value, EvalError>
    ensures { Gives result (spec.device_member_of device.now name.now) }
{
    if name == "driver" {
        Ok(Value::Single(Single::Text(device.driver().copy(alloc)?)))
    } else if name == "attributes" {
        Ok(Value::Domains(Facet::Attributes))
    } else if name == "capacity" {
        Ok(Value::Domains(Facet::Capacities))
    } else {
        Err(EvalError::NoOverload)
    }
}

/// `object.name`: the value at a key of a map, or what the device has in a domain or by an id.
/// NoKey if the key or the id isn't there; a domain that isn't there has nothing in it. NoOverload
/// for another object.
pub fn member(
    alloc: Global,
    device: &DeviceEnv,
    object: &Value,
    name: &str,
) -> Result<Value, EvalError>
    ensures { Gives result (spec.member_of device.now object.now name.now) }
{
    let name = Single::Text(Text::from_str(alloc, name)?);
    part(alloc, device, object, &name)
}

/// `object[index]`: an element of a list, counted from 0, or else as `member` does. OutOfRange if
/// a list has no such element. NoOverload if the object has no parts by such an index.
pub fn index(
    alloc: Global,
    device: &DeviceEnv,
    object: &Value,
    index: &Value,
) -> Result<Value, EvalError>
    ensures { Gives result (spec.index_of device.now object.now index.now) }
{
    match index {
        Value::Single(index) => part(alloc, device, object, index),
        _ => Err(EvalError::NoOverload),
    }
}

fn part(
    alloc: Global,
    device: &DeviceEnv,
    object: &Value,
    index: &Single,
) -> Result<Value, EvalError>
    ensures { Gives result (spec.part_of device.now object.now index.now) }
{
    match object {
        Value::Single(_) => Err(EvalError::NoOverload),
        Value::List(items) => element(alloc, items.as_slice(), index),
        Value::Map(entries) => value_at(alloc, entries, index),
        Value::Domains(facet) => in_domain(alloc, *facet, index),
        Value::Entries(facet, domain) => entry(alloc, device, *facet, domain, index),
    }
}

fn element(alloc: Global, items: &[Single], index: &Single) -> Result<Value, EvalError>
    ensures { Gives result (spec.element_of index.now items.now) }
{
    match index {
        Single::Int(index) => {
            if *index < 0 {
                Err(EvalError::OutOfRange)
            } else {
                found(alloc, EvalError::OutOfRange, items.get(*index as usize))
            }
        }
        _ => Err(EvalError::NoOverload),
    }
}

/// A copy of what was found, or the error.
fn found(alloc: Global, error: EvalError, found: Option<&Single>) -> Result<Value, EvalError>
    ensures { Gives result (spec.found error (option_copied found.entry)) }
{
    match found {
        Some(single) => Ok(Value::Single(single.duplicate(alloc)?)),
        None => Err(error),
    }
}

fn value_at(alloc: Global, entries: &Table<Key, Single>, index: &Single) -> Result<Value, EvalError>
    ensures { Gives result (spec.value_at index.now entries.now) }
{
    let key = key_from(alloc, index)?;
    at_key(alloc, entries, &key)
}

fn at_key(alloc: Global, entries: &Table<Key, Single>, key: &Key) -> Result<Value, EvalError>
    ensures { Gives result (spec.found NoKey (spec.at_key key.now entries.now)) }
{
    found(alloc, EvalError::NoKey, entries.get(key))
}

fn has_key(entries: &Table<Key, Single>, key: &Key) -> bool
    ensures { result ≡ is_some (spec.at_key key.now entries.now) }
{
    entries.contains_key(key)
}

/// A text, or NoOverload.
fn text_from(single: &Single) -> Result<&Text, EvalError>
    ensures { Shows (λ t. t.now) result (spec.text_from single.now) }
{
    match single {
        Single::Text(text) => Ok(text),
        _ => Err(EvalError::NoOverload),
    }
}

fn in_domain(alloc: Global, facet: Facet, domain: &Single) -> Result<Value, EvalError>
    ensures { Gives result (spec.in_domain facet domain.now) }
{
    match domain {
        Single::Text(domain) => Ok(Value::Entries(facet, domain.copy(alloc)?)),
        _ => Err(EvalError::NoOverload),
    }
}

fn entry(
    alloc: Global,
    device: &DeviceEnv,
    facet: Facet,
    domain: &Text,
    id: &Single,
) -> Result<Value, EvalError>
    ensures { Gives result (spec.entry_at device.now facet domain.now id.now) }
{
    match id {
        Single::Text(id) => named(device.get(alloc, facet, domain.as_str(), id.as_str())?),
        _ => Err(EvalError::NoOverload),
    }
}

fn named(found: Option<Single>) -> Result<Value, EvalError>
    ensures { result ≡ spec.found NoKey found }
{
    match found {
        Some(single) => Ok(Value::Single(single)),
        None => Err(EvalError::NoKey),
    }
}

/// `has(object.name)`: whether a map has the key, the device the domain, or a domain the id.
/// NoOverload for another object.
pub fn has(
    alloc: Global,
    device: &DeviceEnv,
    object: &Value,
    name: &str,
) -> Result<Value, EvalError>
    ensures { Gives result (spec.has_of device.now object.now name.now) }
{
    match object {
        Value::Single(_) | Value::List(_) => Err(EvalError::NoOverload),
        Value::Map(entries) => {
            let key = Key::Text(Text::from_str(alloc, name)?);
            Ok(Value::bool(has_key(entries, &key)))
        }
        Value::Domains(facet) => Ok(Value::bool(device.has_domain(*facet, name))),
        Value::Entries(facet, domain) => {
            let found = device.get(alloc, *facet, domain.as_str(), name)?;
            Ok(Value::bool(found.is_some()))
        }
    }
}

/// `element in range`: an element of a list, a key of a map, a domain, or an id in a domain.
/// NoOverload if there is no such row.
pub(crate) fn is_in(
    alloc: Global,
    device: &DeviceEnv,
    element: &Value,
    range: &Value,
) -> Result<bool, EvalError>
    ensures { Gives result (in_of device.now element.now range.now) }
{
    match element {
        Value::Single(element) => is_single_in(alloc, device, element, range),
        _ => Err(EvalError::NoOverload),
    }
}

fn is_single_in(
    alloc: Global,
    device: &DeviceEnv,
    element: &Single,
    range: &Value,
) -> Result<bool, EvalError>
    ensures { Gives result (in_of device.now (value.Single element.now) range.now) }
{
    match range {
        Value::Single(_) => Err(EvalError::NoOverload),
        Value::List(items) => Ok(items.as_slice().contains(element)),
        Value::Map(entries) => {
            let key = key_from(alloc, element)?;
            Ok(has_key(entries, &key))
        }
        Value::Domains(facet) => {
            let domain = text_from(element)?;
            Ok(device.has_domain(*facet, domain.as_str()))
        }
        Value::Entries(facet, domain) => {
            let id = text_from(element)?;
            let found = device.get(alloc, *facet, domain.as_str(), id.as_str())?;
            Ok(found.is_some())
        }
    }
}

/// What a comprehension goes over: the elements of a list, the keys of a map, the domains, or the ids
/// in a domain, in order. NoOverload for a value that holds none.
pub fn elements(alloc: Global, device: &DeviceEnv, range: &Value) -> Result<Seq<Single>, EvalError>
    ensures { Gives result (spec.elements_of device.now range.now) }
{
    match range {
        Value::Single(_) => Err(EvalError::NoOverload),
        Value::List(items) => Ok(items.copy(alloc)?),
        Value::Map(entries) => Ok(keys(alloc, entries)?),
        Value::Domains(facet) => Ok(singles(alloc, device.domains(alloc, *facet)?)?),
        Value::Entries(facet, domain) => {
            let ids = device.ids(alloc, *facet, domain.as_str())?;
            Ok(singles(alloc, ids)?)
        }
    }
}

fn keys(alloc: Global, entries: &Table<Key, Single>) -> Result<Seq<Single>, AllocError>
    ensures { IfOk result (λ xs. xs ≡ map single_of (keys_of entries.now)) }
{
    let mut keys = Seq::empty(alloc);
    for (key, _) in entries.as_map() {
        keys.push(single_of(alloc, key)?)?;
    }
    Ok(keys)
}

/// The texts as values.
fn singles(alloc: Global, texts: Seq<Text>) -> Result<Seq<Single>, AllocError>
    ensures { IfOk result (λ xs. xs ≡ map single.Text texts) }
{
    let mut singles = Seq::empty(alloc);
    for text in texts.into_vec() {
        singles.push(Single::Text(text))?;
    }
    Ok(singles)
}

ghost use Rattle.std.specs.Prelude.{◌≡◌};
ghost use Rattle.serde_json.specs.View.{view};
ghost use Rattle.object_fields.specs.Fields.{Reads};
ghost use Rattle.device_taints.specs.Reading as fields;

use crate::types::{Taint, TaintEffect, Toleration, TolerationOperator};
use dra_values::{Seq, Text};
use object_fields::{
    FieldError, FieldErrorKind, Path, ReadItem, borrowed, member, named, optional_items,
    optional_text, or_memory, value_object,
};
use serde_json::Value;
use std::alloc::Global;

/// The most taints of a device (API reference of `resource.k8s.io/v1`).
const TAINTS_MOST: usize = 16;

/// The most tolerations of a request or subrequest.
const TOLERATIONS_MOST: usize = 16;

/// The most bytes of a taint's key.
const KEY_MOST: usize = 317;

/// The most bytes of a taint's value.
const VALUE_MOST: usize = 63;

/// The member `taints` of a device, which may be missing or null (API reference of
/// `resource.k8s.io/v1`). WrongType, then TooMany above 16; then of each taint, in this order:
///
/// - `key`, 1 to 317 bytes (Missing, WrongType, TooLong, and BadName for the empty text)
/// - `value`, which may be missing or null, at most 63 bytes (WrongType, TooLong)
/// - `effect`, `NoSchedule` or `NoExecute` (Missing, WrongType, NotSupported)
///
/// Other members, such as `timeAdded`, aren't looked at.
pub fn read_taints(alloc: Global, device: &Value, path: &Path) -> Result<Seq<Taint>, FieldError>
    ensures { Reads result (fields.taints_at path.now (view device.now)) }
{
    optional_items(alloc, device, path, "taints", TAINTS_MOST)
}

/// The member `tolerations` of `exactly` or of a subrequest, which may be missing or null (API
/// reference of `resource.k8s.io/v1`). WrongType, then TooMany above 16; then of each toleration, in
/// this order:
///
/// - `key`, which may be missing or null, any text (WrongType)
/// - `operator`, which may be missing or null, `Equal` or `Exists` (WrongType, NotSupported)
/// - `value`, only with `Equal`, which may be missing or null, any text (WrongType)
/// - `effect`, which may be missing, null or empty, `NoSchedule` or `NoExecute` (WrongType,
///   NotSupported)
/// - that `key` isn't empty with `Equal` (Missing)
///
/// Other members, such as `tolerationSeconds`, aren't looked at.
pub fn read_tolerations(
    alloc: Global,
    ask: &Value,
    path: &Path,
) -> Result<Seq<Toleration>, FieldError>
    ensures { Reads result (fields.tolerations_at path.now (view ask.now)) }
{
    optional_items(alloc, ask, path, "tolerations", TOLERATIONS_MOST)
}

impl ReadItem for Taint {
    ghost reading = { fields.taint_at };

    fn read_item(alloc: Global, item: &Value, path: &Path) -> Result<Taint, FieldError> {
        let taint = value_object(alloc, item, path)?;
        let key = read_key(alloc, taint, path)?;
        let value = read_value(alloc, taint, path)?;
        let effect = read_effect(alloc, taint, path)?;
        Ok(Taint { key, value, effect })
    }
}

/// The key of a taint.
fn read_key(alloc: Global, taint: &Value, path: &Path) -> Result<Text, FieldError>
    ensures { Reads result (fields.taint_key_at path.now (view taint.now)) }
{
    let text = borrowed(alloc, taint, path, "key")?;
    let path = path.member("key");
    named(alloc, &path, text, KEY_MOST, !text.is_empty())
}

/// The value of a taint, empty if it is missing.
fn read_value(alloc: Global, taint: &Value, path: &Path) -> Result<Text, FieldError>
    ensures { Reads result (fields.taint_value_at path.now (view taint.now)) }
{
    if member(taint, "value").is_none() {
        return or_memory(alloc, Text::from_str(alloc, ""));
    }
    let text = borrowed(alloc, taint, path, "value")?;
    let path = path.member("value");
    named(alloc, &path, text, VALUE_MOST, true)
}

/// The effect of a taint.
fn read_effect(alloc: Global, taint: &Value, path: &Path) -> Result<TaintEffect, FieldError>
    ensures { Reads result (fields.effect_at path.now (view taint.now)) }
{
    let word = borrowed(alloc, taint, path, "effect")?;
    effect_meant(alloc, path, word)
}

/// The effect of that name. NotSupported if there is none.
fn effect_meant(alloc: Global, path: &Path, word: &str) -> Result<TaintEffect, FieldError>
    ensures { Reads result (fields.effect_meant path.now word.now) }
{
    if word == "NoSchedule" {
        Ok(TaintEffect::NoSchedule)
    } else if word == "NoExecute" {
        Ok(TaintEffect::NoExecute)
    } else {
        Err(FieldError::of_field(alloc, path, "effect", FieldErrorKind::NotSupported))
    }
}

impl ReadItem for Toleration {
    ghost reading = { fields.toleration_at };

    fn read_item(alloc: Global, item: &Value, path: &Path) -> Result<Toleration, FieldError> {
        let object = value_object(alloc, item, path)?;
        let toleration = read_toleration(alloc, object, path)?;
        keyed(alloc, path, toleration)
    }
}

/// The members of a toleration.
fn read_toleration(alloc: Global, object: &Value, path: &Path) -> Result<Toleration, FieldError>
    ensures { Reads result (fields.toleration_in path.now (view object.now)) }
{
    let key = read_text_or_empty(alloc, object, path, "key")?;
    let operator = read_operator(alloc, object, path)?;
    let effect = read_optional_effect(alloc, object, path)?;
    Ok(Toleration {
        key,
        operator,
        effect,
    })
}

/// The toleration. Missing at `key` if it is empty with Equal.
fn keyed(alloc: Global, path: &Path, toleration: Toleration) -> Result<Toleration, FieldError>
    ensures { Reads result (fields.keyed path.now toleration) }
{
    if lacks_key(&toleration) {
        Err(FieldError::of_field(alloc, path, "key", FieldErrorKind::Missing))
    } else {
        Ok(toleration)
    }
}

fn lacks_key(toleration: &Toleration) -> bool
    ensures { result ≡ fields.lacks_key toleration.now.operator toleration.now.key }
{
    match &toleration.operator {
        TolerationOperator::Equal(_) => toleration.key.as_str().is_empty(),
        TolerationOperator::Exists => false,
    }
}

/// A text, empty if it is missing or null.
fn read_text_or_empty(
    alloc: Global,
    object: &Value,
    path: &Path,
    name: &str,
) -> Result<Text, FieldError>
    ensures { Reads result (fields.text_or_empty_at path.now name.now (view object.now)) }
{
    match optional_text(alloc, object, path, name)? {
        Some(text) => Ok(text),
        None => or_memory(alloc, Text::from_str(alloc, "")),
    }
}

/// `operator` with `value`.
fn read_operator(
    alloc: Global,
    object: &Value,
    path: &Path,
) -> Result<TolerationOperator, FieldError>
    ensures { Reads result (fields.operator_at path.now (view object.now)) }
{
    if read_exists(alloc, object, path)? {
        Ok(TolerationOperator::Exists)
    } else {
        let value = read_text_or_empty(alloc, object, path, "value")?;
        Ok(TolerationOperator::Equal(value))
    }
}

/// Whether `operator` is Exists. NotSupported if it is neither of its two values.
fn read_exists(alloc: Global, object: &Value, path: &Path) -> Result<bool, FieldError>
    ensures { Reads result (fields.exists_at path.now (view object.now)) }
{
    match optional_text(alloc, object, path, "operator")? {
        None => Ok(false),
        Some(word) => exists_meant(alloc, path, word.as_str()),
    }
}

fn exists_meant(alloc: Global, path: &Path, word: &str) -> Result<bool, FieldError>
    ensures { Reads result (fields.exists_meant path.now word.now) }
{
    if word == "Equal" {
        Ok(false)
    } else if word == "Exists" {
        Ok(true)
    } else {
        Err(FieldError::of_field(alloc, path, "operator", FieldErrorKind::NotSupported))
    }
}

/// The effect of a toleration; None if it is missing, null or empty.
fn read_optional_effect(
    alloc: Global,
    object: &Value,
    path: &Path,
) -> Result<Option<TaintEffect>, FieldError>
    ensures { Reads result (fields.optional_effect_at path.now (view object.now)) }
{
    match optional_text(alloc, object, path, "effect")? {
        None => Ok(None),
        Some(word) => effect_if_any(alloc, path, word.as_str()),
    }
}

fn effect_if_any(alloc: Global, path: &Path, word: &str) -> Result<Option<TaintEffect>, FieldError>
    ensures { Reads result (fields.effect_if_any path.now word.now) }
{
    if word.is_empty() {
        Ok(None)
    } else {
        Ok(Some(effect_meant(alloc, path, word)?))
    }
}

//! Whether what is kept is equal to what is there.

ghost use Rattle.std.specs.Prelude.{◌≡◌, true, IfOk};

use api_slice::Attribute;
use device_selector::DeviceSelector;
use dra_values::{Duplicate, Seq, Table, Text};
use object_fields::QualName;
use quantity::Quantity;
use std::alloc::{AllocError, Global};

/// Whether texts are those of selectors. Allocates nothing.
pub fn are_texts(texts: &[Text], selectors: &[DeviceSelector]) -> bool
    ensures { result ≡ true → texts.now ≡ selectors.now }
{
    match selectors.split_first() {
        None => texts.is_empty(),
        Some((selector, selectors)) => match texts.split_first() {
            None => false,
            Some((text, texts)) => *text == *selector.text() && are_texts(texts, selectors),
        },
    }
}

/// The texts of selectors. `AllocError` only if memory runs out.
pub fn texts_of(alloc: Global, selectors: &[DeviceSelector]) -> Result<Seq<Text>, AllocError>
    ensures { IfOk result (λ texts. texts ≡ selectors.now) }
{
    let mut texts = Seq::with_capacity(alloc, selectors.len())?;
    for selector in selectors {
        texts.push(selector.text().copy(alloc)?)?;
    }
    Ok(texts)
}

fn is_name(name: &QualName, other: &QualName) -> bool
    ensures { result ≡ true → name.now ≡ other.now }
{
    name.id == other.id && name.domain == other.domain
}

fn is_attribute(attribute: &Attribute, other: &Attribute) -> bool
    ensures { result ≡ true → attribute.now ≡ other.now }
{
    match attribute {
        Attribute::Int(number) => is_number(*number, other),
        Attribute::Bool(truth) => is_truth(*truth, other),
        Attribute::Text(text) => is_text(text, other),
        Attribute::Version(text) => is_version(text, other),
    }
}

fn is_number(number: i64, attribute: &Attribute) -> bool
    ensures { result ≡ true → Attribute.Int number ≡ attribute.now }
{
    match attribute {
        Attribute::Int(other) => number == *other,
        Attribute::Bool(_) | Attribute::Text(_) | Attribute::Version(_) => false,
    }
}

fn is_truth(truth: bool, attribute: &Attribute) -> bool
    ensures { result ≡ true → Attribute.Bool truth ≡ attribute.now }
{
    match attribute {
        Attribute::Bool(other) => truth == *other,
        Attribute::Int(_) | Attribute::Text(_) | Attribute::Version(_) => false,
    }
}

fn is_text(text: &Text, attribute: &Attribute) -> bool
    ensures { result ≡ true → Attribute.Text text.now ≡ attribute.now }
{
    match attribute {
        Attribute::Text(other) => *text == *other,
        Attribute::Int(_) | Attribute::Bool(_) | Attribute::Version(_) => false,
    }
}

fn is_version(text: &Text, attribute: &Attribute) -> bool
    ensures { result ≡ true → Attribute.Version text.now ≡ attribute.now }
{
    match attribute {
        Attribute::Version(other) => *text == *other,
        Attribute::Int(_) | Attribute::Bool(_) | Attribute::Text(_) => false,
    }
}

fn is_named_attribute(entry: &(QualName, Attribute), name: &QualName, value: &Attribute) -> bool
    ensures { result ≡ true → entry.now ≡ (name.now, value.now) }
{
    is_name(&entry.0, name) && is_attribute(&entry.1, value)
}

fn is_named_quantity(entry: &(QualName, Quantity), name: &QualName, value: &Quantity) -> bool
    ensures { result ≡ true → entry.now ≡ (name.now, value.now) }
{
    is_name(&entry.0, name) && entry.1.nanos() == value.nanos()
}

/// Whether entries are those of a table of attributes. Allocates nothing.
pub fn are_attributes(entries: &[(QualName, Attribute)], table: &Table<QualName, Attribute>) -> bool
    ensures { result ≡ true → entries.now ≡ table.now }
{
    let mut rest = entries;
    for (name, value) in table.as_map() {
        match rest.split_first() {
            None => return false,
            Some((entry, entries)) => {
                if !is_named_attribute(entry, name, value) {
                    return false;
                }
                rest = entries;
            }
        }
    }
    rest.is_empty()
}

/// Whether entries are those of a table of quantities. Allocates nothing.
pub fn are_quantities(entries: &[(QualName, Quantity)], table: &Table<QualName, Quantity>) -> bool
    ensures { result ≡ true → entries.now ≡ table.now }
{
    let mut rest = entries;
    for (name, value) in table.as_map() {
        match rest.split_first() {
            None => return false,
            Some((entry, entries)) => {
                if !is_named_quantity(entry, name, value) {
                    return false;
                }
                rest = entries;
            }
        }
    }
    rest.is_empty()
}

/// The entries of a table. `AllocError` only if memory runs out.
pub fn entries_of<V: Duplicate + Drop>(
    alloc: Global,
    table: &Table<QualName, V>,
) -> Result<Seq<(QualName, V)>, AllocError>
    ensures { IfOk result (λ entries. entries ≡ table.now) }
{
    let mut entries = Seq::with_capacity(alloc, table.len())?;
    for (name, value) in table.as_map() {
        let name = name.copy(alloc)?;
        entries.push((name, value.duplicate(alloc)?))?;
    }
    Ok(entries)
}

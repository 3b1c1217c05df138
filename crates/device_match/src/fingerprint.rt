//! Numbers by which devices that look alike are found.

use api_slice::{Attribute, Properties};
use dra_values::Text;

/// The number that the hash by Fowler, Noll and Vo begins with.
const BASIS: u64 = 0xcbf2_9ce4_8422_2325;

/// The factor of that hash.
const PRIME: u64 = 0x0100_0000_01b3;

/// The same number for equal attributes and capacities, and mostly another one for others.
pub fn fingerprint_of(properties: &Properties) -> u64 {
    with_capacity(with_attributes(BASIS, properties), properties)
}

fn with_attributes(hash: u64, properties: &Properties) -> u64 {
    let mut hash = hash;
    for (name, value) in properties.attributes().as_map() {
        hash = with_value(with_text(hash, &name.id), value);
    }
    hash
}

fn with_capacity(hash: u64, properties: &Properties) -> u64 {
    let mut hash = hash;
    for (name, value) in properties.capacity().as_map() {
        hash = with_number(with_text(hash, &name.id), whole(value.nanos()));
    }
    hash
}

fn with_value(hash: u64, value: &Attribute) -> u64 {
    match value {
        Attribute::Int(number) => with_number(hash, number.unsigned_abs()),
        Attribute::Bool(false) => with_number(hash, 0),
        Attribute::Bool(true) => with_number(hash, 1),
        Attribute::Text(text) | Attribute::Version(text) => with_text(hash, text),
    }
}

fn with_text(hash: u64, text: &Text) -> u64 {
    let mut hash = hash;
    for byte in text.as_str().as_bytes() {
        hash = with_number(hash, u64::from(*byte));
    }
    hash
}

fn with_number(hash: u64, number: u64) -> u64 {
    (hash ^ number).wrapping_mul(PRIME)
}

/// The whole part of an amount.
fn whole(nanos: i128) -> u64 {
    u64::try_from(nanos / 1_000_000_000).unwrap_or(0)
}

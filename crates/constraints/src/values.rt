//! Attributes of devices, and which values are the same.

ghost use Rattle.std.specs.Prelude.{◌≡◌, option_copied};
ghost use Rattle.request_rules.specs.Agreeing as spec;

use api_slice::Attribute;
use dra_values::Text;
use object_fields::QualName;
use pool_view::DeviceRef;

/// What the device has at the attribute's full name.
#[tactic(auto, unfolding(request_rules::specs::Agreeing::attribute_of))]
pub fn attribute_of<'a>(device: &DeviceRef<'a>, name: &QualName) -> Option<&'a Attribute>
    ensures { option_copied result ≡ spec.attribute_of device.now name.now }
{
    device.device().properties.attributes().get(name)
}

fn is_int(number: i64, other: &Attribute) -> bool
    ensures { result ≡ spec.is_int number other.now }
{
    match other {
        Attribute::Int(other) => number == *other,
        Attribute::Bool(_) | Attribute::Text(_) | Attribute::Version(_) => false,
    }
}

fn is_bool(truth: bool, other: &Attribute) -> bool
    ensures { result ≡ spec.is_bool truth other.now }
{
    match other {
        Attribute::Bool(other) => truth == *other,
        Attribute::Int(_) | Attribute::Text(_) | Attribute::Version(_) => false,
    }
}

fn is_text(text: &Text, other: &Attribute) -> bool
    ensures { result ≡ spec.is_text text.now other.now }
{
    match other {
        Attribute::Text(other) => text == other,
        Attribute::Int(_) | Attribute::Bool(_) | Attribute::Version(_) => false,
    }
}

fn is_version(text: &Text, other: &Attribute) -> bool
    ensures { result ≡ spec.is_version text.now other.now }
{
    match other {
        Attribute::Version(other) => text == other,
        Attribute::Int(_) | Attribute::Bool(_) | Attribute::Text(_) => false,
    }
}

/// Whether the values have one type and are the same. Versions are compared as they are written.
pub fn same_value(one: &Attribute, other: &Attribute) -> bool
    ensures { result ≡ spec.same_value one.now other.now }
{
    match one {
        Attribute::Int(number) => is_int(*number, other),
        Attribute::Bool(truth) => is_bool(*truth, other),
        Attribute::Text(text) => is_text(text, other),
        Attribute::Version(text) => is_version(text, other),
    }
}

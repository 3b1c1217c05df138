ghost use Rattle.std.specs.Prelude.{◌≡◌, ◌≤◌, length, map, true, IfOk};
ghost use Rattle.std.specs.List.{list_all};
ghost use Rattle.std.specs.Map.{values_of};
ghost use Rattle.std.specs.Str.{chars};
ghost use Rattle.semver.specs.Parse.{version_parts};
ghost use Rattle.api_slice.specs.Attributes.{is_version};
ghost use Rattle.api_slice.specs.Properties.{IsValue};
ghost use Rattle.cel_value.specs.declared.value.Single.TheVariants as single;
ghost use Rattle.cel_value.specs.Device.{is_short_value};
ghost use Rattle.pool_view.specs.Devices.{device_of, value_of, valued, version_value};

use api_slice::{Attribute, DriverName, Properties};
use cel_value::{DeviceEnv, Single, Version};
use dra_values::{Table, Text};
use object_fields::QualName;
use std::alloc::{AllocError, Global};

/// A device of a slice of that driver, as selectors see it. `AllocError` is returned only when out of
/// memory: the driver and the devices of a slice keep all limits of such a device.
pub fn device_env(
    alloc: Global,
    driver: &DriverName,
    properties: &Properties,
) -> Result<DeviceEnv, AllocError>
    ensures { IfOk result (λ d. d ≡ device_of driver.now properties.now) }
{
    let attributes = values(alloc, properties)?;
    let capacity = properties.capacity().copy(alloc)?;
    let driver = driver.as_text().copy(alloc)?;
    Ok(DeviceEnv::new(driver, attributes, capacity))
}

/// The attributes as values of the selector language.
fn values(alloc: Global, properties: &Properties) -> Result<Table<QualName, Single>, AllocError>
    ensures value { IfOk result (λ t. t ≡ map valued properties.now.attributes) }
    ensures short { IfOk result (λ t. list_all is_short_value (values_of t) ≡ true) }
{
    let attributes = properties.attributes();
    attributes.in_order();
    let mut values = Table::new(alloc);
    for (name, attribute) in attributes.as_map() {
        let name = name.copy(alloc)?;
        values.insert(name, value(alloc, attribute)?)?;
    }
    Ok(values)
}

fn value(alloc: Global, attribute: &Attribute) -> Result<Single, AllocError>
    requires { IsValue attribute.now }
    ensures value { IfOk result (λ v. v ≡ value_of attribute.now) }
    ensures short { IfOk result (λ v. is_short_value v ≡ true) }
{
    match attribute {
        Attribute::Int(number) => Ok(Single::Int(*number)),
        Attribute::Bool(truth) => Ok(Single::Bool(*truth)),
        Attribute::Text(text) => short_text(alloc, text),
        Attribute::Version(text) => version(alloc, text),
    }
}

/// A text of at most 64 characters as a value.
fn short_text(alloc: Global, text: &Text) -> Result<Single, AllocError>
    requires { length (chars text.now) ≤ 64 }
    ensures value { IfOk result (λ v. v ≡ single.Text text.now) }
    ensures short { IfOk result (λ v. is_short_value v ≡ true) }
{
    let chars = text.as_str();
    Ok(Single::Text(Text::from_str(alloc, chars)?))
}

/// A version that reads, as a value.
fn version(alloc: Global, text: &Text) -> Result<Single, AllocError>
    requires { is_version text.now ≡ true }
    ensures value { IfOk result (λ v. v ≡ version_value (version_parts text.now)) }
    ensures short { IfOk result (λ v. is_short_value v ≡ true) }
{
    match semver::Version::parse(alloc, text.as_str()) {
        Ok(version) => Ok(Single::Version(Version::new(version))),
        Err(_) => Err(AllocError),
    }
}

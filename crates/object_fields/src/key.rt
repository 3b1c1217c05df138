ghost use Rattle.std.specs.Prelude.{◌≡◌, IfOk, Some};

use dra_values::{Duplicate, Text};
use std::alloc::{AllocError, Global};
use std::fmt;

/// The name of an object of one kind. An object without namespace has the empty text there.
#[derive(Debug, PartialEq, Eq, PartialOrd, Ord, Drop)]
pub struct Key {
    pub namespace: Text,
    pub name: Text,
}

impl Key {
    /// An equal key.
    pub fn copy(&self, alloc: Global) -> Result<Key, AllocError>
        ensures { IfOk result (λ k. k ≡ self.now) }
    {
        Ok(Key {
            namespace: self.namespace.copy(alloc)?,
            name: self.name.copy(alloc)?,
        })
    }
}

impl Duplicate for Key {
    fn duplicate(&self, alloc: Global) -> Result<Key, AllocError> {
        self.copy(alloc)
    }
}

/// As `namespace/name`, and the name alone if there is no namespace.
impl fmt::Display for Key {
    ghost use Rattle.object_fields.specs.Keys.{key_text};

    ghost output = { λ k. Some (key_text k) };

    fn fmt<W: fmt::Write>(&self, f: &mut fmt::Formatter<W>) -> fmt::Result {
        if self.namespace.as_str().is_empty() {
            write!(f, "{}", self.name)
        } else {
            write!(f, "{}/{}", self.namespace, self.name)
        }
    }
}

/// The name of a device: its driver, the driver's pool and the device's name in the pool.
#[derive(Debug, PartialEq, Eq, PartialOrd, Ord, Drop)]
pub struct DeviceId {
    pub driver: Text,
    pub pool: Text,
    pub device: Text,
}

impl DeviceId {
    /// An equal name.
    pub fn copy(&self, alloc: Global) -> Result<DeviceId, AllocError>
        ensures { IfOk result (λ id. id ≡ self.now) }
    {
        Ok(DeviceId {
            driver: self.driver.copy(alloc)?,
            pool: self.pool.copy(alloc)?,
            device: self.device.copy(alloc)?,
        })
    }
}

impl Duplicate for DeviceId {
    fn duplicate(&self, alloc: Global) -> Result<DeviceId, AllocError> {
        self.copy(alloc)
    }
}

/// As `driver/pool/device`.
impl fmt::Display for DeviceId {
    ghost use Rattle.object_fields.specs.Keys.{device_text};

    ghost output = { λ d. Some (device_text d) };

    fn fmt<W: fmt::Write>(&self, f: &mut fmt::Formatter<W>) -> fmt::Result {
        write!(f, "{}/{}/{}", self.driver, self.pool, self.device)
    }
}

ghost use Rattle.std.specs.Prelude.{◌≡◌, IfOk};
ghost use Rattle.pool_view.specs.Pools.{id_in, offered_by};

use api_slice::{Device, ResourceSlice};
use object_fields::DeviceId;
use std::alloc::{AllocError, Global};
use std::marker::Model;

/// A device of an inventory, borrowed with the slice that offers it. Contracts see the two values.
#[derive(Drop)]
pub struct DeviceRef<'a> {
    pub slice: &'a ResourceSlice,
    pub device: &'a Device,
}

impl<'a> Model for DeviceRef<'a> {
    ghost use Rattle.pool_view.specs.Pools.{Offered};

    ghost Value = { Offered };

    ghost view = { λ d. record { slice = d.slice.now; device = d.device.now } };
}

impl<'a> DeviceRef<'a> {
    /// A device with the slice that offers it.
    pub fn of(slice: &'a ResourceSlice, device: &'a Device) -> DeviceRef<'a>
        ensures { result ≡ offered_by slice.now device.now }
    {
        DeviceRef { slice, device }
    }

    /// The slice that offers it.
    pub fn slice(&self) -> &'a ResourceSlice
        ensures { result.now ≡ self.now.slice }
    {
        self.slice
    }

    /// The device itself.
    pub fn device(&self) -> &'a Device
        ensures { result.now ≡ self.now.device }
    {
        self.device
    }

    /// Its id: the driver, the pool and the name of the device. `AllocError` is returned only if memory
    /// runs out.
    pub fn id(&self, alloc: Global) -> Result<DeviceId, AllocError>
        ensures { IfOk result (λ id. id ≡ id_in self.now) }
    {
        let (slice, device) = (self.slice(), self.device());
        Ok(DeviceId {
            driver: slice.driver.as_text().copy(alloc)?,
            pool: slice.pool.name.copy(alloc)?,
            device: device.name.copy(alloc)?,
        })
    }
}

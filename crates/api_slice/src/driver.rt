ghost use Rattle.std.specs.Prelude.{◌≡◌, IfOk};
ghost use Rattle.serde_json.specs.View.{view};
ghost use Rattle.object_fields.specs.Fields.{Reads};
ghost use Rattle.api_slice.specs.Drivers.{IsDriver, driver_of};
ghost use Rattle.api_slice.specs.Slices.{driver_at};

use dra_values::Text;
use object_fields::{FieldError, Path, dns_subdomain, read_dns_subdomain};
use serde_json::Value;
use std::alloc::{AllocError, Global};
use std::marker::Model;

/// The most bytes of a driver's name (API reference of `resource.k8s.io/v1`).
const DRIVER_MOST: usize = 63;

/// The name of a driver, a DNS subdomain of at most 63 bytes (API reference of
/// `resource.k8s.io/v1`), which contracts see as its bytes.
#[derive(Drop)]
pub struct DriverName {
    name: Text,
}

impl Model for DriverName {
    ghost use Rattle.std.specs.Prelude.{ℕ, List};
    ghost use Rattle.api_slice.specs.Drivers.{IsDriver};

    ghost Value = { List ℕ };

    ghost view = { λ d. d.name };

    ghost invariant = { λ d. IsDriver d.name };
}

impl DriverName {
    /// The driver's name that a text is, or `None` where it isn't a DNS subdomain of at most 63
    /// bytes. Allocates nothing.
    pub fn new(name: Text) -> Option<DriverName>
        ensures { result ≡ driver_of name }
    {
        if dns_subdomain(name.as_str(), DRIVER_MOST) {
            Some(DriverName { name })
        } else {
            None
        }
    }

    /// The `driver` of a slice's spec. Missing, then WrongType, TooLong and BadName.
    pub(crate) fn read(alloc: Global, spec: &Value, path: &Path) -> Result<DriverName, FieldError>
        ensures { Reads result (driver_at path.now (view spec.now)) }
    {
        let name = read_dns_subdomain(alloc, spec, path, "driver", DRIVER_MOST)?;
        Ok(DriverName { name })
    }

    /// The name as a text.
    pub fn as_text(&self) -> &Text
        ensures value { result.now ≡ self.now }
        ensures limits { IsDriver self.now }
    {
        &self.name
    }

    /// An equal name. `AllocError` is returned only if memory runs out.
    pub fn copy(&self, alloc: Global) -> Result<DriverName, AllocError>
        ensures { IfOk result (λ copy. copy ≡ self.now) }
    {
        let name = self.name.copy(alloc)?;
        Ok(DriverName { name })
    }
}

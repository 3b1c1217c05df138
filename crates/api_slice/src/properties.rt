ghost use Rattle.std.specs.Prelude.{◌≡◌, [], IfOk};
ghost use Rattle.api_slice.specs.Properties.{AreProperties};

use crate::types::Attribute;
use dra_values::{Duplicate, Table};
use object_fields::QualName;
use quantity::Quantity;
use std::alloc::{AllocError, Global};
use std::marker::Model;

/// The attributes and the capacities of a device by their full names (KEP 4381), which contracts see
/// as a record of two lists of entries.
///
/// They are at most 32 together. Each domain is a DNS subdomain of at most 63 bytes and each id a C
/// identifier of at most 32; strings and versions have at most 64 characters, and a version is one
/// of Semantic Versioning 2.0.0 (API reference of `resource.k8s.io/v1`).
#[derive(Drop)]
pub struct Properties {
    attributes: Table<QualName, Attribute>,
    capacity: Table<QualName, Quantity>,
}

impl Model for Properties {
    ghost use Rattle.api_slice.specs.Properties.{AreProperties, PropertyTables};

    ghost Value = { PropertyTables };

    ghost view = { λ p. record { attributes = p.attributes; capacity = p.capacity } };

    ghost invariant = { λ p. AreProperties (record { attributes = p.attributes; capacity = p.capacity }) };
}

impl Properties {
    /// Those of a device that has neither attributes nor capacities. Allocates nothing.
    pub fn none(alloc: Global) -> Properties
        ensures { result ≡ record { attributes = []; capacity = [] } }
    {
        Properties::new(Table::new(alloc), Table::new(alloc))
    }

    /// Those of a device of which these are the attributes and the capacities.
    pub(crate) fn new(
        attributes: Table<QualName, Attribute>,
        capacity: Table<QualName, Quantity>,
    ) -> Properties
        requires { AreProperties (record { attributes = attributes; capacity = capacity }) }
        ensures { result ≡ record { attributes = attributes; capacity = capacity } }
    {
        Properties {
            attributes,
            capacity,
        }
    }

    /// The attributes by their full names.
    pub fn attributes(&self) -> &Table<QualName, Attribute>
        ensures value { result.now ≡ self.now.attributes }
        ensures limits { AreProperties self.now }
    {
        &self.attributes
    }

    /// The capacities by their full names.
    pub fn capacity(&self) -> &Table<QualName, Quantity>
        ensures value { result.now ≡ self.now.capacity }
        ensures limits { AreProperties self.now }
    {
        &self.capacity
    }

    /// Equal ones. `AllocError` is returned only if memory runs out.
    pub fn copy(&self, alloc: Global) -> Result<Properties, AllocError>
        ensures { IfOk result (λ copy. copy ≡ self.now) }
    {
        let attributes = self.attributes.copy(alloc)?;
        let capacity = self.capacity.copy(alloc)?;
        Ok(Properties::new(attributes, capacity))
    }
}

impl Duplicate for Properties {
    fn duplicate(&self, alloc: Global) -> Result<Properties, AllocError> {
        self.copy(alloc)
    }
}

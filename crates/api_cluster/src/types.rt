ghost use Rattle.std.specs.Prelude.{◌≡◌, IfOk};
ghost use Rattle.api_cluster.specs.Limits.{ClassKept, NodeKept, PodKept};

use dra_values::{Duplicate, Seq, Table, Text};
use object_fields::Key;
use std::alloc::{AllocError, Global};
use std::marker::Model;

/// A Node of `v1`: what decides which devices it sees.
///
/// Its name is a DNS subdomain of at most 253 bytes; contracts see the record of its fields.
#[derive(Drop)]
pub struct Node {
    /// `metadata.name`.
    pub name: Text,
    /// `metadata.resourceVersion`, from 0 to 2^64-1, if it is set.
    pub version: Option<u64>,
    /// `metadata.labels`, by their keys.
    pub labels: Table<Text, Text>,
}

/// A DeviceClass of `resource.k8s.io/v1`: what a device of the class must be.
///
/// Its name is a DNS subdomain of at most 253 bytes, and it has at most 32 selectors; contracts see
/// the record of its fields.
#[derive(Drop)]
pub struct DeviceClass {
    /// `metadata.name`.
    pub name: Text,
    /// `metadata.resourceVersion`, from 0 to 2^64-1, if it is set.
    pub version: Option<u64>,
    /// `spec.selectors`: the text of each `cel.expression`, at most 32, as they were written.
    pub selectors: Seq<Text>,
}

/// A Pod of `v1`: the claims that it uses.
///
/// Its name is a DNS subdomain of at most 253 bytes, its namespace a DNS label, and it has at most 32
/// claims; contracts see the record of its fields.
#[derive(Drop)]
pub struct Pod {
    /// `metadata.namespace` and `metadata.name`.
    pub key: Key,
    /// `metadata.resourceVersion`, from 0 to 2^64-1, if it is set.
    pub version: Option<u64>,
    /// `spec.resourceClaims`, at most 32.
    pub claims: Seq<PodResourceClaim>,
}

/// An entry of a pod's `spec.resourceClaims`.
#[derive(Drop)]
pub struct PodResourceClaim {
    /// The name by which the pod's containers refer to it.
    pub name: Text,
    /// `resourceClaimName`: the name of a claim in the pod's namespace.
    pub claim: Text,
}

impl Model for Node {
    ghost use Rattle.api_cluster.specs.Fields.{NodeFields};

    ghost Value = { NodeFields };

    ghost view = { λ n. record { name = n.name; version = n.version; labels = n.labels } };

    ghost use Rattle.api_cluster.specs.Limits.{NodeKept};

    ghost invariant = { λ n. NodeKept (record { name = n.name; version = n.version; labels = n.labels }) };
}

impl Model for DeviceClass {
    ghost use Rattle.api_cluster.specs.Fields.{ClassFields};

    ghost Value = { ClassFields };

    ghost view = { λ c. record { name = c.name; version = c.version; selectors = c.selectors } };

    ghost use Rattle.api_cluster.specs.Limits.{ClassKept};

    ghost invariant = { λ c. ClassKept (record { name = c.name; version = c.version; selectors = c.selectors }) };
}

impl Model for Pod {
    ghost use Rattle.api_cluster.specs.Fields.{PodFields};

    ghost Value = { PodFields };

    ghost view = { λ p. record { key = p.key; version = p.version; claims = p.claims } };

    ghost use Rattle.api_cluster.specs.Limits.{PodKept};

    ghost invariant = { λ p. PodKept (record { key = p.key; version = p.version; claims = p.claims }) };
}

impl Node {
    /// Each node keeps the limits and name rules of the API reference of `v1`. Allocates nothing.
    pub fn keeps_limits(&self)
        ensures { NodeKept self.now }
    {
        let _ = &self.name;
    }

    /// An equal node.
    pub fn copy(&self, alloc: Global) -> Result<Node, AllocError>
        ensures { IfOk result (λ copy. copy ≡ self.now) }
    {
        Ok(Node {
            name: self.name.copy(alloc)?,
            version: self.version,
            labels: self.labels.copy(alloc)?,
        })
    }
}

impl DeviceClass {
    /// Each class keeps the limits and name rules of the API reference of `resource.k8s.io/v1`.
    /// Allocates nothing.
    pub fn keeps_limits(&self)
        ensures { ClassKept self.now }
    {
        let _ = &self.name;
    }

    /// An equal class.
    pub fn copy(&self, alloc: Global) -> Result<DeviceClass, AllocError>
        ensures { IfOk result (λ copy. copy ≡ self.now) }
    {
        Ok(DeviceClass {
            name: self.name.copy(alloc)?,
            version: self.version,
            selectors: self.selectors.copy(alloc)?,
        })
    }
}

impl Pod {
    /// Each pod keeps the limits and name rules of the API reference of `v1`. Allocates nothing.
    pub fn keeps_limits(&self)
        ensures { PodKept self.now }
    {
        let _ = &self.key;
    }

    /// An equal pod.
    pub fn copy(&self, alloc: Global) -> Result<Pod, AllocError>
        ensures { IfOk result (λ copy. copy ≡ self.now) }
    {
        Ok(Pod {
            key: self.key.copy(alloc)?,
            version: self.version,
            claims: self.claims.copy(alloc)?,
        })
    }
}

impl Duplicate for PodResourceClaim {
    fn duplicate(&self, alloc: Global) -> Result<PodResourceClaim, AllocError> {
        Ok(PodResourceClaim {
            name: self.name.copy(alloc)?,
            claim: self.claim.copy(alloc)?,
        })
    }
}

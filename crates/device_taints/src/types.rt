use dra_values::{Duplicate, Text};
use std::alloc::{AllocError, Global};

/// What a taint does to requests that don't tolerate it. Here both keep its device from being
/// allocated; nothing is evicted (this project's own).
#[derive(Clone, Copy, Debug, PartialEq, Eq)]
pub enum TaintEffect {
    NoSchedule,
    NoExecute,
}

/// One of the `taints` of a device.
#[derive(Debug, PartialEq, Eq, Drop)]
pub struct Taint {
    /// `key`, 1 to 317 bytes.
    pub key: Text,
    /// `value`, at most 63 bytes; empty if it is missing.
    pub value: Text,
    /// `effect`.
    pub effect: TaintEffect,
}

/// One of the `tolerations` of a request or of a subrequest.
#[derive(Debug, PartialEq, Eq, Drop)]
pub struct Toleration {
    /// `key`, any text; empty if it is missing, and then the operator is Exists and each key fits.
    pub key: Text,
    /// `operator` with `value`.
    pub operator: TolerationOperator,
    /// `effect`; None if it is missing or empty, and then both effects fit.
    pub effect: Option<TaintEffect>,
}

/// Which values of a taint fit.
#[derive(Debug, PartialEq, Eq, Drop)]
pub enum TolerationOperator {
    /// Only this one, which is empty if `value` is missing.
    Equal(Text),
    /// Each.
    Exists,
}

impl Duplicate for TaintEffect {
    fn duplicate(&self, _alloc: Global) -> Result<TaintEffect, AllocError> {
        Ok(*self)
    }
}

impl Duplicate for Taint {
    fn duplicate(&self, alloc: Global) -> Result<Taint, AllocError> {
        Ok(Taint {
            key: self.key.copy(alloc)?,
            value: self.value.copy(alloc)?,
            effect: self.effect,
        })
    }
}

impl Duplicate for Toleration {
    fn duplicate(&self, alloc: Global) -> Result<Toleration, AllocError> {
        Ok(Toleration {
            key: self.key.copy(alloc)?,
            operator: self.operator.duplicate(alloc)?,
            effect: self.effect,
        })
    }
}

impl Duplicate for TolerationOperator {
    fn duplicate(&self, alloc: Global) -> Result<TolerationOperator, AllocError> {
        match self {
            TolerationOperator::Equal(value) => Ok(TolerationOperator::Equal(value.copy(alloc)?)),
            TolerationOperator::Exists => Ok(TolerationOperator::Exists),
        }
    }
}

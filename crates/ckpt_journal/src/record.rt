ghost use Rattle.std.specs.Prelude.{◌≡◌, IfOk};

use dra_values::{Seq, Text};
use object_fields::{DeviceId, Key};
use std::alloc::{AllocError, Global};

/// What is recorded of a claim whose devices are prepared on the node.
#[derive(Debug, PartialEq, Eq, Drop)]
pub struct Claim {
    /// The claim's uid.
    pub uid: Text,
    /// The claim's namespace and name.
    pub key: Key,
    /// The pods that the devices are prepared for.
    pub pods: Seq<Key>,
    /// The devices of the claim's grant.
    pub devices: Seq<DeviceId>,
}

impl Claim {
    /// An equal claim. Returns `AllocError` only if out of memory.
    pub fn copy(&self, alloc: Global) -> Result<Claim, AllocError>
        ensures { IfOk result (λ copied. copied ≡ self.now) }
    {
        let (uid, key) = copied_name(alloc, &self.uid, &self.key)?;
        let (pods, devices) = copied_lists(alloc, &self.pods, &self.devices)?;
        Ok(Claim {
            uid,
            key,
            pods,
            devices,
        })
    }
}

/// An equal uid and an equal key.
fn copied_name(alloc: Global, uid: &Text, key: &Key) -> Result<(Text, Key), AllocError>
    ensures { IfOk result (λ x. (x.0 ≡ uid.now) × (x.1 ≡ key.now)) }
{
    let uid = uid.copy(alloc)?;
    Ok((uid, key.copy(alloc)?))
}

/// Equal lists of pods and devices.
fn copied_lists(
    alloc: Global,
    pods: &Seq<Key>,
    devices: &Seq<DeviceId>,
) -> Result<(Seq<Key>, Seq<DeviceId>), AllocError>
    ensures { IfOk result (λ x. (x.0 ≡ pods.now) × (x.1 ≡ devices.now)) }
{
    let pods = pods.copy(alloc)?;
    Ok((pods, devices.copy(alloc)?))
}

/// A step of a claim on the node. `Begun` and `Prepared` set the claim's row whole.
#[derive(Debug, PartialEq, Eq, Drop)]
pub enum Record {
    /// The claim's preparation has begun: from now on the driver may be asked to prepare it.
    Begun(Claim),
    /// The driver has prepared the claim's devices.
    Prepared(Claim),
    /// The claim of this uid is being given up: the driver may be asked to take it back.
    Leaving(Text),
    /// The claim of this uid has no row any more.
    Gone(Text),
}

impl Record {
    /// An equal record. Returns `AllocError` only if out of memory.
    pub fn copy(&self, alloc: Global) -> Result<Record, AllocError>
        ensures { IfOk result (λ copied. copied ≡ self.now) }
    {
        match self {
            Record::Begun(claim) => Ok(Record::Begun(claim.copy(alloc)?)),
            Record::Prepared(claim) => Ok(Record::Prepared(claim.copy(alloc)?)),
            Record::Leaving(uid) => Ok(Record::Leaving(uid.copy(alloc)?)),
            Record::Gone(uid) => Ok(Record::Gone(uid.copy(alloc)?)),
        }
    }
}

/// How far a claim is on the node.
#[derive(Clone, Copy, Debug, PartialEq, Eq)]
pub enum RowState {
    /// Its preparation has begun.
    Begun,
    /// Its devices are prepared.
    Prepared,
    /// It is being given up.
    Leaving,
}

/// The row of a claim in the table that the records make.
#[derive(Debug, PartialEq, Eq, Drop)]
pub struct Row {
    /// How far the claim is.
    pub state: RowState,
    /// The claim, as the last `Begun` or `Prepared` has it.
    pub claim: Claim,
}

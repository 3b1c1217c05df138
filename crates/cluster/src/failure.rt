use dra_values::Text;
use object_fields::{DeviceId, Key};

/// Why a plan, or a status write, doesn't hold against a state.
#[derive(Drop)]
pub enum Failure {
    /// A claim that the plan knew isn't there.
    ClaimGone(Key),
    /// This claim has another uid than the plan knew, or a grant where none was known, or none on the
    /// node where one was known. It is the pod's key if the pod has another uid.
    ClaimChanged(Key),
    /// This claim has 256 users, and the pod isn't one of them.
    Users(Key),
    /// This node, the plan's, isn't there.
    NodeGone(Text),
    /// A result's device, which isn't one of the node's.
    DeviceGone(DeviceId),
    /// The results of this claim aren't those that its requests ask for, by their order, their names,
    /// admin access, number, positions or difference, or are more than 32.
    Shape(Key),
    /// A result's device, which doesn't satisfy its request.
    SelectorNo(DeviceId),
    /// The device on which a selector of a request is neither true nor false.
    SelectorFault(DeviceId),
    /// A result's device, which has a taint that its request doesn't tolerate.
    Tainted(DeviceId),
    /// A result's device is held by this claim, or granted to it earlier in the plan.
    Held { device: DeviceId, claim: Key },
    /// A counter from which more would be drawn than it has.
    Counter(Shortfall),
    /// The results of this claim don't keep that of its constraints which has this index.
    Constraint { claim: Key, index: usize },
}

/// A counter from which more would be drawn than it has.
#[derive(Drop)]
pub struct Shortfall {
    /// The counter set.
    pub set: Text,
    /// The counter of that set.
    pub counter: Text,
    /// What would be drawn from it with all results, in 10^-9.
    pub drawn: u128,
    /// What it has, in 10^-9; `None` if the device's pool has no such counter.
    pub value: Option<u128>,
}

ghost use Rattle.std.specs.Prelude.{◌≡◌, IfOk, IsSome, None, Some, length, slice_get};
ghost use Rattle.std.specs.Map.{keys_of};
ghost use Rattle.pool_view.specs.Names.{at_name};
ghost use Rattle.cluster.specs.PassedOver.{none_passed, one_more};
ghost use Rattle.allocations.specs.Claims.{joined, other_claim};
ghost use Rattle.pod_decision.specs.Tries.{AreTried, IsTried, tried_of};

use crate::claims::first_elsewhere;
use crate::tries::NodeTries;
use allocator::Outcome;
use cluster::{Cause, Grant, PassedBuilder, State};
use dra_values::{Seq, Shared, Text};
use object_fields::Key;
use pool_view::NamedNodes;
use std::alloc::{AllocError, Global};

/// What a node has for a pod.
#[derive(Drop)]
pub enum Tried {
    /// The grants that a search finds.
    Found(Seq<Grant>),
    /// Nothing, and why.
    Passed(Cause),
}

/// The node that is taken, and what is granted there.
#[derive(Drop)]
pub struct Taken {
    pub node: Text,
    pub grants: Seq<Grant>,
}

/// What a search within the budget shows of its node.
fn tried_of(budget: u64, outcome: Outcome) -> Tried
    ensures { result ≡ tried_of budget outcome }
{
    match outcome {
        Outcome::Found(grants) => Tried::Found(grants),
        Outcome::Unsat => Tried::Passed(Cause::Unsat),
        Outcome::Fault(fault) => Tried::Passed(Cause::Fault(fault)),
        Outcome::Budget => Tried::Passed(Cause::Budget(budget)),
    }
}

/// Tries a node at a position, unless one of the pod's claims has its grant on another node. `joins` are the pod's claims
/// with a grant.
fn try_node(
    alloc: Global,
    joins: &[Key],
    tries: &mut NodeTries,
    position: usize,
    node: &Text,
) -> Result<Tried, AllocError>
    requires joins { joins.now ≡ joined tries.old.state tries.old.pod }
    requires there { IsSome (at_name tries.old.state.inventory.nodes node.now) }
    ensures tried { IfOk result (IsTried tries.old.state tries.old.pod tries.old.budget node.now) }
    ensures same { tries.new ≡ tries.old }
{
    match first_elsewhere(tries.state(), node, joins) {
        Some(claim) => Ok(Tried::Passed(Cause::Other(claim.copy(alloc)?))),
        None => try_here(alloc, tries, position, node),
    }
}

/// Tries a node that has the grants of the pod's claims: if it isn't known to have no allocation, it is searched.
fn try_here(
    alloc: Global,
    tries: &mut NodeTries,
    position: usize,
    node: &Text,
) -> Result<Tried, AllocError>
    requires here { other_claim tries.old.state tries.old.pod node.now ≡ None }
    requires there { IsSome (at_name tries.old.state.inventory.nodes node.now) }
    ensures tried { IfOk result (IsTried tries.old.state tries.old.pod tries.old.budget node.now) }
    ensures same { tries.new ≡ tries.old }
{
    if tries.has(position, node) {
        return Ok(Tried::Passed(Cause::Unsat));
    }
    let budget = tries.budget();
    Ok(tried_of(budget, tries.outcome(alloc, position, node)?))
}

/// Puts the node of the next name, which isn't taken, at the end.
fn push_passed(passed: &mut PassedBuilder, node: &Text, cause: Cause) -> Result<(), AllocError>
    requires { slice_get passed.old.names (length passed.old.nodes) ≡ Some node.now }
    ensures { IfOk result (λ _. passed.new ≡ one_more passed.old node.now cause) }
{
    let _next = node;
    passed.push(cause)
}

/// The names of the nodes, in order: those that the inventory lists, or else a list of them.
pub fn node_names(alloc: Global, state: &State) -> Result<Shared<Seq<Text>>, AllocError>
    ensures { IfOk result (λ names. names ≡ keys_of state.now.inventory.nodes) }
{
    match state.inventory.node_names() {
        Some(names) => names.share(),
        None => Shared::new(alloc, listed_names(alloc, state.inventory.nodes())?),
    }
}

fn listed_names(alloc: Global, nodes: &NamedNodes) -> Result<Seq<Text>, AllocError>
    ensures { IfOk result (λ names. names ≡ keys_of nodes.now) }
{
    let mut names = Seq::empty(alloc);
    for (name, _) in nodes.iter() {
        names.push(name.copy(alloc)?)?;
    }
    Ok(names)
}

/// Tries the nodes in the order of their names, up to the first that may be taken, and says why each
/// before it isn't. `joins` are the pod's claims with a grant: the others aren't looked up again for
/// each node.
pub fn try_nodes(
    alloc: Global,
    joins: &[Key],
    tries: &mut NodeTries,
    names: &[Text],
    passed: &mut PassedBuilder,
) -> Result<Option<Taken>, AllocError>
    requires joins { joins.now ≡ joined tries.old.state tries.old.pod }
    requires names { names.now ≡ keys_of tries.old.state.inventory.nodes }
    requires none { passed.old ≡ none_passed names.now }
    ensures tried { IfOk result (AreTried tries.old.state tries.old.pod tries.old.budget names.now passed.new.nodes) }
    ensures same { tries.new ≡ tries.old }
{
    for position in 0..names.len() {
        let node = &names[position];
        match try_node(alloc, joins, tries, position, node)? {
            Tried::Passed(cause) => push_passed(passed, node, cause)?,
            Tried::Found(grants) => {
                let node = node.copy(alloc)?;
                return Ok(Some(Taken { node, grants }));
            }
        }
    }
    Ok(None)
}

ghost use Rattle.std.specs.Prelude.{ℕ, ◌≡◌, [], true, IfOk, IfSome};
ghost use Rattle.request_rules.specs.Growth.{specs_of};
ghost use Rattle.cluster.specs.declared.state.State.{State};
ghost use Rattle.allocations.specs.Lacking as lacking;
ghost use Rattle.node_memo.specs.Memo.{IsListAt, Tells, TellsOf};

use crate::nodes::LackingNodes;
use device_match::Verdicts;
use request_rows::WantedClaim;
use std::alloc::{AllocError, Global};
use std::marker::Model;

/// The most lists of nodes that a memo has.
const MOST_LISTS: usize = 32;

/// The nodes that are known to have no allocation: a list for each list of what claims ask for and each budget, at most 32
/// of them, the one that was used last at the end. What is remembered of selectors on devices goes with the list that is
/// taken out, and comes back with it.
#[derive(Drop)]
pub struct Memo {
    lists: Vec<LackingNodes>,
    verdicts: Verdicts,
}

impl Model for Memo {
    ghost use Rattle.std.specs.Prelude.{List};
    ghost use Rattle.node_memo.specs.Memo.{NodesFields};

    ghost Value = { List NodesFields };

    ghost view = { λ m. m.lists.items };
}

impl Memo {
    /// Nothing is known. Allocates nothing.
    pub fn new(alloc: Global) -> Memo
        ensures { result ≡ [] }
    {
        Memo {
            lists: Vec::new(alloc),
            verdicts: Verdicts::new(alloc),
        }
    }

    /// Takes out what is known for claims that ask for the same as these, within a budget: a list of no nodes if there is
    /// none. `AllocError` only if memory runs out.
    pub fn take(
        &mut self,
        alloc: Global,
        claims: &[WantedClaim],
        budget: u64,
    ) -> Result<LackingNodes, AllocError>
        ensures specs { IfOk result (λ nodes. nodes.specs ≡ specs_of claims.now) }
        ensures budget { IfOk result (λ nodes. nodes.budget ≡ budget) }
        ensures nodes { IfOk result (λ nodes. (s : State) (d : lacking.Dates) (at : ℕ) → Tells s d self.old at → TellsOf s d nodes at) }
        ensures rest { (s : State) (d : lacking.Dates) (at : ℕ) → Tells s d self.old at → Tells s d self.new at }
    {
        let mut nodes = take_list(alloc, &mut self.lists, claims, budget)?;
        nodes.swap_verdicts(&mut self.verdicts);
        Ok(nodes)
    }

    /// Puts a list at the end; without the first one if there are as many as there may be. `AllocError` only if memory runs
    /// out.
    pub fn put(&mut self, nodes: LackingNodes) -> Result<(), AllocError>
        ensures { (s : State) (d : lacking.Dates) (at : ℕ) → Tells s d self.old at → TellsOf s d nodes at → Tells s d self.new at }
    {
        let mut nodes = nodes;
        nodes.swap_verdicts(&mut self.verdicts);
        make_place(&mut self.lists);
        self.lists.push(nodes)?;
        Ok(())
    }
}

/// Takes the list out for claims that ask for the same as these, within a budget, or else makes one.
fn take_list(
    alloc: Global,
    lists: &mut Vec<LackingNodes>,
    claims: &[WantedClaim],
    budget: u64,
) -> Result<LackingNodes, AllocError>
    ensures specs { IfOk result (λ nodes. nodes.specs ≡ specs_of claims.now) }
    ensures budget { IfOk result (λ nodes. nodes.budget ≡ budget) }
    ensures nodes { IfOk result (λ nodes. (s : State) (d : lacking.Dates) (at : ℕ) → Tells s d lists.old.items at → TellsOf s d nodes at) }
    ensures rest { (s : State) (d : lacking.Dates) (at : ℕ) → Tells s d lists.old.items at → Tells s d lists.new.items at }
{
    match position(lists, claims, budget) {
        Some(position) => Ok(lists.remove(position)),
        None => LackingNodes::of(alloc, claims, budget),
    }
}

/// The position of the list for claims that ask for the same as these, within a budget.
fn position(lists: &[LackingNodes], claims: &[WantedClaim], budget: u64) -> Option<usize>
    ensures { IfSome result (λ at. IsListAt lists.now at (specs_of claims.now) budget) }
{
    for at in 0..lists.len() {
        if lists[at].are_for(claims, budget) {
            return Some(at);
        }
    }
    None
}

/// Takes the first list out if there are as many as there may be.
fn make_place(lists: &mut Vec<LackingNodes>)
    ensures { (s : State) (d : lacking.Dates) (at : ℕ) → Tells s d lists.old.items at → Tells s d lists.new.items at }
{
    if lists.len() < MOST_LISTS {
        return;
    }
    lists.remove(0);
}

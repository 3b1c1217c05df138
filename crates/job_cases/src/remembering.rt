//! The nodes that a ledger remembers to have no allocation.

use crate::input::CaseError;
use crate::out::Out;
use crate::spelling::key;
use crate::states::BUDGET;
use cluster::State;
use node_inputs::wanted_claims;
use node_memo::{LackingNodes, Memo};
use object_fields::Key;
use sched_job::Ledger;
use std::alloc::Global;

/// What a memo has of nodes for what the claims of a pod ask for.
fn nodes_in(
    alloc: Global,
    memo: &mut Memo,
    state: &State,
    pod: &Key,
) -> Result<LackingNodes, CaseError> {
    let Some(found) = state.pods.get(pod) else {
        return Err(CaseError::BadCase);
    };
    let claims = wanted_claims(alloc, state, &found.pod.object)?;
    Ok(memo.take(alloc, &claims, BUDGET)?)
}

/// What is remembered of nodes for what the claims of a pod ask for. All that is remembered is forgotten then.
fn nodes_for(alloc: Global, ledger: &mut Ledger, pod: &str) -> Result<LackingNodes, CaseError> {
    let pod = key(alloc, pod)?;
    let mut memo = ledger.take_memo(alloc);
    let nodes = nodes_in(alloc, &mut memo, ledger.state(), &pod);
    drop(memo);
    nodes
}

/// Appends the names of the nodes that are known to have no allocation, in order, or `-` if there are none.
fn push_names(ledger: &Ledger, nodes: &mut LackingNodes, out: &mut Out) {
    let dates = ledger.dates();
    let at = ledger.len();
    let mut position: usize = 0;
    let mut is_known = false;
    for (name, _) in ledger.state().inventory.nodes().iter() {
        if nodes.has(position, name, dates, at) {
            out.show_after(" ", name);
            is_known = true;
        }
        position = position.saturating_add(1);
    }
    if !is_known {
        out.say(" -");
    }
}

/// Appends the nodes that are remembered to have no allocation for what the claims of a pod ask for.
pub fn push_known(
    alloc: Global,
    ledger: &mut Ledger,
    pod: &str,
    out: &mut Out,
) -> Result<(), CaseError> {
    let mut nodes = nodes_for(alloc, ledger, pod)?;
    push_names(ledger, &mut nodes, out);
    drop(nodes);
    Ok(())
}

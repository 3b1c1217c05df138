ghost use Rattle.std.specs.Prelude.{◌≡◌, ◌++◌, [], ◌∷◌, IfOk};
ghost use Rattle.ckpt_journal.specs.declared.record.RowState.TheVariants as states;
ghost use Rattle.prepare_core.specs.Prepare.{way_by_row, way_by_state};
ghost use Rattle.prepare_core.specs.Table.{row_of, with_pods};
ghost use Rattle.prepare_core.specs.Unprepare.{back_by_row, back_by_state, for_node, set_record};

use crate::claim::on_node;
use crate::rows::{claim_for_pods, device_names, find_row, is_among, pods_and, pods_without};
use crate::{ClaimForNode, Names};
use ckpt_journal::{Claim, Record, Row, RowState};
use dra_values::{Seq, Text};
use object_fields::Key;
use std::alloc::{AllocError, Global};

/// What a preparation does about a claim.
#[derive(Drop)]
pub enum Way {
    /// It is prepared for the pod: its names are returned.
    Answer(Names),
    /// It is prepared for other pods: it is recorded for this one too.
    Share(Claim),
    /// The driver is asked.
    Ask,
}

/// What giving a claim up for a pod does.
#[derive(Drop)]
pub enum WayBack {
    /// Other pods are left: the claim is recorded without this pod.
    Keep(Record),
    /// It is the last pod, or the claim is leaving: the driver is asked to take it back.
    Leave(ClaimForNode),
}

/// The claim of a row, for one pod more.
fn shared(alloc: Global, claim: &Claim, pod: &Key) -> Result<Claim, AllocError>
    ensures { IfOk result (λ k. k ≡ with_pods (claim.now.pods ++ pod.now ∷ []) claim.now) }
{
    let pods = pods_and(alloc, &claim.pods, pod)?;
    claim_for_pods(alloc, claim, pods)
}

/// What a preparation does about a claim that is prepared.
fn way_for_prepared(alloc: Global, claim: &Claim, pod: &Key) -> Result<Way, AllocError>
    ensures { IfOk result (λ w. w ≡ way_by_state pod.now states.Prepared claim.now) }
{
    if is_among(claim.pods.as_slice(), pod) {
        let names = device_names(alloc, &claim.uid, claim.devices.as_slice())?;
        Ok(Way::Answer(names))
    } else {
        Ok(Way::Share(shared(alloc, claim, pod)?))
    }
}

/// What a preparation does about a claim, by its row.
pub fn way_for(alloc: Global, rows: &[Row], uid: &str, pod: &Key) -> Result<Way, AllocError>
    ensures { IfOk result (λ w. w ≡ way_by_row pod.now (row_of uid.now rows.now)) }
{
    match find_row(rows, uid) {
        None => Ok(Way::Ask),
        Some(row) => match row.state {
            RowState::Prepared => way_for_prepared(alloc, &row.claim, pod),
            RowState::Begun | RowState::Leaving => Ok(Way::Ask),
        },
    }
}

/// What the driver is told of a row's claim.
fn told(alloc: Global, node: &Text, claim: &Claim) -> Result<ClaimForNode, AllocError>
    ensures { IfOk result (λ c. c ≡ for_node node.now claim.now) }
{
    let node = node.copy(alloc)?;
    Ok(on_node(claim.copy(alloc)?, Some(node)))
}

/// The driver is asked to take a claim back.
fn leave(alloc: Global, node: &Text, claim: &Claim) -> Result<WayBack, AllocError>
    ensures { IfOk result (λ w. w ≡ WayBack.Leave (for_node node.now claim.now)) }
{
    Ok(WayBack::Leave(told(alloc, node, claim)?))
}

/// A claim stays for these pods, in its present state.
fn keep(alloc: Global, row: &Row, pods: Seq<Key>) -> Result<WayBack, AllocError>
    ensures { IfOk result (λ w. w ≡ WayBack.Keep (set_record row.now.state (with_pods pods row.now.claim))) }
{
    let claim = claim_for_pods(alloc, &row.claim, pods)?;
    match row.state {
        RowState::Begun => Ok(WayBack::Keep(Record::Begun(claim))),
        RowState::Prepared | RowState::Leaving => Ok(WayBack::Keep(Record::Prepared(claim))),
    }
}

/// What is done about a row that has the pod.
fn way_back(alloc: Global, node: &Text, row: &Row, pod: &Key) -> Result<WayBack, AllocError>
    ensures { IfOk result (λ w. w ≡ back_by_state node.now pod.now row.now.state row.now.claim) }
{
    if row.state == RowState::Leaving {
        return leave(alloc, node, &row.claim);
    }
    let left = pods_without(alloc, row.claim.pods.as_slice(), pod)?;
    if left.as_slice().is_empty() {
        leave(alloc, node, &row.claim)
    } else {
        keep(alloc, row, left)
    }
}

/// What giving a claim up for a pod does, or None if no row of the claim has the pod.
pub fn way_back_for(
    alloc: Global,
    node: &Text,
    rows: &[Row],
    uid: &str,
    pod: &Key,
) -> Result<Option<WayBack>, AllocError>
    ensures { IfOk result (λ w. w ≡ back_by_row node.now pod.now (row_of uid.now rows.now)) }
{
    match find_row(rows, uid) {
        None => Ok(None),
        Some(row) => {
            if is_among(row.claim.pods.as_slice(), pod) {
                Ok(Some(way_back(alloc, node, row, pod)?))
            } else {
                Ok(None)
            }
        }
    }
}

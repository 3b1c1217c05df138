ghost use Rattle.std.specs.Prelude.{◌≡◌, None, IfOk, IsSome, map, find};
ghost use Rattle.counter_sets.specs.Holding.{AreHeld};
ghost use Rattle.allocations.specs.Input.{input_of};
ghost use Rattle.cluster.specs.Held.{held};
ghost use Rattle.pool_view.specs.Names.{at_key};
ghost use Rattle.request_rules.specs.Lists.{Each};
ghost use Rattle.pool_totals.specs.Counting.{AreCounted};
ghost use Rattle.request_rows.specs.Wanted as wanting;
ghost use Rattle.plan_rules.specs.Failing as spec;
ghost use Rattle.plan_rules.specs.Chosen.{pick_of};
ghost use Rattle.alloc_rules.specs.Rows.{AreByClaim, AreRowsOf, IsDue, IsViewOf, due_seen};
ghost use Rattle.plan_rules.specs.Standing as standing;

use crate::agreeing::constraint_broken;
use crate::counters::{counter_short, draws_any};
use crate::drawing::totals_with;
use crate::due::Due;
use crate::holding::held;
use crate::known::{changed, claim_full, claim_gone};
use crate::naming::Named;
use crate::results::{device_gone, selector_fault, selector_no, tainted};
use crate::shape::misshapen;
use api_claim::ClaimStatus;
use cluster::{DeviceResult, Failure, Grant, Plan, PodState, State};
use counter_sets::{Held, SharedTotals};
use dra_values::{Seq, Text};
use node_inputs::{devices_differ, wanted_claims};
use object_fields::Key;
use pool_view::{PoolView, usable_slices_differ};
use ready_objects::ReadyClaim;
use request_rows::{Rows, WantedClaim, Wants};
use std::alloc::{AllocError, Global};

/// The first counter that doesn't have enough for the results, whose devices nobody holds. Only if one of them
/// draws on a counter are counters copied, of the pools on which they draw.
fn failing_counters<'a>(
    alloc: Global,
    state: &State,
    holders: &Held,
    totals: &SharedTotals,
    rows: &'a Rows<'a>,
    node: &Text,
    dues: &[Due],
) -> Result<Option<Failure>, AllocError>
    requires holders { AreHeld holders.now (held state.now) }
    requires totals { AreCounted state.now.inventory holders.now totals.now }
    requires rows { AreRowsOf state.now node.now rows.now }
    requires dues { Each (IsDue (wanting.input_of rows.now)) dues.now }
    requires free { standing.held (held state.now) (map (due_seen (wanting.input_of rows.now)) dues.now) ≡ None }
    ensures { IfOk result (λ found. found ≡ standing.counter_short (input_of state.now rows.now.wants.claims node.now)
        (map (pick_of (wanting.input_of rows.now)) (map (due_seen (wanting.input_of rows.now)) dues.now))) }
{
    if !draws_any(rows, dues) {
        return Ok(None);
    }
    usable_slices_differ();
    devices_differ(&state.inventory, node);
    let mut totals = totals_with(alloc, state, holders, totals, rows, node, dues)?;
    counter_short(alloc, rows, &mut totals, dues)
}

/// The first failure of results which meet their requests, which tolerate their devices' taints: a holder,
/// a counter, or a constraint.
fn failing_held<'a>(
    alloc: Global,
    state: &State,
    holders: &Held,
    totals: &SharedTotals,
    rows: &'a Rows<'a>,
    node: &Text,
    claims: &'a [WantedClaim<'a>],
    dues: &[Due],
) -> Result<Option<Failure>, AllocError>
    requires holders { AreHeld holders.now (held state.now) }
    requires totals { AreCounted state.now.inventory holders.now totals.now }
    requires rows { AreRowsOf state.now node.now rows.now }
    requires claims { claims.now ≡ rows.now.wants.claims }
    requires dues { Each (IsDue (wanting.input_of rows.now)) dues.now }
    requires in_order { AreByClaim 0 (map (due_seen (wanting.input_of rows.now)) dues.now) }
    ensures { IfOk result (λ found. found ≡ spec.failing_standing (input_of state.now rows.now.wants.claims node.now) (map (due_seen (wanting.input_of rows.now)) dues.now)) }
{
    if let Some(found) = held(alloc, holders, dues)? {
        return Ok(Some(found));
    }
    if let Some(found) = failing_counters(alloc, state, holders, totals, rows, node, dues)? {
        return Ok(Some(found));
    }
    constraint_broken(alloc, rows, claims, dues)
}

/// The first failure of results which meet their requests: a taint, or what comes after the taints.
fn failing_tolerated<'a>(
    alloc: Global,
    state: &State,
    holders: &Held,
    totals: &SharedTotals,
    rows: &'a Rows<'a>,
    node: &Text,
    claims: &'a [WantedClaim<'a>],
    dues: &[Due],
) -> Result<Option<Failure>, AllocError>
    requires holders { AreHeld holders.now (held state.now) }
    requires totals { AreCounted state.now.inventory holders.now totals.now }
    requires rows { AreRowsOf state.now node.now rows.now }
    requires claims { claims.now ≡ rows.now.wants.claims }
    requires dues { Each (IsDue (wanting.input_of rows.now)) dues.now }
    requires in_order { AreByClaim 0 (map (due_seen (wanting.input_of rows.now)) dues.now) }
    ensures { IfOk result (λ found. found ≡ spec.failing_tolerated (input_of state.now rows.now.wants.claims node.now) (map (due_seen (wanting.input_of rows.now)) dues.now)) }
{
    if let Some(found) = tainted(alloc, rows, dues)? {
        return Ok(Some(found));
    }
    failing_held(alloc, state, holders, totals, rows, node, claims, dues)
}

/// The first failure of results of the right shape.
fn failing_shaped<'a>(
    alloc: Global,
    state: &State,
    holders: &Held,
    totals: &SharedTotals,
    rows: &'a Rows<'a>,
    node: &Text,
    claims: &'a [WantedClaim<'a>],
    choice: &[usize],
    dues: &[Due],
) -> Result<Option<Failure>, AllocError>
    requires holders { AreHeld holders.now (held state.now) }
    requires totals { AreCounted state.now.inventory holders.now totals.now }
    requires rows { AreRowsOf state.now node.now rows.now }
    requires claims { claims.now ≡ rows.now.wants.claims }
    requires dues { Each (IsDue (wanting.input_of rows.now)) dues.now }
    requires in_order { AreByClaim 0 (map (due_seen (wanting.input_of rows.now)) dues.now) }
    ensures { IfOk result (λ found. found ≡ spec.failing_shaped (input_of state.now rows.now.wants.claims node.now) choice.now (map (due_seen (wanting.input_of rows.now)) dues.now)) }
{
    if let Some(found) = selector_no(alloc, rows, dues)? {
        return Ok(Some(found));
    }
    if let Some(found) = selector_fault(alloc, rows, choice)? {
        return Ok(Some(found));
    }
    failing_tolerated(alloc, state, holders, totals, rows, node, claims, dues)
}

/// The first failure of grants whose devices are the node's.
fn failing_rows<'a>(
    alloc: Global,
    state: &State,
    holders: &Held,
    totals: &SharedTotals,
    view: &PoolView,
    rows: &'a Rows<'a>,
    node: &Text,
    claims: &'a [WantedClaim<'a>],
    grants: &'a [Grant],
) -> Result<Option<Failure>, AllocError>
    requires holders { AreHeld holders.now (held state.now) }
    requires totals { AreCounted state.now.inventory holders.now totals.now }
    requires view { IsViewOf state.now node.now view.now }
    requires rows { AreRowsOf state.now node.now rows.now }
    requires claims { claims.now ≡ rows.now.wants.claims }
    requires on_node { find (standing.is_off view.now.devices) (standing.all_results grants.now) ≡ None }
    ensures { IfOk result (λ found. found ≡ spec.failing_in (input_of state.now rows.now.wants.claims node.now) grants.now) }
{
    let mut named = Named::new(alloc);
    let mut dues = Vec::new(alloc);
    let shape = misshapen(alloc, view, rows, claims, grants, &mut named, &mut dues)?;
    if let Some(found) = shape {
        return Ok(Some(found));
    }
    let choice = &named.choice;
    failing_shaped(
        alloc, state, holders, totals, rows, node, claims, choice, &dues,
    )
}

/// The first failure of grants on a node, which the view is of.
fn failing_on(
    alloc: Global,
    state: &State,
    holders: &Held,
    totals: &SharedTotals,
    view: &PoolView,
    node: &Text,
    wants: &Wants,
    grants: &[Grant],
) -> Result<Option<Failure>, AllocError>
    requires holders { AreHeld holders.now (held state.now) }
    requires totals { AreCounted state.now.inventory holders.now totals.now }
    requires view { IsViewOf state.now node.now view.now }
    requires classes { wants.now.classes ≡ state.now.classes }
    ensures { IfOk result (λ found. found ≡ spec.failing_in (input_of state.now wants.now.claims node.now) grants.now) }
{
    if let Some(found) = device_gone(alloc, view, grants)? {
        return Ok(Some(found));
    }
    let rows = Rows::of(alloc, wants, view.devices(), view.has_broken())?;
    failing_rows(
        alloc,
        state,
        holders,
        totals,
        view,
        &rows,
        node,
        &wants.claims,
        grants,
    )
}

/// The first failure of grants of these claims on a node.
fn failing_at(
    alloc: Global,
    state: &State,
    holders: &Held,
    totals: &SharedTotals,
    claims: Vec<WantedClaim>,
    node: &Text,
    grants: &[Grant],
) -> Result<Option<Failure>, AllocError>
    requires holders { AreHeld holders.now (held state.now) }
    requires totals { AreCounted state.now.inventory holders.now totals.now }
    ensures { IfOk result (λ found. found ≡ spec.failing_at state.now claims.entry.items node.now grants.now) }
{
    if state.inventory.nodes().get(node).is_none() {
        return Ok(Some(Failure::NodeGone(node.copy(alloc)?)));
    }
    let view = PoolView::of(alloc, &state.inventory, node)?;
    let wants = Wants {
        claims,
        classes: &state.classes,
    };
    failing_on(alloc, state, holders, totals, &view, node, &wants, grants)
}

/// The first failure of a plan for a pod that exists, whose claims all exist.
fn failing_for(
    alloc: Global,
    state: &State,
    holders: &Held,
    totals: &SharedTotals,
    key: &Key,
    pod: &PodState,
    plan: &Plan,
) -> Result<Option<Failure>, AllocError>
    requires holders { AreHeld holders.now (held state.now) }
    requires totals { AreCounted state.now.inventory holders.now totals.now }
    ensures { IfOk result (λ found. found ≡ spec.failing_pod state.now key.now pod.now plan.now) }
{
    if let Some(found) = changed(alloc, state, key, pod, plan)? {
        return Ok(Some(found));
    }
    if let Some(found) = claim_full(alloc, state, key, plan.known.claims.as_slice())? {
        return Ok(Some(found));
    }
    let claims = wanted_claims(alloc, state, &pod.pod.object)?;
    let grants = plan.grants.as_slice();
    failing_at(alloc, state, holders, totals, claims, &plan.node, grants)
}

/// Checks a plan for a pod against a state, of which `holders` has the devices that claims hold, and `totals`
/// what these draw: the first failure, or none.
///
/// It is one of a claim that is gone, changed, or full, of the claims that the plan knew; the node that
/// is gone; a device that isn't the node's; results that aren't of the shape that their claim asks for;
/// a device that doesn't meet its request, or on which a selector has an evaluation error; a device with a
/// taint that its request doesn't tolerate; a device that is held; a counter without enough; or a constraint
/// that the results don't keep, in this order. A pod that doesn't exist is changed. It takes one pass over
/// the devices of the node and the results. `AllocError` only if memory runs out.
pub fn check(
    alloc: Global,
    state: &State,
    holders: &Held,
    totals: &SharedTotals,
    pod: &Key,
    plan: &Plan,
) -> Result<Option<Failure>, AllocError>
    requires holders { AreHeld holders.now (held state.now) }
    requires totals { AreCounted state.now.inventory holders.now totals.now }
    ensures { IfOk result (λ found. found ≡ spec.failing state.now pod.now plan.now) }
{
    if let Some(found) = claim_gone(alloc, state, plan.known.claims.as_slice())? {
        return Ok(Some(found));
    }
    match state.pods.get(pod) {
        None => Ok(Some(Failure::ClaimChanged(pod.copy(alloc)?))),
        Some(found) => failing_for(alloc, state, holders, totals, pod, found, plan),
    }
}

/// What a status write would grant to the claim.
fn granted_by(alloc: Global, claim: &Key, status: &ClaimStatus) -> Result<Grant, AllocError>
    ensures { IfOk result (λ grant. grant ≡ spec.granted_by claim.now status.now) }
{
    let mut results = Seq::empty(alloc);
    for found in status.results.as_slice() {
        results.push(DeviceResult {
            name: found.request.copy(alloc)?,
            device: found.device.copy(alloc)?,
            admin: found.admin,
        })?;
    }
    Ok(Grant {
        claim: claim.copy(alloc)?,
        results,
    })
}

/// The first failure of a status write to this claim.
fn failing_write(
    alloc: Global,
    state: &State,
    holders: &Held,
    totals: &SharedTotals,
    key: &Key,
    claim: &ReadyClaim,
    status: &ClaimStatus,
) -> Result<Option<Failure>, AllocError>
    requires holders { AreHeld holders.now (held state.now) }
    requires totals { AreCounted state.now.inventory holders.now totals.now }
    ensures { IfOk result (λ found. found ≡ spec.failing_results state.now key.now claim.now status.now) }
{
    let grant = granted_by(alloc, key, status)?;
    let mut claims = Vec::new(alloc);
    claims.push(WantedClaim { key, claim })?;
    failing_at(
        alloc,
        state,
        holders,
        totals,
        claims,
        &status.node,
        &[grant],
    )
}

/// Checks a status write to a claim that exists, as a plan of the claim's results on its node, against
/// a state, of which `holders` has the devices that claims hold, and `totals` what these draw: the first
/// failure from the node on, or none. `AllocError` only if memory runs out.
pub fn check_status(
    alloc: Global,
    state: &State,
    holders: &Held,
    totals: &SharedTotals,
    claim: &Key,
    status: &ClaimStatus,
) -> Result<Option<Failure>, AllocError>
    requires holders { AreHeld holders.now (held state.now) }
    requires totals { AreCounted state.now.inventory holders.now totals.now }
    requires there { IsSome (at_key state.now.claims claim.now) }
    ensures { IfOk result (λ found. found ≡ spec.failing_status state.now claim.now status.now) }
{
    match state.claims.get(claim) {
        Some(found) => failing_write(
            alloc,
            state,
            holders,
            totals,
            claim,
            &found.claim.object,
            status,
        ),
        None => unreachable!(),
    }
}

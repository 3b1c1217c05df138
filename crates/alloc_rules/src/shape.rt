//! Whether the results of a plan are of the shape that its claims ask for.

ghost use Rattle.std.specs.Prelude.{◌≡◌, ◌<◌, ◌∷◌, ◌&&◌, true, false, [], IfOk, None, find, length, map, nat_eq};
ghost use Rattle.std.specs.List.{list_all};
ghost use Rattle.std.specs.Bool.{beq};
ghost use Rattle.std.specs.Cmp.Lexicographic.{pointwise};
ghost use Rattle.pool_view.specs.Names.{text_eq, key_eq};
ghost use Rattle.request_rules.specs.Lists.{Each};
ghost use Rattle.request_rows.specs.Wanted.{input_of};
ghost use Rattle.request_rules.specs.Ways.{all_asked, asked_at, wishes_in};
ghost use Rattle.plan_rules.specs.Chosen as chosen;
ghost use Rattle.plan_rules.specs.Chosen.{choice_of, due_for, dues_for};
ghost use Rattle.alloc_rules.specs.Rows.{AreDuesMore, AreWays, HasWays, IsPickedAll, asked_rows, due_of, positions_of, sits_row};
ghost use Rattle.plan_rules.specs.Shaped as spec;
ghost use Rattle.plan_rules.specs.Standing.{all_results, is_off};

use crate::due::Due;
use crate::naming::{Named, pick_ways};
use api_claim::AllocationMode;
use cluster::{DeviceResult, Failure, Grant};
use object_fields::Key;
use pool_view::PoolView;
use request_rows::{Row, Rows, WantedClaim};
use std::alloc::{AllocError, Global};

/// The most results of a claim.
const MOST_RESULTS: usize = 32;

/// Whether the result has the row's name, and admin access if and only if the row has.
fn is_for(row: &Row, found: &DeviceResult) -> bool
    ensures { result ≡ text_eq row.now.name found.now.name && beq found.now.admin row.now.admin }
{
    row.name == found.name && found.admin == row.admin
}

/// How many results are expected for a row.
fn due_of(row: &Row) -> u64
    ensures { result ≡ due_of row.now }
{
    match row.mode {
        AllocationMode::ExactCount(count) => count,
        AllocationMode::All => row.matching.as_slice().len() as u64,
    }
}

/// Whether the positions increase.
fn rise(dues: &[Due]) -> bool
    ensures { result ≡ spec.rises_from 0 (positions_of dues.now) }
{
    for at in 1..dues.len() {
        let due = &dues[at];
        let before = &dues[at - 1];
        if due.position <= before.position {
            return false;
        }
    }
    true
}

/// Whether these are the positions.
fn are_at(dues: &[Due], positions: &[usize]) -> bool
    ensures { result ≡ pointwise nat_eq (positions_of dues.now) positions.now }
{
    if dues.len() != positions.len() {
        return false;
    }
    for at in 0..dues.len() {
        let due = &dues[at];
        if due.position != positions[at] {
            return false;
        }
    }
    true
}

/// Whether the positions are those that the row's mode asks for.
fn sits(row: &Row, broken: bool, dues: &[Due]) -> bool
    ensures { result ≡ sits_row row.now broken (positions_of dues.now) row.now.mode }
{
    match row.mode {
        AllocationMode::ExactCount(count) => dues.len() as u64 == count && rise(dues),
        AllocationMode::All => {
            !broken && !dues.is_empty() && are_at(dues, row.matching.as_slice())
        }
    }
}

/// Puts a result of a row at the end, if it is for it.
fn add_result<'a>(
    view: &PoolView,
    rows: &Rows,
    row: usize,
    claim: &'a Key,
    found: &'a DeviceResult,
    dues: &mut Vec<Due<'a>>,
) -> Result<bool, AllocError>
    requires row { row < length (all_asked (input_of rows.now)) }
    requires devices { view.now.devices ≡ (input_of rows.now).devices }
    requires on_node { is_off view.now.devices found.now ≡ false }
    ensures found { IfOk result (λ added. added ≡ spec.is_for (asked_at (input_of rows.now) row) found.now) }
    ensures dues { IfOk result (λ added. added ≡ true → AreDuesMore (input_of rows.now) dues.old.items dues.new.items (due_for claim.now (asked_at (input_of rows.now) row) found.now ∷ [])) }
{
    if !is_for(rows.row(row), found) {
        return Ok(false);
    }
    match view.position(&found.device) {
        None => Ok(false),
        Some(position) => {
            dues.push(Due {
                claim,
                row,
                position,
                result: found,
            })?;
            Ok(true)
        }
    }
}

/// Puts the results of a row at the end, if each is for it.
fn add_results<'a>(
    view: &PoolView,
    rows: &Rows,
    row: usize,
    claim: &'a Key,
    results: &'a [DeviceResult],
    dues: &mut Vec<Due<'a>>,
) -> Result<bool, AllocError>
    requires row { row < length (all_asked (input_of rows.now)) }
    requires devices { view.now.devices ≡ (input_of rows.now).devices }
    requires on_node { find (is_off view.now.devices) results.now ≡ None }
    ensures found { IfOk result (λ added. added ≡ list_all (spec.is_for (asked_at (input_of rows.now) row)) results.now) }
    ensures dues { IfOk result (λ added. added ≡ true → AreDuesMore (input_of rows.now) dues.old.items dues.new.items (map (due_for claim.now (asked_at (input_of rows.now) row)) results.now)) }
{
    for found in results {
        if !add_result(view, rows, row, claim, found, dues)? {
            return Ok(false);
        }
    }
    Ok(true)
}

/// Puts the results of a row at the end, if they are its own.
fn add_part<'a>(
    view: &PoolView,
    rows: &Rows,
    row: usize,
    claim: &'a Key,
    results: &'a [DeviceResult],
    dues: &mut Vec<Due<'a>>,
) -> Result<bool, AllocError>
    requires row { row < length (all_asked (input_of rows.now)) }
    requires devices { view.now.devices ≡ (input_of rows.now).devices }
    requires broken { view.now.has_broken ≡ (input_of rows.now).broken }
    requires on_node { find (is_off view.now.devices) results.now ≡ None }
    ensures shaped { IfOk result (λ shaped. shaped ≡ spec.is_part (input_of rows.now) (asked_at (input_of rows.now) row) results.now) }
    ensures dues { IfOk result (λ shaped. shaped ≡ true → AreDuesMore (input_of rows.now) dues.old.items dues.new.items (map (due_for claim.now (asked_at (input_of rows.now) row)) results.now)) }
{
    let before = dues.len();
    if !add_results(view, rows, row, claim, results, dues)? {
        return Ok(false);
    }
    let asked = rows.row(row);
    Ok(sits(asked, view.has_broken(), &dues[before..]))
}

/// Puts the results of the rows at the end, each of which has the next of them; false if they aren't
/// the rows' own, or one is left over.
fn add_parts<'a>(
    view: &PoolView,
    rows: &Rows,
    picked: &[usize],
    claim: &'a Key,
    results: &'a [DeviceResult],
    dues: &mut Vec<Due<'a>>,
) -> Result<bool, AllocError>
    requires rows { Each (λ r. r < length (all_asked (input_of rows.now))) picked.now }
    requires devices { view.now.devices ≡ (input_of rows.now).devices }
    requires broken { view.now.has_broken ≡ (input_of rows.now).broken }
    requires on_node { find (is_off view.now.devices) results.now ≡ None }
    ensures shaped { IfOk result (λ shaped. shaped ≡ spec.are_parts (input_of rows.now) (asked_rows (input_of rows.now) picked.now) results.now) }
    ensures dues { IfOk result (λ shaped. shaped ≡ true → AreDuesMore (input_of rows.now) dues.old.items dues.new.items (dues_for (input_of rows.now) claim.now (asked_rows (input_of rows.now) picked.now) results.now)) }
{
    let mut at = 0;
    for place in 0..picked.len() {
        let row = picked[place];
        let count = due_of(rows.row(row)) as usize;
        let left = &results[at..];
        if left.len() < count {
            return Ok(false);
        }
        if !add_part(view, rows, row, claim, &left[..count], dues)? {
            return Ok(false);
        }
        at += count;
    }
    Ok(at == results.len())
}

/// Whether no two of the results are of one device.
fn differ(results: &[DeviceResult]) -> bool
    ensures { result ≡ spec.differ results.now }
{
    for at in 0..results.len() {
        if is_among(&results[at], &results[at + 1..]) {
            return false;
        }
    }
    true
}

/// Whether one of the others is of the same device.
fn is_among(found: &DeviceResult, others: &[DeviceResult]) -> bool
    ensures { result ≡ spec.is_among found.now others.now }
{
    others.iter().any(|other| found.device == other.device)
}

/// Whether a grant is the claim's.
fn is_of(grant: &Grant, claim: &Key) -> bool
    ensures { result ≡ key_eq grant.now.claim claim.now }
{
    grant.claim == *claim
}

/// Whether a grant is the claim's, and its results are of the shape that the claim asks for. What the
/// names of the results pick and the results with their rows are put at the end.
fn is_granted<'a>(
    alloc: Global,
    view: &PoolView,
    rows: &Rows,
    place: usize,
    wanted: &WantedClaim<'a>,
    grant: &'a Grant,
    named: &mut Named,
    dues: &mut Vec<Due<'a>>,
) -> Result<bool, AllocError>
    requires there { HasWays (input_of rows.now) named.old.next (wishes_in place wanted.now.key wanted.now.requests) }
    requires ways { AreWays (input_of rows.now) named.old.next (wishes_in place wanted.now.key wanted.now.requests) }
    requires devices { view.now.devices ≡ (input_of rows.now).devices }
    requires broken { view.now.has_broken ≡ (input_of rows.now).broken }
    requires on_node { find (is_off view.now.devices) grant.now.results ≡ None }
    ensures granted { IfOk result (λ granted. granted ≡ key_eq grant.now.claim wanted.now.key && spec.is_shaped (input_of rows.now) place wanted.now grant.now.results) }
    ensures named { IfOk result (λ granted. granted ≡ true → IsPickedAll (input_of rows.now) (wishes_in place wanted.now.key wanted.now.requests) grant.now.results named.old named.new) }
    ensures dues { IfOk result (λ granted. granted ≡ true → AreDuesMore (input_of rows.now) dues.old.items dues.new.items
        (dues_for (input_of rows.now) wanted.now.key (asked_rows (input_of rows.now) named.new.rows.items) grant.now.results)) }
{
    let results = grant.results.as_slice();
    if !is_of(grant, wanted.key) {
        return Ok(false);
    }
    if results.len() > MOST_RESULTS {
        return Ok(false);
    }
    if !differ(results) {
        return Ok(false);
    }
    let requests = wanted.claim.claim().requests.as_slice();
    if !pick_ways(alloc, rows, place, wanted.key, results, requests, named)? {
        return Ok(false);
    }
    let shaped = add_parts(view, rows, &named.rows, wanted.key, results, dues)?;
    Ok(shaped)
}

/// The failure of the first claim whose grant isn't of the shape that it asks for. What the names of
/// results pick and the results with their rows are put at the end, with nothing before.
pub fn misshapen<'a>(
    alloc: Global,
    view: &PoolView,
    rows: &Rows,
    claims: &[WantedClaim<'a>],
    grants: &'a [Grant],
    named: &mut Named,
    dues: &mut Vec<Due<'a>>,
) -> Result<Option<Failure>, AllocError>
    requires claims { claims.now ≡ (input_of rows.now).claims }
    requires devices { view.now.devices ≡ (input_of rows.now).devices }
    requires broken { view.now.has_broken ≡ (input_of rows.now).broken }
    requires on_node { find (is_off view.now.devices) (all_results grants.now) ≡ None }
    requires first { named.old.next ≡ 0 }
    requires choice { named.old.choice.items ≡ [] }
    requires none { dues.old.items ≡ [] }
    ensures found { IfOk result (λ found. found ≡ spec.misshapen (input_of rows.now) grants.now) }
    ensures choice { IfOk result (λ found. found ≡ None → named.new.choice.items ≡ choice_of (input_of rows.now) grants.now) }
    ensures dues { IfOk result (λ found. found ≡ None → AreDuesMore (input_of rows.now) [] dues.new.items (chosen.dues (input_of rows.now) grants.now)) }
{
    for place in 0..claims.len() {
        let wanted = &claims[place];
        match grants.get(place) {
            None => return Ok(Some(Failure::Shape(wanted.key.copy(alloc)?))),
            Some(grant) => {
                if !is_granted(alloc, view, rows, place, wanted, grant, named, dues)? {
                    return Ok(Some(Failure::Shape(wanted.key.copy(alloc)?)));
                }
            }
        }
    }
    match grants.get(claims.len()) {
        None => Ok(None),
        Some(grant) => Ok(Some(Failure::Shape(grant.claim.copy(alloc)?))),
    }
}

//! What the names of results pick.

ghost use Rattle.std.specs.Prelude.{◌≡◌, ◌+◌, ◌≤◌, [], ◌∷◌, true, is_some, length, take, drop, IfOk, OnOk};
ghost use Rattle.std.specs.List.{list_any};
ghost use Rattle.pool_view.specs.Names.{text_eq};
ghost use Rattle.request_rules.specs.Asked.{Wish, ways_of};
ghost use Rattle.request_rows.specs.Wanted.{input_of};
ghost use Rattle.request_rules.specs.Ways.{all_asked, ways_in, wishes_in};
ghost use Rattle.plan_rules.specs.Chosen as spec;
ghost use Rattle.alloc_rules.specs.Rows.{AreWays, HasWays, IsPickedAll, IsPickedMore, unnamed};
ghost use Rattle.plan_rules.specs.Shaped.{picks_each};

use api_claim::{DeviceRequest, RequestKind};
use cluster::DeviceResult;
use object_fields::Key;
use request_rows::{Row, Rows};
use std::alloc::{AllocError, Global};

/// Whether one of the results has the name of the row.
fn is_named(row: &Row, results: &[DeviceResult]) -> bool
    ensures { result ≡ list_any (λ r. text_eq row.now.name r.name) results.now }
{
    results.iter().any(|found| row.name == found.name)
}

/// States that there are no more rows than an index may count. Allocates nothing.
fn rows_fit(rows: &Rows)
    ensures { length (all_asked (input_of rows.now)) ≤ 18446744073709551615 }
{
    rows.len();
}

/// How many of `count` rows are before the first that a result names.
fn unnamed(rows: &Rows, results: &[DeviceResult], first: usize, count: usize) -> usize
    requires { first + count ≤ length (all_asked (input_of rows.now)) }
    ensures { result ≡ unnamed results.now (take count (drop first (all_asked (input_of rows.now)))) }
{
    rows_fit(rows);
    for at in 0..count {
        if is_named(rows.row(first + at), results) {
            return at;
        }
    }
    count
}

/// How many ways there are to meet a request.
pub fn ways_of(kind: &RequestKind) -> usize
    ensures { result ≡ ways_of kind.now }
{
    match kind {
        RequestKind::Exactly(_) => 1,
        RequestKind::FirstAvailable(subrequests) => subrequests.as_slice().len(),
    }
}

/// The way to meet a request that the names of results pick, whose rows start at `first`; how
/// many ways there are if they pick none.
fn named_way(rows: &Rows, results: &[DeviceResult], request: &DeviceRequest, first: usize) -> usize
    requires { first + ways_of request.now.kind ≤ length (all_asked (input_of rows.now)) }
    ensures { (q : Wish) → q.request ≡ request.now → take (ways_of request.now.kind) (drop first (all_asked (input_of rows.now))) ≡ ways_in q →
        result ≡ spec.named_way results.now q request.now.kind }
{
    match &request.kind {
        RequestKind::Exactly(_) => 0,
        RequestKind::FirstAvailable(subrequests) => {
            unnamed(rows, results, first, subrequests.as_slice().len())
        }
    }
}

/// What the names of results pick of the claims that were examined.
#[derive(Drop)]
pub struct Named {
    /// Of each request.
    pub choice: Vec<usize>,
    /// The rows of the claim that was examined last.
    pub rows: Vec<usize>,
    /// The first row of the next claim.
    pub next: usize,
}

impl Named {
    ghost use Rattle.std.specs.Prelude.{◌≡◌, []};

    /// Nothing is picked. Allocates nothing.
    pub fn new(alloc: Global) -> Named
        ensures choice { result.choice.items ≡ [] }
        ensures next { result.next ≡ 0 }
    {
        Named {
            choice: Vec::new(alloc),
            rows: Vec::new(alloc),
            next: 0,
        }
    }
}

/// Picks the way to meet a request by the names of results; false if they pick none.
fn pick_way(
    rows: &Rows,
    results: &[DeviceResult],
    request: &DeviceRequest,
    named: &mut Named,
) -> Result<bool, AllocError>
    requires there { named.old.next + ways_of request.now.kind ≤ length (all_asked (input_of rows.now)) }
    ensures next { OnOk result (named.new.next ≡ named.old.next + ways_of request.now.kind) }
    ensures picks { (q : Wish) → q.request ≡ request.now → AreWays (input_of rows.now) named.old.next (q ∷ []) → IfOk result (λ picked. picked ≡ is_some (spec.asked_for results.now q)) }
    ensures named { (q : Wish) → q.request ≡ request.now → AreWays (input_of rows.now) named.old.next (q ∷ []) → IfOk result (λ picked. picked ≡ true →
        IsPickedMore (input_of rows.now) (q ∷ []) results.now named.old named.new) }
{
    rows_fit(rows);
    let first = named.next;
    let ways = ways_of(&request.kind);
    let way = named_way(rows, results, request, first);
    named.choice.push(way)?;
    named.next = first + ways;
    if way < ways {
        named.rows.push(first + way)?;
        return Ok(true);
    }
    Ok(false)
}

/// Picks the ways to meet the requests of a claim by the names of its results; false if they pick none
/// of one of the requests.
pub fn pick_ways(
    alloc: Global,
    rows: &Rows,
    place: usize,
    key: &Key,
    results: &[DeviceResult],
    requests: &[DeviceRequest],
    named: &mut Named,
) -> Result<bool, AllocError>
    requires there { HasWays (input_of rows.now) named.old.next (wishes_in place key.now requests.now) }
    requires ways { AreWays (input_of rows.now) named.old.next (wishes_in place key.now requests.now) }
    ensures picks { IfOk result (λ picked. picked ≡ picks_each results.now (wishes_in place key.now requests.now)) }
    ensures named { IfOk result (λ picked. picked ≡ true → IsPickedAll (input_of rows.now) (wishes_in place key.now requests.now) results.now named.old named.new) }
{
    named.rows = Vec::new(alloc);
    for request in requests {
        if !pick_way(rows, results, request, named)? {
            return Ok(false);
        }
    }
    Ok(true)
}

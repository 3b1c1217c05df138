ghost use Rattle.std.specs.Prelude.{◌≡◌, ◌+◌, ◌<◌, ◌≤◌, ◌^◌, ℕ, List, [], All, IfOk, IfSome, length, map, sum, vec_len, vec_capacity};

use std::alloc::{AllocError, Global};

/// How many items there are in all, if it fits a `usize`.
fn count_all<J>(lists: &[Vec<J>]) -> Option<usize>
    ensures { IfSome result (λ n. n ≡ sum (map (λ l. length l.items) lists.now)) }
{
    let mut count: usize = 0;
    for list in lists {
        count = count.checked_add(list.len())?;
    }
    Some(count)
}

/// An empty vector that has room for as many items as the lists have together.
pub fn room_for_all<J, X>(alloc: Global, lists: &[Vec<J>]) -> Result<Vec<X>, AllocError>
    ensures empty { IfOk result (λ v. v.items ≡ []) }
    ensures room { IfOk result (λ v. vec_capacity v ≡ sum (map (λ l. length l.items) lists.now)) }
{
    let Some(count) = count_all(lists) else {
        return Err(AllocError);
    };
    Vec::with_capacity(alloc, count)
}

/// An empty vector for each list, which has room for as many items as the list has.
pub fn room_for_each<J, X: Drop>(alloc: Global, lists: &[Vec<J>]) -> Result<Vec<Vec<X>>, AllocError>
    ensures empty { IfOk result (λ v. All (λ r. r.items ≡ []) v.items) }
    ensures room { IfOk result (λ v. map (λ r. vec_capacity r) v.items ≡ map (λ l. length l.items) lists.now) }
{
    let mut each = Vec::with_capacity(alloc, lists.len())?;
    for list in lists {
        each.push_reserved(Vec::with_capacity(alloc, list.len())?);
    }
    Ok(each)
}

ghost use Rattle.std.specs.Prelude.{◌≡◌, IfOk};
ghost use Rattle.journal_text.specs.Journal.{bound_count, granted_count, is_bound, summary_by};

use cluster::{Phase, State};
use std::alloc::{AllocError, Global};

/// How many claims have a grant.
fn granted_count(state: &State) -> usize
    ensures { result ≡ granted_count state.now }
{
    // How many there are fits, so how many of them are counted does.
    let _most = state.claims.len();
    let mut count = 0;
    for (_, claim) in state.claims.iter() {
        if claim.grant.is_some() {
            count += 1;
        }
    }
    count
}

fn is_bound(phase: &Phase) -> bool
    ensures { result ≡ is_bound phase.now }
{
    matches!(phase, Phase::Bound(_))
}

/// How many pods are bound.
fn bound_count(state: &State) -> usize
    ensures { result ≡ bound_count state.now }
{
    // How many there are fits, so how many of them are counted does.
    let _most = state.pods.len();
    let mut count = 0;
    for (_, pod) in state.pods.iter() {
        if is_bound(&pod.phase) {
            count += 1;
        }
    }
    count
}

/// The last line of a history's text, ended by LF: how many entries it has, how many commands made
/// it, and how many claims have a grant and how many pods are bound after it. `AllocError` is
/// returned only if memory runs out. The format is this project's own.
pub fn summary(
    alloc: Global,
    entries: u64,
    state: &State,
    commands: u64,
) -> Result<Vec<u8>, AllocError>
    ensures { IfOk result (λ v. v.items ≡ summary_by entries state.now commands) }
{
    let granted = granted_count(state);
    let bound = bound_count(state);
    let text = format!(in alloc;
        "summary entries={entries} commands={commands} granted={granted} bound={bound}\n"
    )?;
    Ok(text.into_bytes())
}

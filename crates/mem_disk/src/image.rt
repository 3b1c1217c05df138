ghost use Rattle.std.specs.Prelude.{◌≡◌, ◌+◌, ◌<◌, ◌≤◌, [], ◌∷◌, IfOk, List, OnOk, Option, drop, length, take, ℕ};
ghost use Rattle.std.specs.List.{AllByRecursion};
ghost use Rattle.dra_ports.specs.DiskContent.{Agrees, IsImage};
ghost use Rattle.mem_disk.specs.Stages.{IsUnsynced, Stage, StartsWith, after, begun, bytes_from, gapped, stage_after};

use crate::change::Change;
use std::alloc::{AllocError, Global};

/// How many ways there are to choose the bytes that a crash leaves.
const PICKS: u64 = 8;

/// One of the byte lists that a crash may leave after these changes of a disk that held the bytes `first`, all of them
/// sure, chosen by `pick`.
///
/// What the disk held at its last sync is sure, but for what was written or cut since.
pub fn image_after(
    alloc: Global,
    first: &[u8],
    changes: &[Change],
    pick: u64,
) -> Result<Vec<u8>, AllocError>
    ensures { IfOk result (λ v. IsImage (stage_after (begun first.now) changes.now).sure v.items) }
{
    let (synced, since) = changes.split_at(through_sync(changes));
    let mut image = replayed(alloc, first, synced)?;
    let bytes = replayed(alloc, &image, since)?;
    blur_each(&mut image, since, &bytes, pick);
    lengthen(&mut image, since, &bytes, pick)?;
    Ok(image)
}

/// How many of the changes there are through the last sync; 0 if there is none.
fn through_sync(changes: &[Change]) -> usize
    ensures within { result ≤ length changes.now }
    ensures synced { (first : List ℕ) → stage_after (begun first) (take result changes.now) ≡ begun (bytes_from first (take result changes.now)) }
    ensures since { AllByRecursion IsUnsynced (drop result changes.now) }
{
    let mut count = changes.len();
    while count > 0 {
        if let Change::Sync = changes[count - 1] {
            return count;
        }
        count -= 1;
    }
    count
}

/// What a disk that held these bytes holds after these changes.
#[tactic(auto, using(crate::proofs::Past::no_bytes))]
fn replayed(alloc: Global, first: &[u8], changes: &[Change]) -> Result<Vec<u8>, AllocError>
    ensures { IfOk result (λ v. v.items ≡ bytes_from first.now changes.now) }
{
    let mut bytes = Vec::from_slice(alloc, first)?;
    for change in changes {
        change.apply(&mut bytes)?;
    }
    Ok(bytes)
}

/// Makes what these changes left unsure chosen bytes: what may be left before them may then be left after them.
fn blur_each(image: &mut Vec<u8>, changes: &[Change], bytes: &[u8], pick: u64)
    requires { AllByRecursion IsUnsynced changes.now }
    ensures { (s : Stage) → IsImage s.sure image.old.items → IsImage (stage_after s changes.now).sure image.new.items }
{
    for change in changes {
        blur(image, change, bytes, pick);
    }
}

/// The same for one change.
fn blur(image: &mut Vec<u8>, change: &Change, bytes: &[u8], pick: u64)
    requires { IsUnsynced change.now }
    ensures { (s : Stage) → IsImage s.sure image.old.items → IsImage (after change.now s).sure image.new.items }
{
    match change {
        Change::Write(at, from) => choose(image, *at, from.len(), bytes, pick),
        Change::Cut(len) => image.truncate(*len),
        Change::Sync => {}
    }
}

/// Makes `count` bytes from the offset `at` on chosen ones, as far as there are bytes.
fn choose(image: &mut [u8], at: usize, count: usize, bytes: &[u8], pick: u64)
    ensures agrees { (places : List (Option ℕ)) → Agrees places image.old → Agrees (gapped at count places) image.new }
{
    let start = at.min(image.len());
    let reached = count.min(image.len() - start);
    for index in 0..reached {
        image[start + index] = chosen(bytes, start + index, pick);
    }
}

/// Appends bytes, up to some bytes past what a read returns, or none, if anything was changed since the last sync.
fn lengthen(
    image: &mut Vec<u8>,
    since: &[Change],
    bytes: &[u8],
    pick: u64,
) -> Result<(), AllocError>
    ensures starts { OnOk result (StartsWith image.new.items image.old.items) }
    ensures synced { OnOk result (since.now ≡ [] → image.new.items ≡ image.old.items) }
{
    let more = (pick % PICKS) as usize;
    if more == 0 || since.is_empty() {
        return Ok(());
    }
    while image.len() < bytes.len() + more {
        let byte = chosen(bytes, image.len(), pick);
        image.push(byte)?;
    }
    Ok(())
}

/// A byte for an offset that isn't sure, where a read returns `bytes`: by the remainder of `pick` by 8 none that was
/// written, an open gate of a journal, what was written, its complement, the first or the second half of what was
/// written, some of what was written, or any byte.
fn chosen(bytes: &[u8], at: usize, pick: u64) -> u8 {
    let written = *bytes.get(at).unwrap_or(&0);
    let mixed = (pick ^ at as u64).wrapping_mul(0x9e37_79b9_7f4a_7c15) >> 56;
    let is_front = at < bytes.len() / 2;
    match pick % PICKS {
        0 => 0,
        1 => 0x5a,
        2 => written,
        3 => !written,
        4 if is_front => written,
        5 if !is_front => written,
        6 if mixed < 128 => written,
        7 => mixed as u8,
        _ => 0,
    }
}

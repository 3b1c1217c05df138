ghost use Rattle.std.specs.Prelude.{◌≡◌, ◌<◌, ◌≤◌, ◌+◌, ◌^◌, length, not};
ghost use Rattle.std.specs.List.{prefix_len};
ghost use Rattle.doc_split.specs.Documents.{is_blank};
ghost use Rattle.doc_split.specs.Scan.{depth_after, piece_length, scan_after, scan_behind};

use crate::place::{Place, is_blank, next_place};

/// How far a document was scanned: where its next byte is, and how many braces are open.
#[derive(Clone, Copy, Drop)]
pub struct Scan {
    pub place: Place,
    pub depth: u64,
}

/// The scan after one more byte.
fn scan_after(scan: Scan, byte: u8) -> Scan
    requires { scan.depth + 1 < 2 ^ 64 }
    ensures after { result ≡ scan_after scan byte }
    ensures bound { result.depth ≤ scan.depth + 1 }
{
    Scan {
        place: next_place(scan.place, byte),
        depth: depth_after(scan.place, scan.depth, byte),
    }
}

/// How many braces are open after one more byte.
fn depth_after(place: Place, depth: u64, byte: u8) -> u64
    requires { depth + 1 < 2 ^ 64 }
    ensures after { result ≡ depth_after place depth byte }
    ensures bound { result ≤ depth + 1 }
{
    if place != Place::Outside {
        return depth;
    }
    match byte {
        b'{' => depth + 1,
        b'}' => depth.saturating_sub(1),
        _ => depth,
    }
}

/// Scans bytes of a document up to the brace that closes it, or all. Returns how many these are,
/// and the scan after them.
pub fn scan_piece(scan: Scan, bytes: &[u8]) -> (usize, Scan)
    requires { scan.depth + length bytes.now < 2 ^ 64 }
    ensures count { result.0 ≡ piece_length scan bytes.now }
    ensures behind { result.1 ≡ scan_behind scan bytes.now }
    ensures within { result.0 ≤ length bytes.now }
    ensures bound { result.1.depth ≤ scan.depth + result.0 }
{
    let mut scan = scan;
    let mut count = 0;
    for byte in bytes {
        scan = scan_after(scan, *byte);
        count += 1;
        if scan.depth == 0 {
            return (count, scan);
        }
    }
    (count, scan)
}

/// How many blanks the bytes begin with.
#[tactic(auto, using(crate::proofs::Blanks::blanks_within))]
pub fn count_blanks(bytes: &[u8]) -> usize
    ensures count { result ≡ prefix_len is_blank bytes.now }
    ensures within { result ≤ length bytes.now }
{
    bytes.iter().take_while(|byte| is_blank(**byte)).count()
}

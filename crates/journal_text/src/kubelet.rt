ghost use Rattle.std.specs.Prelude.{◌≡◌, IfOk};
ghost use Rattle.journal_text.specs.Journal.{kubelet_line};

use crate::clean::clean_from;
use crate::worded::{push_after, push_text};
use std::alloc::{AllocError, Global};

/// A line of what the kubelet did for a command of this number, which is of no entry: `-` in place of an index, the
/// number and the text, with one space between, ended by LF. Each byte below 0x20 and 0x7f before the LF is printed as
/// `?`. `AllocError` is returned only if memory runs out. The format is this project's own.
#[tactic(auto, unfolding(crate::specs::Journal::kubelet_line))]
pub fn kubelet_line(alloc: Global, job: u64, text: &str) -> Result<Vec<u8>, AllocError>
    ensures { IfOk result (λ v. v.items ≡ kubelet_line job text.now) }
{
    let mut line = Vec::new(alloc);
    push_after(&mut line, "- ", &job)?;
    push_text(&mut line, " ")?;
    push_text(&mut line, text)?;
    clean_from(&mut line, 0);
    line.push(b'\n')?;
    Ok(line)
}

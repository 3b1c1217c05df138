ghost use Rattle.std.specs.Prelude.{◌≡◌, ◌≤◌, ◌<◌, ◌+◌, length, drop, not, true, false};
ghost use Rattle.std.specs.List.{prefix_len};
ghost use Rattle.cel_lex.specs.Bytes.{is_blank, is_line_end, begins, begins_comment};
ghost use Rattle.cel_lex.specs.Gap.{gap_of, comment_of};

use crate::bytes::{is_blank, is_line_end};

#[tactic(auto, using(crate::proofs::GapLaws::gap_laws))]
/// How many bytes at the start of the text are blanks and comments.
pub fn gap_len(text: &[u8]) -> usize
    ensures count { result ≡ gap_of text.now }
    ensures within { result ≤ length text.now }
{
    let mut at = blank_len(text);
    while begins_comment(&text[at..]) {
        at += comment_len(&text[at..]);
    }
    at
}

fn begins_comment(text: &[u8]) -> bool
    ensures { result ≡ begins_comment text.now }
{
    matches!(text, [b'/', b'/', ..])
}

/// How many bytes the comment at the start of the text and the blanks after it have.
fn comment_len(text: &[u8]) -> usize
    ensures count { result ≡ comment_of text.now }
    ensures within { result ≤ length text.now }
{
    let line = line_len(text);
    line + blank_len(&text[line..])
}

/// How many blanks the text begins with.
fn blank_len(text: &[u8]) -> usize
    ensures count { result ≡ prefix_len is_blank text.now }
    ensures within { result ≤ length text.now }
{
    text.iter().take_while(|byte| is_blank(**byte)).count()
}

/// How many bytes are before the first line end.
fn line_len(text: &[u8]) -> usize
    ensures count { result ≡ prefix_len (λ c. not (is_line_end c)) text.now }
    ensures within { result ≤ length text.now }
{
    text.iter().take_while(|byte| !is_line_end(**byte)).count()
}

ghost use Rattle.std.specs.Prelude.{◌≡◌, ◌++◌, List, ℕ};
ghost use Rattle.dra_cli.specs.Lines.{EndsLine, IsLine};

/// The last line of a text whose lines each end with LF.
pub fn last_line(text: &[u8]) -> &[u8]
    ensures { (front line : List ℕ) → text.now ≡ front ++ line → EndsLine front → IsLine line → result.now ≡ line }
{
    let mut start = text.len().saturating_sub(1);
    'bytes: while start > 0 && text[start - 1] != b'\n' {
        start -= 1;
    }
    &text[start..]
}

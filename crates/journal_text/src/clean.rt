ghost use Rattle.std.specs.Prelude.{◌≡◌, ◌≤◌, ◌++◌, drop, length, map, take};
ghost use Rattle.journal_text.specs.Journal.{clean};

fn clean(byte: u8) -> u8
    ensures { result ≡ clean byte }
{
    if byte < 0x20 || byte == 0x7f {
        b'?'
    } else {
        byte
    }
}

/// Puts `?` in place of each control character.
fn clean_all(bytes: &mut [u8])
    ensures { bytes.new ≡ map clean bytes.old }
{
    for byte in bytes.iter_mut() {
        *byte = clean(*byte);
    }
}

/// Puts `?` in place of each control character from an index on.
pub fn clean_from(out: &mut Vec<u8>, from: usize)
    requires { from ≤ length out.old.items }
    ensures { out.new.items ≡ take from out.old.items ++ map clean (drop from out.old.items) }
{
    clean_all(&mut out[from..]);
}

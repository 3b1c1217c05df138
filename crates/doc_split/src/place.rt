ghost use Rattle.std.specs.Prelude.{◌≡◌};
ghost use Rattle.doc_split.specs.Documents.{is_blank, next_place};

/// Where a byte of a document is.
#[derive(Clone, Copy, Debug, PartialEq, Eq, Drop)]
pub enum Place {
    /// Outside strings.
    Outside,
    /// In a string.
    Quoted,
    /// In a string, escaped by the backslash before it.
    Escaped,
}

/// Whether a byte may be between documents: space, tab, LF and CR.
pub fn is_blank(byte: u8) -> bool
    ensures { result ≡ is_blank byte }
{
    byte == b' ' || byte == b'\t' || byte == b'\n' || byte == b'\r'
}

/// Where the byte after this one is.
pub fn next_place(place: Place, byte: u8) -> Place
    ensures { result ≡ next_place place byte }
{
    match place {
        Place::Outside => {
            if byte == b'"' {
                Place::Quoted
            } else {
                Place::Outside
            }
        }
        Place::Quoted => in_string(byte),
        Place::Escaped => Place::Quoted,
    }
}

/// Where the byte after one of a string is.
fn in_string(byte: u8) -> Place
    ensures { result ≡ next_place Place.Quoted byte }
{
    if byte == b'"' {
        Place::Outside
    } else if byte == b'\\' {
        Place::Escaped
    } else {
        Place::Quoted
    }
}

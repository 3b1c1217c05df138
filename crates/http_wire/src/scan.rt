ghost use Rattle.std.specs.Prelude.{◌≡◌, ◌≤◌, ◌<◌, MatchBool, length, take, min};
ghost use Rattle.http_wire.specs.Heads.{head_most};
ghost use Rattle.http_wire.specs.Scan.{IsBehind, at_start, begins, blank_after, next_place, scan_after, within};
ghost use Rattle.http_wire.specs.declared.scan.Place.TheVariants.{Before, Done};

/// Where in a head the next byte is.
#[derive(Clone, Copy, Debug, PartialEq, Eq, Drop)]
pub enum Place {
    /// At the beginning of a line, after nothing but empty lines.
    Before,
    /// After the CR that begins such a line.
    BeforeReturn,
    /// In a line that isn't empty.
    Inside,
    /// At the beginning of a line after one that isn't empty.
    Start,
    /// After the CR that begins such a line.
    StartReturn,
    /// After the head.
    Done,
}

/// How far a head was gone over.
#[derive(Clone, Copy, Drop)]
pub struct Scan {
    pub place: Place,
    /// How many bytes were gone over.
    pub count: usize,
    /// How many of them are of the empty lines before the first that isn't empty.
    pub blank: usize,
}

/// The most bytes of a head, with the empty lines before it.
pub const HEAD: usize = 16_384;

impl Scan {
    /// Nothing was gone over.
    pub fn new() -> Scan
        ensures { result ≡ begins }
    {
        Scan {
            place: Place::Before,
            count: 0,
            blank: 0,
        }
    }

    /// What is known after one more byte.
    fn after(self, byte: u8) -> Scan
        requires { self.count < head_most }
        ensures { result ≡ scan_after self byte }
    {
        let place = next_place(self.place, byte);
        let count = self.count + 1;
        Scan {
            place,
            count,
            blank: blank_after(place, count, self.blank),
        }
    }

    /// Goes on over the bytes of a head up to its end, or to that of the bytes, or as far as a head may go.
    pub fn over(self, bytes: &[u8]) -> Scan
        requires within { self.count ≤ min (length bytes.now) head_most }
        requires behind { IsBehind (take self.count bytes.now) self }
        ensures within { result.count ≤ min (length bytes.now) head_most }
        ensures behind { IsBehind (take result.count bytes.now) result }
        ensures all { (result.place ≡ Done → ⊥) → result.count ≡ min (length bytes.now) head_most }
    {
        let mut scan = self;
        let most = bytes.len().min(HEAD);
        while !is_done(scan.place) && scan.count < most {
            scan = scan.after(bytes[scan.count]);
        }
        scan
    }
}

/// How many bytes the empty lines have so far, if this is the place after `count` bytes.
fn blank_after(place: Place, count: usize, blank: usize) -> usize
    ensures { result ≡ blank_after place count blank }
{
    match place {
        Place::Before => count,
        Place::BeforeReturn => blank,
        Place::Inside => blank,
        Place::Start => blank,
        Place::StartReturn => blank,
        Place::Done => blank,
    }
}

/// Whether the head was gone over.
pub fn is_done(place: Place) -> bool
    ensures { MatchBool result (place ≡ Done) (place ≡ Done → ⊥) }
{
    match place {
        Place::Before => false,
        Place::BeforeReturn => false,
        Place::Inside => false,
        Place::Start => false,
        Place::StartReturn => false,
        Place::Done => true,
    }
}

/// Whether only empty lines were gone over.
pub fn is_before(place: Place) -> bool
    ensures { MatchBool result (place ≡ Before) (place ≡ Before → ⊥) }
{
    match place {
        Place::Before => true,
        Place::BeforeReturn => false,
        Place::Inside => false,
        Place::Start => false,
        Place::StartReturn => false,
        Place::Done => false,
    }
}

/// The place of the byte after this one.
fn next_place(place: Place, byte: u8) -> Place
    ensures { result ≡ next_place place byte }
{
    match place {
        Place::Before => at_start(byte, Place::Before, Place::BeforeReturn),
        Place::BeforeReturn => within(byte, Place::Before),
        Place::Inside => within(byte, Place::Start),
        Place::Start => at_start(byte, Place::Done, Place::StartReturn),
        Place::StartReturn => within(byte, Place::Done),
        Place::Done => Place::Done,
    }
}

/// The place of the byte after this one, which begins a line.
fn at_start(byte: u8, end: Place, behind_return: Place) -> Place
    ensures { result ≡ at_start byte end behind_return }
{
    match byte {
        b'\n' => end,
        b'\r' => behind_return,
        _ => Place::Inside,
    }
}

/// The place of the byte after this one, which may end a line.
fn within(byte: u8, end: Place) -> Place
    ensures { result ≡ within byte end }
{
    if byte == b'\n' { end } else { Place::Inside }
}

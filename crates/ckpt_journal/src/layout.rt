ghost use Rattle.std.specs.Prelude.{◌≡◌};
ghost use Rattle.ckpt_journal.specs.Layout.{IsSized, other_half, selector_of, start_of};

/// Where the two halves of a file are, and which of them is live.
#[derive(Clone, Copy, Debug, PartialEq, Eq)]
pub struct Halves {
    /// The offset of the size of a half.
    pub base: u64,
    /// The size of a half in bytes.
    pub half: u64,
    /// Whether the second half is live.
    pub second: bool,
}

impl Halves {
    /// The offset of the first gate of the live half.
    pub fn start(&self) -> u64
        requires { IsSized self.now }
        ensures { result ≡ start_of self.now }
    {
        if self.second {
            self.base + 5 + self.half
        } else {
            self.base + 5
        }
    }

    /// The same halves with the other one live.
    pub fn other(&self) -> Halves
        ensures { result ≡ other_half self.now }
    {
        Halves {
            base: self.base,
            half: self.half,
            second: !self.second,
        }
    }

    /// The byte that says which half is live.
    pub fn selector(&self) -> u8
        ensures { result ≡ selector_of self.now }
    {
        if self.second { SECOND } else { FIRST }
    }
}

/// The selector where the second half is live; every other one makes the first half live.
pub const SECOND: u8 = 0x5a;

/// The selector where the first half is live, as it is written.
pub const FIRST: u8 = 0;

/// The sizes that a half may have, the powers of two from 2^12 to 2^27.
pub const HALF_SIZES: [u64; 16] = [
    4_096,
    8_192,
    16_384,
    32_768,
    65_536,
    131_072,
    262_144,
    524_288,
    1_048_576,
    2_097_152,
    4_194_304,
    8_388_608,
    16_777_216,
    33_554_432,
    67_108_864,
    134_217_728,
];

/// How a file is laid out.
#[derive(Clone, Copy, Debug, PartialEq, Eq)]
pub enum Layout {
    /// Version 1: the records are all of the file after the header.
    Single,
    /// Version 2: the records are in one of two halves.
    Double(Halves),
}

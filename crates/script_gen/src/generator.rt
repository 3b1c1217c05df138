ghost use Rattle.std.specs.Prelude.{◌≡◌};
ghost use Rattle.script_gen.specs.Generator.{drawn, next_number};

/// A linear congruential generator of 64 bits, with Knuth's constants for MMIX.
#[derive(Drop)]
pub struct Generator {
    /// The number that its draws have come to.
    pub number: u64,
}

impl Generator {
    /// The upper 31 bits of its next number.
    pub fn draw(&mut self) -> u64
        ensures number { self.new.number ≡ next_number self.old.number }
        ensures drawn { result ≡ drawn (next_number self.old.number) }
    {
        self.number = self
            .number
            .wrapping_mul(6364136223846793005)
            .wrapping_add(1442695040888963407);
        self.number / 0x2_0000_0000
    }
}

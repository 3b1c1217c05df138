ghost use Rattle.std.specs.Prelude.{◌≡◌};
ghost use Rattle.doc_split.specs.Limits.{the_limits};

/// The most bytes of a document, and of an input.
#[derive(Clone, Copy, Drop)]
pub struct Limits {
    pub document: usize,
    pub input: u64,
}

/// A document of at most 2 MiB, and an input of at most 1 GiB.
pub fn the_limits() -> Limits
    ensures { result ≡ the_limits }
{
    Limits {
        document: 2_097_152,
        input: 1_073_741_824,
    }
}

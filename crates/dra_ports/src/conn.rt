ghost use Rattle.std.specs.Prelude.{◌≡◌};

use crate::{Sink, Source};

/// A connection: a source and a sink in one object, with one count of errors.
///
/// So a read changes nothing that was written, a write nothing that is left to read, and an error of
/// either is counted by both.
pub trait Conn: Source + Sink {
    /// What a read leaves unchanged is what was written.
    ghost sent_is_written: { (c : Self) → Self.sent c ≡ Self.written c };

    /// What a write leaves unchanged is what is left to read.
    ghost waiting_is_left: { (c : Self) → Self.waiting c ≡ Self.left c };

    /// The errors of reads and of writes are counted together.
    ghost one_count: { (c : Self) → Self.Source.faults c ≡ Self.Sink.faults c };
}

ghost use Rattle.std.specs.Prelude.{◌≡◌, ℕ, ◌+◌, ◌≤◌, length, take, drop, IfOk, OnOk, OnErr, IfSome, IsErrOf, Option};
ghost use Rattle.std.specs.Option.{option_map};
ghost use Rattle.dra_ports.specs.Causes.{HasCause};
ghost use Rattle.dra_ports.specs.DiskContent.{Content, Partly, blurred, shortened, shorter, synced, written};
ghost use Rattle.dra_ports.specs.declared.error.PortError.TheVariants.{Memory};

use crate::PortError;

/// A file of bytes that outlives a crash of the machine.
///
/// Between two syncs, each range that was written and everything past the old end may hold any
/// bytes after a crash; the other bytes are unchanged. The old end is the least length since the last sync
/// that returned `Ok`, and what a crash leaves ends there or later. After a sync that returned `Ok`
/// a crash leaves what a read returns, provided that the disk is honest. What a read returns is always
/// among what a crash may leave.
///
/// A call returns `Failed` only if the count of errors rose in it, or is at its maximum, and never
/// `Memory`: a disk that gets no memory to grow counts that as an error. With `Ok` the count is
/// unchanged.
///
/// A range that is read lies within the length, a write begins at most at the length, and a cut goes
/// to at most the length. A disk that does not expose its content returns `Failed` if a call breaks
/// this.
pub trait Disk {
    /// What the disk holds and what a crash may leave of it, if the disk exposes that.
    ghost content: { Self → Option Content };

    /// How often it has failed. This never falls, and stays at 2^64-1 once it is there.
    ghost faults: { Self → ℕ };

    /// The number of bytes that can be read. With any result the content is unchanged.
    fn len(&mut self) -> Result<u64, PortError>
        ensures value { IfOk result (λ n. IfSome (content self.old) (λ c. n ≡ length c.bytes)) }
        ensures same { content self.new ≡ content self.old }
        ensures cause { HasCause (faults self.old) (faults self.new) result }
        ensures no_memory { IsErrOf result Memory → ⊥ };

    /// Fills the slice with the bytes from the offset `at` on. With any result the content is
    /// unchanged; after `Failed` the slice may hold anything.
    fn read_at(&mut self, at: u64, into: &mut [u8]) -> Result<(), PortError>
        requires { IfSome (content self.old) (λ c. at + length into.old ≤ length c.bytes) }
        ensures value { OnOk result (IfSome (content self.old) (λ c. into.new ≡ take (length into.old) (drop at c.bytes))) }
        ensures same { content self.new ≡ content self.old }
        ensures cause { HasCause (faults self.old) (faults self.new) result }
        ensures no_memory { IsErrOf result Memory → ⊥ };

    /// Writes the bytes from the offset `at` on, over what is there and past the end. After `Failed`
    /// nothing was done, or some of it: then a read returns one of the byte lists that a crash may leave.
    fn write_at(&mut self, at: u64, from: &[u8]) -> Result<(), PortError>
        requires { IfSome (content self.old) (λ c. at ≤ length c.bytes) }
        ensures ok { OnOk result (content self.new ≡ option_map (written at from.now) (content self.old)) }
        ensures err { OnErr result (Partly (blurred at (length from.now)) (content self.old) (content self.new)) }
        ensures cause { HasCause (faults self.old) (faults self.new) result }
        ensures no_memory { IsErrOf result Memory → ⊥ };

    /// Cuts the file to the length `len`. After `Failed` nothing was done, or some of it.
    fn cut(&mut self, len: u64) -> Result<(), PortError>
        requires { IfSome (content self.old) (λ c. len ≤ length c.bytes) }
        ensures ok { OnOk result (content self.new ≡ option_map (shortened len) (content self.old)) }
        ensures err { OnErr result (Partly (shorter len) (content self.old) (content self.new)) }
        ensures cause { HasCause (faults self.old) (faults self.new) result }
        ensures no_memory { IsErrOf result Memory → ⊥ };

    /// Makes all that was written stable: once it has returned `Ok`, a crash leaves what a read
    /// returns, provided that the disk is honest. After `Failed` the content is unchanged, and a crash
    /// may leave what it might have left before.
    fn sync(&mut self) -> Result<(), PortError>
        ensures ok { OnOk result (content self.new ≡ option_map synced (content self.old)) }
        ensures err { OnErr result (content self.new ≡ content self.old) }
        ensures cause { HasCause (faults self.old) (faults self.new) result }
        ensures no_memory { IsErrOf result Memory → ⊥ };
}

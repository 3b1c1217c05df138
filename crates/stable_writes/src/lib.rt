//! Changes of a disk that are made one after another, each of them stable before the next begins.
#![tactic(auto)]

ghost use Rattle.std.specs.Prelude.{◌≡◌, ◌+◌, ◌≤◌, [], ◌∷◌, ℕ, IfSome, IsErrOf, OnErr, OnOk, length};
ghost use Rattle.std.specs.Option.{option_map};
ghost use Rattle.dra_ports.specs.Causes.{HasCause};
ghost use Rattle.dra_ports.specs.declared.error.PortError.TheVariants.{Memory};
ghost use Rattle.stable_writes.specs.Steps.{Cut, Put, StepFailed, StoppedIn, all_done, done};

use dra_ports::{Disk, PortError};

/// Writes bytes from the offset `at` on, and makes them stable.
pub fn put<D: Disk>(disk: &mut D, at: u64, bytes: &[u8]) -> Result<(), PortError>
    requires { IfSome (D.content disk.old) (λ c. at ≤ length c.bytes) }
    ensures ok { OnOk result (D.content disk.new ≡ option_map (done (Put at bytes.now)) (D.content disk.old)) }
    ensures err { OnErr result (StepFailed (Put at bytes.now) (D.content disk.old) (D.content disk.new)) }
    ensures long { (n : ℕ) → IfSome (D.content disk.old) (λ c. n ≤ length c.bytes) → OnOk result (IfSome (D.content disk.new) (λ c. n ≤ length c.bytes)) }
    ensures reach { OnOk result (IfSome (D.content disk.new) (λ c. at + length bytes.now ≤ length c.bytes)) }
    ensures cause { HasCause (D.faults disk.old) (D.faults disk.new) result }
    ensures no_memory { IsErrOf result Memory → ⊥ }
{
    disk.write_at(at, bytes)?;
    disk.sync()?;
    Ok(())
}

/// Writes bytes from the offset `at` on, and then others from the offset `then_at` on. The first are stable before the
/// others are written, and these in the end.
pub fn put_both<D: Disk>(
    disk: &mut D,
    at: u64,
    bytes: &[u8],
    then_at: u64,
    then_bytes: &[u8],
) -> Result<(), PortError>
    requires first { IfSome (D.content disk.old) (λ c. at ≤ length c.bytes) }
    requires second { IfSome (D.content disk.old) (λ c. then_at ≤ length c.bytes) }
    ensures ok { OnOk result (D.content disk.new ≡ option_map (all_done (Put at bytes.now ∷ Put then_at then_bytes.now ∷ [])) (D.content disk.old)) }
    ensures err { OnErr result (StoppedIn (Put at bytes.now ∷ Put then_at then_bytes.now ∷ []) (D.content disk.old) (D.content disk.new)) }
    ensures reach { OnOk result (IfSome (D.content disk.new) (λ c. at + length bytes.now ≤ length c.bytes)) }
    ensures cause { HasCause (D.faults disk.old) (D.faults disk.new) result }
    ensures no_memory { IsErrOf result Memory → ⊥ }
{
    put(disk, at, bytes)?;
    put(disk, then_at, then_bytes)?;
    Ok(())
}

/// Cuts the disk to the length `len`, and makes that stable.
pub fn cut_to<D: Disk>(disk: &mut D, len: u64) -> Result<(), PortError>
    requires { IfSome (D.content disk.old) (λ c. len ≤ length c.bytes) }
    ensures ok { OnOk result (D.content disk.new ≡ option_map (done (Cut len)) (D.content disk.old)) }
    ensures err { OnErr result (StepFailed (Cut len) (D.content disk.old) (D.content disk.new)) }
    ensures long { OnOk result (IfSome (D.content disk.new) (λ c. len ≤ length c.bytes)) }
    ensures cause { HasCause (D.faults disk.old) (D.faults disk.new) result }
    ensures no_memory { IsErrOf result Memory → ⊥ }
{
    disk.cut(len)?;
    disk.sync()?;
    Ok(())
}

ghost use Rattle.std.specs.Prelude.{◌≡◌, ◌+◌, ◌<◌, ◌≤◌, ◌^◌, IfSome, IsErrOf, OnErr, OnOk, length};
ghost use Rattle.std.specs.Option.{option_map};
ghost use Rattle.dra_ports.specs.Causes.{HasCause};
ghost use Rattle.dra_ports.specs.declared.error.PortError.TheVariants.{Memory};
ghost use Rattle.ckpt_journal.specs.Layout.{IsSized, other_half, start_of};
ghost use Rattle.ckpt_journal.specs.Plan.{append_steps, move_steps, switch_steps};
ghost use Rattle.ckpt_journal.specs.Steps.{StoppedIn, all_done};

use crate::layout::Halves;
use crate::spelling::OPEN;
use dra_ports::{Disk, PortError};
use stable_writes::{cut_to, put, put_both};

/// Adds a record's bytes and the next gate after the closed gate at the offset `gate`, and then opens that
/// gate. Each of the two is stable before the next.
pub fn append_at<D: Disk>(disk: &mut D, gate: u64, bytes: &[u8]) -> Result<(), PortError>
    requires within { IfSome (D.content disk.old) (λ c. gate + 1 ≤ length c.bytes) }
    requires room { gate + 1 < 2 ^ 64 }
    ensures ok { OnOk result (D.content disk.new ≡ option_map (all_done (append_steps gate bytes.now)) (D.content disk.old)) }
    ensures err { OnErr result (StoppedIn (append_steps gate bytes.now) (D.content disk.old) (D.content disk.new)) }
    ensures cause { HasCause (D.faults disk.old) (D.faults disk.new) result }
    ensures no_memory { IsErrOf result Memory → ⊥ }
{
    put_both(disk, gate + 1, bytes, gate, &[OPEN])
}

/// Writes a compacted table to the half that isn't live, and then makes that half live. Each of the two is
/// stable before the next.
pub fn switch_half<D: Disk>(disk: &mut D, halves: Halves, table: &[u8]) -> Result<(), PortError>
    requires sized { IsSized halves }
    requires within { IfSome (D.content disk.old) (λ c. halves.base + halves.half + 6 ≤ length c.bytes) }
    ensures ok { OnOk result (D.content disk.new ≡ option_map (all_done (switch_steps halves table.now)) (D.content disk.old)) }
    ensures err { OnErr result (StoppedIn (switch_steps halves table.now) (D.content disk.old) (D.content disk.new)) }
    ensures reach { OnOk result (IfSome (D.content disk.new) (λ c. start_of (other_half halves) + length table.now ≤ length c.bytes)) }
    ensures cause { HasCause (D.faults disk.old) (D.faults disk.new) result }
    ensures no_memory { IsErrOf result Memory → ⊥ }
{
    let other = halves.other();
    let selector = other.selector();
    put_both(disk, other.start(), table, halves.base + 4, &[selector])
}

/// Moves a file of version 1 over: cuts it after its closed gate, at `base`, writes the halves from there on,
/// then the base, and then the version. Each of the four is stable before the next.
pub fn move_to<D: Disk>(disk: &mut D, base: u64, halves: &[u8]) -> Result<(), PortError>
    requires within { IfSome (D.content disk.old) (λ c. base ≤ length c.bytes) }
    requires least { 16 ≤ base }
    requires small { base < 2 ^ 32 }
    ensures ok { OnOk result (D.content disk.new ≡ option_map (all_done (move_steps base halves.now)) (D.content disk.old)) }
    ensures err { OnErr result (StoppedIn (move_steps base halves.now) (D.content disk.old) (D.content disk.new)) }
    ensures cause { HasCause (D.faults disk.old) (D.faults disk.new) result }
    ensures no_memory { IsErrOf result Memory → ⊥ }
{
    cut_to(disk, base)?;
    put(disk, base, halves)?;
    put(disk, 12, &(base as u32).to_be_bytes())?;
    put(disk, 11, &[2])?;
    Ok(())
}

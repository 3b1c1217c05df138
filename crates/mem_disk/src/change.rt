ghost use Rattle.std.specs.Prelude.{◌≡◌, ◌+◌, ◌≤◌, ◌++◌, OnErr, OnOk, drop, length, take};
ghost use Rattle.dra_ports.specs.DiskContent.{spliced};
ghost use Rattle.mem_disk.specs.Stages.{changed};

use std::alloc::AllocError;

/// What a call changed.
#[derive(Drop)]
pub enum Change {
    /// These bytes were written from this offset on.
    Write(usize, Vec<u8>),
    /// The bytes were cut to this length.
    Cut(usize),
    /// All bytes became sure.
    Sync,
}

impl Change {
    /// Does this change to the bytes that a read returns.
    pub fn apply(&self, bytes: &mut Vec<u8>) -> Result<(), AllocError>
        ensures ok { OnOk result (bytes.new.items ≡ changed self.now bytes.old.items) }
        ensures err { OnErr result (bytes.new.items ≡ bytes.old.items) }
    {
        match self {
            Change::Write(at, from) => splice(bytes, *at, from),
            Change::Cut(len) => {
                bytes.truncate(*len);
                Ok(())
            }
            Change::Sync => Ok(()),
        }
    }
}

/// Writes bytes over those from the offset `start` on.
fn overwrite(bytes: &mut [u8], start: usize, from: &[u8])
    requires { start + length from.now ≤ length bytes.old }
    ensures { bytes.new ≡ take start bytes.old ++ from.now ++ drop (start + length from.now) bytes.old }
{
    bytes[start..start + from.len()].copy_from_slice(from);
}

/// Writes bytes from the offset `at` on, over what is there and past the end.
fn splice(bytes: &mut Vec<u8>, at: usize, from: &[u8]) -> Result<(), AllocError>
    ensures ok { OnOk result (bytes.new.items ≡ spliced at from.now bytes.old.items) }
    ensures err { OnErr result (bytes.new.items ≡ bytes.old.items) }
{
    let start = at.min(bytes.len());
    let (over, more) = from.split_at(from.len().min(bytes.len() - start));
    bytes.extend_from_slice(more)?;
    overwrite(bytes, start, over);
    Ok(())
}

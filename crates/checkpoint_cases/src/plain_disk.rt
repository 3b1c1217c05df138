ghost use Rattle.std.specs.Prelude.{◌≡◌, ◌≤◌};
ghost use Rattle.dra_ports.specs.Causes.{Rose};

use dra_ports::{Disk, PortError};

/// Bytes in memory that nothing is known of, as of those of a real file.
#[derive(Drop)]
pub struct PlainDisk {
    bytes: Vec<u8>,
    faults: u64,
}

impl PlainDisk {
    /// A disk with these bytes.
    pub fn new(bytes: Vec<u8>) -> PlainDisk {
        PlainDisk { bytes, faults: 0 }
    }

    /// What a read returns.
    pub fn bytes(&self) -> &[u8] {
        &self.bytes
    }

    fn fault(&mut self) -> PortError
        ensures rose { Rose self.old.faults self.new.faults }
        ensures later { self.old.faults ≤ self.new.faults }
        ensures failed { result ≡ PortError.Failed }
    {
        self.faults = self.faults.saturating_add(1);
        PortError::Failed
    }
}

impl Disk for PlainDisk {
    ghost use Rattle.std.specs.Prelude.{None};

    ghost content = { λ d. None };

    ghost faults = { λ d. d.faults };

    fn len(&mut self) -> Result<u64, PortError> {
        Ok(self.bytes.len() as u64)
    }

    fn read_at(&mut self, at: u64, into: &mut [u8]) -> Result<(), PortError> {
        let len = self.bytes.len() as u64;
        if len < at || len - at < into.len() as u64 {
            return Err(self.fault());
        }
        let rest = &self.bytes[at as usize..];
        into.copy_from_slice(&rest[..into.len()]);
        Ok(())
    }

    fn write_at(&mut self, at: u64, from: &[u8]) -> Result<(), PortError> {
        let len = self.bytes.len();
        if (len as u64) < at {
            return Err(self.fault());
        }
        let at = at as usize;
        if from.len() <= len - at {
            self.bytes[at..at + from.len()].copy_from_slice(from);
            return Ok(());
        }
        self.bytes.truncate(at);
        match self.bytes.extend_from_slice(from) {
            Ok(()) => Ok(()),
            Err(_) => Err(self.fault()),
        }
    }

    fn cut(&mut self, len: u64) -> Result<(), PortError> {
        if (self.bytes.len() as u64) < len {
            return Err(self.fault());
        }
        self.bytes.truncate(len as usize);
        Ok(())
    }

    fn sync(&mut self) -> Result<(), PortError> {
        Ok(())
    }
}

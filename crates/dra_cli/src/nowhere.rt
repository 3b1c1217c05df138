use dra_ports::{Disk, PortError};
use prepare_core::{ClaimForNode, Driver};

/// A disk that doesn't expose what it holds, and does nothing. A script without commands of the kubelet never
/// touches it.
#[derive(Drop)]
pub struct NoDisk;

impl Disk for NoDisk {
    ghost use Rattle.std.specs.Prelude.{None};

    ghost content = { λ d. None };

    ghost faults = { λ d. 0 };

    fn len(&mut self) -> Result<u64, PortError> {
        Ok(0)
    }

    fn read_at(&mut self, _at: u64, _into: &mut [u8]) -> Result<(), PortError> {
        Ok(())
    }

    fn write_at(&mut self, _at: u64, _from: &[u8]) -> Result<(), PortError> {
        Ok(())
    }

    fn cut(&mut self, _len: u64) -> Result<(), PortError> {
        Ok(())
    }

    fn sync(&mut self) -> Result<(), PortError> {
        Ok(())
    }
}

/// A driver that doesn't expose its calls, and does nothing.
#[derive(Drop)]
pub struct NoDriver;

impl Driver for NoDriver {
    ghost use Rattle.std.specs.Prelude.{None};

    ghost calls = { λ d. None };

    ghost faults = { λ d. 0 };

    fn prepare(&mut self, _claim: &ClaimForNode) -> Result<(), PortError> {
        Ok(())
    }

    fn unprepare(&mut self, _claim: &ClaimForNode) -> Result<(), PortError> {
        Ok(())
    }
}

ghost use Rattle.std.specs.Prelude.{◌≡◌, ◌≤◌, IsErrOf, IsOk, OnOk};
ghost use Rattle.dra_ports.specs.Causes.{HasCause, Rose};
ghost use Rattle.dra_ports.specs.declared.error.PortError.TheVariants.{Memory};

use dra_ports::{Disk, PortError};
use std::fs::{File, OpenOptions};
use std::io;
use std::os::unix::fs::FileExt;

/// The file of the kubelet's checkpoint, in the current folder.
const PATH: &str = "checkpoint.dra";

/// The file `checkpoint.dra` in the current folder, which is opened at the first call and made if it isn't there, and how
/// often it has failed. It doesn't expose what it holds.
#[derive(Drop)]
pub struct FileDisk<'a> {
    files: &'a HostRuntime,
    file: Option<File>,
    faults: u64,
}

impl<'a> FileDisk<'a> {
    /// The file, which isn't opened yet, with no error so far.
    pub fn new(files: &'a HostRuntime) -> FileDisk<'a>
        ensures { result.faults ≡ 0 }
    {
        FileDisk {
            files,
            file: None,
            faults: 0,
        }
    }

    /// Counts an error.
    fn fault(&mut self) -> PortError
        ensures rose { Rose self.old.faults self.new.faults }
        ensures later { self.old.faults ≤ self.new.faults }
        ensures failed { result ≡ PortError.Failed }
    {
        self.faults = self.faults.saturating_add(1);
        PortError::Failed
    }

    /// Counts the error of a call, if it failed.
    fn counted<T: Drop>(&mut self, answer: io::Result<T>) -> Result<T, PortError>
        ensures cause { HasCause self.old.faults self.new.faults result }
        ensures no_memory { IsErrOf result Memory → ⊥ }
    {
        match answer {
            Ok(value) => Ok(value),
            Err(_) => Err(self.fault()),
        }
    }

    /// Opens the file, if it isn't open.
    fn open(&mut self) -> Result<(), PortError>
        ensures cause { HasCause self.old.faults self.new.faults result }
        ensures no_memory { IsErrOf result Memory → ⊥ }
    {
        if self.file.is_some() {
            return Ok(());
        }
        let opened = OpenOptions::new()
            .read(true)
            .write(true)
            .create(true)
            .open(self.files, PATH);
        match opened {
            Ok(file) => {
                self.file = Some(file);
                Ok(())
            }
            Err(_) => Err(self.fault()),
        }
    }
}

impl<'a> Disk for FileDisk<'a> {
    ghost use Rattle.std.specs.Prelude.{None};

    ghost content = { λ d. None };

    ghost faults = { λ d. d.faults };

    fn len(&mut self) -> Result<u64, PortError> {
        match self.open() {
            Ok(()) => {}
            Err(error) => return Err(error),
        }
        let Some(file) = &self.file else {
            return Err(self.fault());
        };
        match file.metadata() {
            Ok(found) => Ok(found.len()),
            Err(_) => Err(self.fault()),
        }
    }

    fn read_at(&mut self, at: u64, into: &mut [u8]) -> Result<(), PortError> {
        match self.open() {
            Ok(()) => {}
            Err(error) => return Err(error),
        }
        let Some(file) = &self.file else {
            return Err(self.fault());
        };
        let answer = file.read_exact_at(into, at);
        self.counted(answer)
    }

    fn write_at(&mut self, at: u64, from: &[u8]) -> Result<(), PortError> {
        match self.len() {
            Ok(len) if at <= len => {}
            Ok(_) => return Err(self.fault()),
            Err(error) => return Err(error),
        }
        let Some(file) = &self.file else {
            return Err(self.fault());
        };
        let answer = file.write_all_at(from, at);
        self.counted(answer)
    }

    fn cut(&mut self, len: u64) -> Result<(), PortError> {
        match self.len() {
            Ok(now) if len <= now => {}
            Ok(_) => return Err(self.fault()),
            Err(error) => return Err(error),
        }
        let Some(file) = &self.file else {
            return Err(self.fault());
        };
        let answer = file.set_len(len);
        self.counted(answer)
    }

    fn sync(&mut self) -> Result<(), PortError> {
        match self.open() {
            Ok(()) => {}
            Err(error) => return Err(error),
        }
        let Some(file) = &self.file else {
            return Err(self.fault());
        };
        let answer = file.sync_all();
        self.counted(answer)
    }
}

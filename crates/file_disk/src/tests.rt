use crate::FileDisk;
use dra_ports::{Disk, PortError};
use std::fs;
use std::test::*;

/// The file is made at the first call and outlives the disk that wrote it. A write past its end, and a read past it, are
/// errors, and the next call is as before.
#[test]
fn the_file_keeps_what_was_written(rt: HostRuntime) -> Result<(), Fail> {
    let path = "checkpoint.dra";
    let _ = fs::remove_file(&rt, path);
    let mut first = FileDisk::new(&rt);
    assert!(rt; first.len()? == 0);
    first.write_at(0, b"kubelet")?;
    first.write_at(2, b"bb")?;
    first.sync()?;
    let mut second = FileDisk::new(&rt);
    assert!(rt; second.len()? == 7);
    second.cut(5)?;
    let mut bytes = [0; 3];
    second.read_at(2, &mut bytes)?;
    assert!(rt; bytes == *b"bbl");
    assert!(rt; second.read_at(3, &mut bytes) == Err(PortError::Failed));
    assert!(rt; second.write_at(6, b"x") == Err(PortError::Failed));
    assert!(rt; second.cut(6) == Err(PortError::Failed));
    assert!(rt; first.len()? == 5);
    fs::remove_file(&rt, path)?;
    Ok(())
}

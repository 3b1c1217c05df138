//! The file of the kubelet's checkpoint, as a disk.
#![tactic(auto)]

mod disk;
#[cfg(test)]
mod tests;

pub use disk::FileDisk;

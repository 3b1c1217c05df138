//! A disk in memory, which keeps what a crash may leave at each moment and exposes it.
#![tactic(auto)]

mod change;
mod disk;
mod history;
mod image;

pub use disk::MemDisk;

//! A list of records on a disk, of which a crash at any moment loses none that was stored. Each record is stored behind
//! a gate that is shut, and is on the disk before its gate is opened. Every write goes through one function, which
//! writes and syncs.
#![tactic(auto)]

mod disk;
mod journal;
mod look;
mod making;
mod put;
mod reading;

pub use disk::memory::MemDisk;
pub use disk::real::RealDisk;
pub use disk::{Did, Disk, Filled, Size};
pub use journal::{AppendFault, Journal, MAX_PIECE, one_list};
pub use reading::{Next, NextFault, OpenFault, Reading};

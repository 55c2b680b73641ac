//! A shelf of disks in memory, by the names of their units.
//!
//! - Promises: `MemShelf` hands out each disk as it stands, but for the count of faults, which begins
//!   anew; a name that it hasn't yet is that of a new, empty disk. It refuses a disk that is out, and
//!   never else but for want of memory. It takes back every disk, and counts those that had failed.
//! - Doesn't say: that a disk comes back, or that it is the one that went out.
//! - A caller: the tests of `wf_rows` and `wf_file_tests`. No command keeps its shelf in memory.
//! - A change of what a shelf is begins at the trait `wf_disk::DiskShelf`.
#![tactic(auto)]

mod place;
mod shelf;

pub use shelf::MemShelf;

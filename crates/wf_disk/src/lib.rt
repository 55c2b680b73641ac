//! A disk by what it tells: its bytes, what a crash may leave of them, its writes and syncs, and
//! its failures. And a disk in memory, which stops and fails where it is armed to.
//!
//! - Promises: `MemDisk` fails at the stroke it is armed for, while it has stopped, and never else.
//!   What its `crash` and `revive` leave is one of the images that a crash may leave.
//! - Doesn't say: that a real file does what the trait `Disk` asks.
//! - A caller: `wf_journal::Journal::append` writes and syncs through `Disk`.
//! - A change of what a crash may do begins in `specs/Disk.antt`.
#![tactic(auto)]

mod arm;
mod disk;
mod entry;
mod image;
mod leaving;
mod memory;
mod record;
mod shelf;

pub use arm::{Arm, Outcome};
pub use disk::{Disk, WriteRefused};
pub use memory::MemDisk;
pub use shelf::{DiskShelf, TakeRefused};

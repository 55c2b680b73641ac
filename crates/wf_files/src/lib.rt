//! Disks over files of the system, and the folder in which they lie.
//!
//! - Promises: `FileDisk` counts each stroke and each failure, makes a call again that a signal cut
//!   short, and goes on after a piece until all is written or read, each piece at its place. `DirShelf`
//!   hands out no disk twice at once, and none of a name that may not stand in a chart.
//! - Doesn't say: what a file of the system holds, before or after a crash.
//! - A caller: `main` of the crate `mentor`, for the command `trail`.
//! - A change of what is asked of a file begins at the trait `ByteFile`.
#![tactic(auto)]

mod disk;
mod file;
mod folder;
mod open;
mod whole;

pub use disk::FileDisk;
pub use file::ByteFile;
pub use folder::DirShelf;

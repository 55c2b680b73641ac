//! Tests: shelves of disks in memory and in a folder, and disks over files of the system.
//!
//! - Tries: what a disk holds when it comes back; which files are made, opened and refused; a read past
//!   the end.
//! - Promises: nothing. No crate depends on it.
//! - A caller: the gate runs its tests.
//! - A change begins here if a file is to be opened or refused in another way.
#![tactic(auto)]

#[cfg(test)]
mod files;
#[cfg(test)]
mod folders;
#[cfg(test)]
mod memory;
#[cfg(test)]
mod shelves;

//! A journal of bodies on a disk. A frame is a gate byte, a length of four bytes and the body;
//! after the last frame stands a gate that isn't open. A body is written behind the closed gate and
//! synced, and only then is the gate opened.
//!
//! - Promises: on a disk that tells its bytes, the bodies are those that were appended, in order. A
//!   crash during an append leaves the bodies before it, or those and the new one. After `Ok` a
//!   crash leaves the file as it is. After a failed disk call each later append is refused.
//! - Doesn't say: which of the two a crash leaves; that the disk finds memory.
//! - A caller: `wf_disk_tests` starts one on a `MemDisk`, appends, crashes the disk and starts
//!   again.
//! - A change of the file's form begins in `specs/Frames.antt`.
#![tactic(auto)]

mod append;
mod fault;
mod frame;
mod journal;
mod laws;
mod steps;

pub use fault::{AppendFault, ReadFault, StartFault};
pub use journal::{Journal, JournalRefused};
pub use laws::{bytes_are_numbers, frames_are_read, journals_are_frames, reads_begin};

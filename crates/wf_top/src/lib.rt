//! The whole of a run is one call over values: `mentor` takes the words, a source, a sink, a clock
//! and a shelf of disks.
//!
//! - Promises: at status `Ok` the source was read to its end, and what was written is the text that
//!   the definitions give for these bytes; for `gen N` and `bulk N` nothing was read, and it is the
//!   text for N. Of a play's doubts each may turn out either way, and the text is that of one
//!   choice. Each refusal has the status and the line that the definitions give. A fault of reading,
//!   of writing or of a disk is reported only if the source, the sink or the shelf counted one. Each
//!   disk has the image that it had, and a crash leaves of it the bodies of what a crash before may
//!   have left. A run that isn't `trail` leaves the shelf as it was.
//! - Doesn't say: that a run ever ends with `Ok`, since memory may always run out.
//! - A caller: `main` of the crate `mentor`.
//! - A new command begins here: its word in `specs/Answers.antt`, and what it may answer. One that
//!   takes disks is a task (`specs/Tasks.antt`).
#![tactic(auto)]

mod answer;
mod bulk;
mod central;
mod charts;
mod command;
mod exit;
mod laws;
mod play;
mod split;
mod summary;
mod task;
mod top;
mod trail;

pub use exit::exit_number;
pub use laws::{ends_show_outcomes, have_one_answer, unarmed_plays_have_one_answer};
pub use top::mentor;

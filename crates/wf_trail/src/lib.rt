//! The trail: what the journals of a chart's units hold, written out a line for each record.
//!
//! - Promises: `trail` answers the text that the definitions give for the images of the units'
//!   disks, or the first thing that is wrong with them. Each disk that it takes it gives back, with
//!   its image as it was, whatever it answers, and a crash leaves the bodies of what a crash before
//!   might have left. `DiskFailed` comes only if the shelf's count of faults rose.
//! - Doesn't say: that the histories of different units agree, or that memory is found.
//! - A caller: `wf_top`, for the command `trail`.
//! - A change of a record's line begins in `specs/Lines.antt`, one of what is wrong with an image
//!   in `specs/Images.antt`.
#![tactic(auto)]

mod fault;
mod lines;
mod reading;
mod refusal;
mod shelf;
mod text;

pub use fault::TrailFault;
pub use refusal::{fault_line, status_of};
pub use shelf::trail;

//! Rings by which servers, clients and workers hand things to each other. No thread waits for
//! another: a push into a full ring hands the item back, and a pop of an empty one answers `None`.
//!
//! - Promises: what came out of a ring is a prefix of what went in, in order. Who holds both ends
//!   takes all out, and `None` then says that the ring is empty.
//! - Doesn't say: when a thread learns of what another one did.
//! - A caller: none; `ports` makes a port for each unit, with a ring to each unit.
//! - A change begins here if a ring is to hold more, or something else.
#![tactic(auto)]

mod end;
mod lines;
mod making;
mod port;
mod ring;

pub use end::{End, Mouth};
pub use lines::{LineEnd, LineItem, LineMouth, line_ring, settle_line};
pub use making::ports;
pub use port::{Port, settle};

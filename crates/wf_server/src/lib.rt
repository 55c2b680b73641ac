//! The server of one unit over its journal. It admits outers, receives its peers' updates, takes
//! steps and sends its own updates.
//!
//! - Promises: a `Node` is seen as its journal, its part and its history, and all that it shows is a
//!   function of part and history. A crash at any disk call leaves the history before the call, or
//!   the one with its record. What was answered as admitted or taken stays.
//! - Doesn't say: that memory suffices, or that updates come.
//! - A caller starts a node of its part on its disk, gives it the letters of its peers by
//!   `receive`, and calls `turn` until it answers `Waiting`.
//! - A change of an answer begins in `specs/Answers.antt` or `specs/Receiving.antt`.
#![tactic(auto)]

mod fault;
mod laws;
mod node;

pub use fault::{AdmitFault, Admitted, NodeFault, ReceiveFault, Received, Turn, TurnFault};
pub use laws::letters_stay;
pub use node::{Node, StartRefused};

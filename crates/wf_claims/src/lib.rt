//! Numbers that threads draw, each once, so that no item of a list goes to two workers.
//!
//! - Promises: once all seats of a `Claims` are back, `end` tells how many numbers were drawn: the
//!   seats drew the numbers below that, each once.
//! - Doesn't say: which seat draws which number.
//! - A caller: none; a round makes a `Claims` over a list, hands each worker a seat, and ends it
//!   when all seats are back.
//! - A change begins here if a number may be drawn again.
#![tactic(auto)]

mod claims;
mod rule;

pub use claims::{ClaimSeat, Claims};

//! Sets of small numbers as words of 64 bits, and which of the enabled transitions fire, by masks.
//!
//! - Promises: `Bits` is a set of numbers below 64 * W, for each W from 1 to 64, and takes no memory.
//!   `fires` answers the transitions that are enabled and of whose blockers none is.
//! - Doesn't say: what the numbers are those of, and how long a call takes.
//! - A caller: `own_step` of `wf_flat` asks `fires` which of a part's transitions fire, by rows that
//!   a `Part` keeps.
//! - A change begins in `Masks`, which says when a number is in.
#![tactic(auto)]

mod firing;
mod masks;

pub use firing::fires;
pub use masks::Bits;

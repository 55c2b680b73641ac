//! What a host's run comes to, by what passed between its units, what they were asked, and what they
//! answered.
//!
//! - Promises: each public function is a law and has nothing to do. If histories agree, and each
//!   goes on by Turns that take in what came of its peers, and what came of a peer is the first of
//!   what that peer has made by now, then the histories agree still. An answer at a desk is right by
//!   the history before the run too: what was there before is told as such, and what is new was
//!   free.
//! - Doesn't say: that any program goes on or answers so.
//! - A caller: none; no crate depends on it.
//! - A change of what passes between units begins in `specs/Together.antt`, one of what is told in
//!   `specs/Told.antt`.
#![tactic(auto)]

mod laws;

pub use laws::{answers_are_told, histories_still_agree, made_is_distinct};

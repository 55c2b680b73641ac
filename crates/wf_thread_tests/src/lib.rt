//! What threads share, called by one thread: numbers that are drawn, a ring from a client, and the
//! board of who did an item.
//!
//! - Each public call is made once, with all the memory that it wants, since no command makes one.
//! - Promises: nothing; it has tests alone.
//! - Doesn't say: what several threads do; the contracts do.
//! - A caller: none.
//! - A change begins here if a call of `wf_claims`, `wf_exchange` or `wf_worklist` changes.
#![tactic(auto)]

#[cfg(test)]
mod boards;
#[cfg(test)]
mod claims;
#[cfg(test)]
mod rings;

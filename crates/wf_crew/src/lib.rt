//! Clients and workers of a host, each at work in a round.
//!
//! - Promises: a client puts its lines into the ring to its unit in order, none twice and none left
//!   out, as long as the ring has room. A worker draws at most one place of its list in a round, and
//!   hands over the completion of just the item there; what the ring has no room for waits.
//! - Doesn't say: that the unit lets any of it in, nor which worker draws which place.
//! - A caller: none; no thread runs yet.
//! - A change begins here if a client is to choose its unit, or a worker its item.
#![tactic(auto)]

mod client;
mod worker;

pub use client::ClientActor;
pub use worker::{WorkList, WorkerActor};

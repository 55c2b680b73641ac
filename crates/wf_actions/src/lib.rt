//! What the units do in a step, put together: their writes, raised events and starts, however the
//! step was cut among them.
//!
//! - Promises: of the writes to one variable that of the greatest transition stays, and of one
//!   transition the last. Raised events ascend, each once; starts go by transition and place. Laws
//!   say that what the fired transitions do, put together so, are the effects of the step.
//! - Doesn't say: that the lists which it is given are those of a step.
//! - A caller: `wf_updates` asks which of two writes stays. No command calls the others; the
//!   definition of which write stays is cited by the views of `wf_views`.
//! - A change of which write wins begins here, and in `specs/Effects.antt` of `wf_semantics`.
#![tactic(auto)]

mod events;
mod joined;
mod laws;
mod order;
mod writes;

pub use events::raised;
pub use laws::{
    cuts_do_not_matter, merged_reads, shares_give_raised, shares_give_starts, shares_give_store,
    union_is_one, winner_goes_by_rule,
};
pub use order::starts;
pub use writes::{merge_writes, winning_write};

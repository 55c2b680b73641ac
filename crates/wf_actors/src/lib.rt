//! What the threads of a host do with a server: how it takes in what its peers send, how it answers
//! those at its desks, how it takes its steps and sends its updates, how it goes on from the history
//! that its disk had, and how all units hand to each other what is left after a round.
//!
//! - Promises: if a peer's updates come in order, each that `take_in_all` pops or `hand_over` brings
//!   is taken in, and none is refused; and each Turn keeps of each peer the update of its step that
//!   came. After `hand_over_all` all that each unit pushed and all that waited has come. `answer_all`
//!   answers each item that it takes from a desk, in order, and each new admission was asked for by
//!   one of them; `settle_desk` answers all that was put in. The history goes on from the one that
//!   the disk had as it was taken, and so does each that a crash since then may leave. `take_steps`
//!   takes at most 8 steps, none past the target, and sends each peer the updates in order.
//! - Doesn't say: that a peer's updates come in order.
//! - A caller: none; no thread runs yet.
//! - A change of what is taken in begins in `specs/Taking.antt` or `specs/Peers.antt`, one of what is
//!   answered in `specs/Answering.antt`, one of what is sent in `specs/Sendings.antt`, one of what is
//!   handed over in `specs/Pairs.antt`, one of what crashes may leave in `specs/Keeping.antt`.
#![tactic(auto)]

mod answering;
mod desk;
mod handing;
mod keeping;
mod outbox;
mod pairs;
mod stepping;
mod stop;
mod taking;
mod unit;

pub use answering::{answer_all, settle_desk};
pub use desk::{Answer, Desk};
pub use handing::hand_over;
pub use outbox::Outbox;
pub use pairs::hand_over_all;
pub use stepping::{take_in_all, take_steps};
pub use stop::Stop;
pub use unit::UnitActor;

//! A machine that counts: for each line of a play its reply, by numbers and the central run alone.
//!
//! - Promises: what a server shows after so many steps, and an update that was sent, stay over all
//!   later lines. What a server took in was sent to it. Each public function is a law and has
//!   nothing to do.
//! - Doesn't say: that any program does what the machine does.
//! - A caller: `wf_play` writes the replies `Reply`, and reads the lines `Line`.
//! - A change of a line of a play, or of its reply, begins here.
#![tactic(auto)]

mod admission;
mod ending;
mod laws;
mod line;
mod reply;

pub use admission::{Admission, Place};
pub use ending::Ending;
pub use laws::{
    account_holds, act_grows, act_keeps, act_posts, hears_no_outcomes, posted_holds,
    records_are_few, shows_outcomes, sights_stay, sights_stay_to_end, taken_was_sent, updates_stay,
};
pub use line::Line;
pub use reply::{Reply, Sight, TurnReply};

//! All servers together, while messages are sent, lost and repeated, and records are in doubt after
//! a crash.
//!
//! - Promises: after every list of such lines the histories agree and follow the rules, all that
//!   was sent is what its sender made, and histories only grow. Each public function is a law and
//!   has nothing to do.
//! - Doesn't say: that any program keeps to the rules of admissions and turns.
//! - A caller: the proofs of `wf_bridge` give each play a world.
//! - A change of what may happen to messages and servers begins in `specs/Worlds.antt`.
#![tactic(auto)]

mod laws;

pub use laws::{
    absorb_counts_fit, act_goes_on, act_sound, admit_keeps, counts_are_bounded, good_follows,
    letter_is_fit, local_is_sorted, local_is_view, local_update_in_range, sound_is_kept,
    sound_is_lean, stands_sound, turn_keeps, updates_go_on, whole_run,
};

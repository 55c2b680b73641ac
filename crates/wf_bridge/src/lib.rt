//! The counting machine of a play and the histories of its servers are one: what it counts, shows
//! and sends is what they hold.
//!
//! - Promises: the machine of every play of an accepted chart is that of a world of servers, with
//!   its admissions, sights, items, letters and merged list. Within the limits on lines, messages
//!   and outers no journal gets full. Each public function is a law and has nothing to do.
//! - Doesn't say: anything of the ending of a play, or of any program.
//! - A caller: `wf_slot` and `wf_world`, whose servers show what the machine counts.
//! - A change of the machine or of histories shows here.
#![tactic(auto)]

mod laws;

pub use laws::{
    central_same, entries_same, first_has_world, items_same, journal_never_full, lets_same,
    letter_cut, letter_same, line_has_world, merged_same, numbers_in_order, play_has_world,
    sight_same, update_is_share, update_same,
};

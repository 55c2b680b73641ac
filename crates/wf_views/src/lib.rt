//! What one unit knows, sees and does in a step, by its part alone: its view between two steps, the
//! update that it makes of it, how it takes in the updates of all units, and what each peer is
//! sent.
//!
//! - Promises: each public function is a law of these definitions and has nothing to do. A view of
//!   a part stays one when it takes in updates. It takes in only what the part knows, and so the
//!   updates that are cut for a unit do as well as the whole ones.
//! - Doesn't say: that the views of all units show one run; that is `wf_lockstep`.
//! - A caller: `wf_updates::View::absorb` promises the definition `absorbed`.
//! - A change of what a unit sees, tells or takes in begins here.
#![tactic(auto)]

mod laws;

pub use laws::{absorbed_is_view, absorbs_cut, absorbs_known, first_is_view, relevant_is_known};

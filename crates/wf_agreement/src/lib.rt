//! Whether the histories of all units of a chart agree, and where they differ first.
//!
//! - Promises: `own_updates` answers the updates that a unit made, worked out anew from its part and
//!   its history. `agree` answers the first update that a unit took in and that isn't what its
//!   sender's history gives it, in order of step, reader and sender; and `Agree` exactly where the
//!   histories agree, which is all that the central law asks beside the rules. Both refuse only if
//!   memory runs out.
//! - Doesn't say: which of the two units is wrong.
//! - A caller asks it once about the journals of all units, before servers are started on them.
//! - A change of what agreement is begins in `Agreement` of `wf_histories`, one of which difference
//!   is named in `specs/Differing.antt`.
#![tactic(auto)]

mod agreement;
mod comparing;
mod laws;
mod walk;

pub use agreement::Agreement;
pub use comparing::agree;
pub use laws::none_where_agreed;
pub use walk::own_updates;

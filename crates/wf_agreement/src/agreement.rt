//! What is found of the histories of all units.
use wf_model::{UnitId, Update};

/// Whether histories agree, or else where they differ first.
#[derive(Debug, Drop)]
pub enum Agreement {
    /// Each update that a unit took in is the one that its sender's history gives it.
    Agree,
    /// The first that isn't.
    Differ {
        /// The unit that took it in.
        reader: UnitId,
        /// Its step, from 1 to 20,000.
        step: u32,
        /// The unit that it is from.
        sender: UnitId,
        /// What the reader took in.
        kept: Update,
        /// What the sender's history gives the reader; nothing if the sender hasn't taken the step before this one.
        sent: Option<Update>,
    },
}

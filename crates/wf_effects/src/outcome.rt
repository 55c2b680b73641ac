//! What comes of the actions of a step.
use wf_model::{EventId, List, StartAt, Val};

/// What fired transitions do beside moving.
#[derive(Drop)]
pub struct Effects {
    /// The value of each variable afterwards, in order.
    pub store: List<Val>,
    /// The raised events, ascending, each once.
    pub raised: List<EventId>,
    /// The starts, by transition in the order of the fired ones, and then by place.
    pub starts: List<StartAt>,
}

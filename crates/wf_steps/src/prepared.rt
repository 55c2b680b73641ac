//! A Turn that is worked out.
use crate::TurnDone;
use wf_model::{List, StartAt, Update};
use wf_updates::View;

/// What a Turn leaves, worked out before it is taken.
#[derive(Drop)]
pub struct Prepared {
    /// The Turn.
    pub done: TurnDone,
    /// The view after it.
    pub view: View,
    /// The own update of the step after it.
    pub next: Update,
    /// The starts of the items that it makes, in their order.
    pub starts: List<StartAt>,
}

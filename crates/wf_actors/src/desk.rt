//! What a unit answers to those at it.
use wf_exchange::LineMouth;
use wf_model::List;

/// What a unit answers to a client's line, or to a worker's completion of an item.
#[derive(Clone, Copy, Debug, PartialEq, Eq)]
pub enum Answer {
    /// It is a new admission, with this number.
    New(u64),
    /// It was this admission before.
    Again(u64),
    /// This admission has its request, with another outer.
    Reused(u64),
    /// The unit doesn't let it in.
    Refused,
}

/// The unit's end of a client or a worker, and what was answered to what came out of it, in order.
#[derive(Drop)]
pub struct Desk {
    pub mouth: LineMouth,
    pub answers: List<Answer>,
}

//! The replies to lines.
use wf_model::{ActId, List, OuterFault, Output, StateId, UnitId, UnitSet};

/// What a unit shows: its own states that are in, and the variables that it knows with their values, ascending.
#[derive(Drop)]
pub struct Sight {
    pub unit: UnitId,
    /// How many steps the unit has taken.
    pub taken: u32,
    /// How many admissions it has.
    pub admitted: u64,
    pub states: List<StateId>,
    pub vars: List<Output>,
}

/// The reply to a unit's turn.
#[derive(Clone, Copy)]
pub enum TurnReply {
    /// It took the step with this number.
    Took(u32),
    /// The updates of these units haven't come.
    Waiting(UnitSet),
    DiskFault,
    Reopen,
    Crashed,
    Down,
}

/// The reply to a line.
#[derive(Drop)]
pub enum Reply {
    /// The outer may not be admitted.
    Refused(OuterFault),
    /// It is the admission with this number now.
    New(u64),
    /// It was the admission with this number before.
    Again(u64),
    /// The request was that of the admission with this number, which is another.
    Reused(u64),
    DiskFault,
    Reopen,
    Crashed,
    Down,
    Turned(TurnReply),
    /// The messages with these numbers were sent.
    Sent { first: u32, second: Option<u32> },
    NoMessage,
    Fresh,
    Same,
    Old,
    Armed,
    /// How many steps the unit has taken, and how many admissions it has.
    Recovered { taken: u32, admitted: u64 },
    /// The unit's items in order of number, each with its activity and whether an admission completes it.
    Items(List<(ActId, u32, bool)>),
    Shown(Sight),
    /// The replies to the turns of all units, in order.
    Round(List<TurnReply>),
}

//! The lines of a play.
use wf_disk::{Arm, Outcome};
use wf_model::{Outer, UnitId};

/// A line of a play.
#[derive(Drop)]
pub enum Line {
    /// A unit is asked, by a request, to admit an outer.
    Admit {
        unit: UnitId,
        request: u64,
        outer: Outer,
    },
    /// A unit takes the next step.
    Turn {
        unit: UnitId,
    },
    /// A unit sends another the updates that it keeps.
    Send {
        from: UnitId,
        to: UnitId,
    },
    /// The message with this number, counted from 1, comes to the unit that it was sent to.
    Deliver {
        message: u32,
    },
    /// A unit crashes between two calls.
    Crash {
        unit: UnitId,
        outcome: Outcome,
    },
    /// A unit's disk will fail or stop at the stroke with this number, counted from 1.
    Arm {
        unit: UnitId,
        stroke: u32,
        what: Arm,
    },
    /// A unit is started again.
    Recover {
        unit: UnitId,
    },
    /// The sight of a unit.
    Show {
        unit: UnitId,
    },
    /// The items of a unit.
    Items {
        unit: UnitId,
    },
    /// Every unit that is up sends its updates to every other, and then each takes a step.
    Round,
}

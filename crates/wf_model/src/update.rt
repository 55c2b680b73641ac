//! What a unit tells the others of a step.
use crate::{
    ActId, Duplicate, EventId, List, NoMemory, Outer, Same, StateId, TransId, UnitId, Val, VarId,
};
use std::alloc::Global;

/// A set of units: bit i is unit i.
#[derive(Clone, Copy, Debug, PartialEq, Eq)]
pub struct UnitSet(pub u8);

/// The value that a transition gives a variable.
#[derive(Clone, Copy, Debug, PartialEq, Eq)]
pub struct Write {
    pub var: VarId,
    pub trans: TransId,
    pub val: Val,
}

/// The start of an activity, by a transition, at a place of its actions, counted from 0.
#[derive(Clone, Copy, Debug, PartialEq, Eq)]
pub struct StartAt {
    pub act: ActId,
    pub trans: TransId,
    pub place: u8,
}

/// What one unit changes in one step, and what it lets into the next.
#[derive(Debug, Drop)]
pub struct Update {
    pub from: UnitId,
    pub step: u32,
    /// The unit's states that went in or out.
    pub flips: List<StateId>,
    pub writes: List<Write>,
    pub raised: List<EventId>,
    pub starts: List<StartAt>,
    pub fired: List<TransId>,
    /// The unit's outers of the next step.
    pub outer: List<Outer>,
}

impl Duplicate for Write {
    fn copy(&self, _alloc: Global) -> Result<Write, NoMemory> {
        Ok(*self)
    }
}

impl Duplicate for StartAt {
    fn copy(&self, _alloc: Global) -> Result<StartAt, NoMemory> {
        Ok(*self)
    }
}

impl Duplicate for Update {
    fn copy(&self, alloc: Global) -> Result<Update, NoMemory> {
        Ok(Update {
            from: self.from,
            step: self.step,
            flips: self.flips.copy(alloc)?,
            writes: self.writes.copy(alloc)?,
            raised: self.raised.copy(alloc)?,
            starts: self.starts.copy(alloc)?,
            fired: self.fired.copy(alloc)?,
            outer: self.outer.copy(alloc)?,
        })
    }
}

impl Same for UnitSet {
    fn is_same(&self, other: &UnitSet) -> bool {
        self.0 == other.0
    }
}

impl Same for Write {
    fn is_same(&self, other: &Write) -> bool {
        self.var == other.var && self.trans == other.trans && self.val.is_same(&other.val)
    }
}

impl Same for StartAt {
    fn is_same(&self, other: &StartAt) -> bool {
        self.act == other.act && self.trans == other.trans && self.place == other.place
    }
}

impl Same for Update {
    fn is_same(&self, other: &Update) -> bool {
        self.from == other.from
            && self.step == other.step
            && self.flips.is_same(&other.flips)
            && self.writes.is_same(&other.writes)
            && self.raised.is_same(&other.raised)
            && self.starts.is_same(&other.starts)
            && self.fired.is_same(&other.fired)
            && self.outer.is_same(&other.outer)
    }
}

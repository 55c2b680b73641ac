//! What comes to the servers from outside.
use crate::{ActId, Duplicate, EventId, List, NoMemory, UnitId, Val, VarId};
use std::alloc::Global;
use thiserror::Error;

/// A value that a completion gives to a variable.
#[derive(Clone, Copy, Debug, PartialEq, Eq)]
pub struct Output {
    pub var: VarId,
    pub val: Val,
}

/// An event that happens, or an item that is completed.
#[derive(Debug, Drop, PartialEq, Eq)]
pub enum Outer {
    Happen(EventId),
    Complete {
        item: u32,
        act: ActId,
        outputs: List<Output>,
    },
}

/// An outer, with the unit that it comes to.
#[derive(Debug, Drop, PartialEq, Eq)]
pub struct Entry {
    pub unit: UnitId,
    pub outer: Outer,
}

/// Why an outer isn't admitted.
#[derive(Clone, Copy, Debug, PartialEq, Eq, Error)]
pub enum OuterFault {
    /// The event or activity isn't at the unit.
    #[error("wrong unit")]
    WrongUnit,
    /// The unit has no item of this number and activity.
    #[error("no item")]
    NoItem,
    /// The item is closed.
    #[error("already done")]
    AlreadyDone,
    /// The outputs aren't those of the activity, in order and sort.
    #[error("wrong output")]
    WrongOutput,
}

impl Duplicate for Output {
    fn copy(&self, _alloc: Global) -> Result<Output, NoMemory> {
        Ok(*self)
    }
}

impl Duplicate for Outer {
    fn copy(&self, alloc: Global) -> Result<Outer, NoMemory> {
        match self {
            Outer::Happen(event) => Ok(Outer::Happen(*event)),
            Outer::Complete { item, act, outputs } => {
                let outputs = outputs.copy(alloc)?;
                Ok(Outer::Complete {
                    item: *item,
                    act: *act,
                    outputs,
                })
            }
        }
    }
}

impl Duplicate for Entry {
    fn copy(&self, alloc: Global) -> Result<Entry, NoMemory> {
        Ok(Entry {
            unit: self.unit,
            outer: self.outer.copy(alloc)?,
        })
    }
}

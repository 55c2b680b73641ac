//! Copies that are equal to what they copy.
ghost use Rattle.std.specs.Prelude.{◌≡◌, IfOk};

use crate::{EventId, NoMemory, StateId, TransId, VarId};
use std::alloc::Global;

/// A value that can be copied, if there is memory.
pub trait Duplicate: Drop {
    /// An equal value.
    fn copy(&self, alloc: Global) -> Result<Self, NoMemory>
        ensures { IfOk result (λ copy. copy ≡ self.now) };
}

impl<T: Duplicate> Duplicate for Option<T> {
    fn copy(&self, alloc: Global) -> Result<Option<T>, NoMemory> {
        match self {
            Some(value) => Ok(Some(value.copy(alloc)?)),
            None => Ok(None),
        }
    }
}

impl Duplicate for StateId {
    fn copy(&self, _alloc: Global) -> Result<StateId, NoMemory> {
        Ok(*self)
    }
}

impl Duplicate for TransId {
    fn copy(&self, _alloc: Global) -> Result<TransId, NoMemory> {
        Ok(*self)
    }
}

impl Duplicate for EventId {
    fn copy(&self, _alloc: Global) -> Result<EventId, NoMemory> {
        Ok(*self)
    }
}

impl Duplicate for VarId {
    fn copy(&self, _alloc: Global) -> Result<VarId, NoMemory> {
        Ok(*self)
    }
}

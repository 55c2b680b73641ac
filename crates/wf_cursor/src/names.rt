//! The names that are declared.
ghost use Rattle.std.specs.Prelude.{◌≡◌, [], ◌∷◌, ◌++◌, None, OnOk, OnErr};
ghost use Rattle.wf_cursor.specs.Names as spec;

use indexmap::IndexMap;
use std::alloc::Global;
use std::marker::Model;
use wf_model::{ActId, EventId, NoMemory, StateId, UnitId, VarId};

/// What a name is declared as.
#[derive(Clone, Copy)]
pub enum Declared {
    Unit(UnitId),
    Event(EventId),
    Var(VarId),
    Activity(ActId),
    State(StateId),
}

/// The names that are declared, in order. Contracts see them as a list of each name with what it is.
#[derive(Drop)]
pub struct Names {
    known: IndexMap<Vec<u8>, Declared>,
}

impl Model for Names {
    ghost use Rattle.std.specs.Prelude.{List, ℕ, map};
    ghost use Rattle.wf_cursor.specs.declared.names.Declared.{Declared};

    ghost Value = { List (List ℕ × Declared) };

    ghost view = { λ names. map (λ e. (e.0.items, e.1)) names.known.entries };
}

impl Names {
    /// No name. Takes no memory.
    pub fn new(alloc: Global) -> Names
        ensures { result ≡ [] }
    {
        Names {
            known: IndexMap::new(alloc),
        }
    }

    /// What the name is declared as, if it is. In constant time on average, beside the bytes of the name.
    pub fn get(&self, name: &[u8]) -> Option<Declared>
        ensures { result ≡ spec.declared_as self.now name.now }
    {
        self.known.get(name).copied()
    }

    /// Declares a name that isn't declared yet. In constant time on average, beside the bytes of the name.
    pub fn declare(&mut self, alloc: Global, name: &[u8], what: Declared) -> Result<(), NoMemory>
        requires { spec.declared_as self.old name.now ≡ None }
        ensures ok { OnOk result (self.new ≡ self.old ++ (name.now, what) ∷ []) }
        ensures err { OnErr result (self.new ≡ self.old) }
    {
        let key = Vec::from_slice(alloc, name)?;
        self.known.insert(key, what)?;
        Ok(())
    }
}

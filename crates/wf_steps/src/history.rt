//! A unit's history.
ghost use Rattle.std.specs.Prelude.{◌≡◌, ◌+◌, ◌≤◌, ◌++◌, ◌∷◌, [], OnOk};
ghost use Rattle.wf_worlds.specs.Growing.{admitted};
ghost use Rattle.wf_worlds.specs.Worlds.{first_history};

use std::alloc::Global;
use std::marker::Model;
use wf_model::{List, NoMemory, Outer, UnitId, Update};

/// What a request admitted.
#[derive(Debug, Drop)]
pub struct Admission {
    pub request: u64,
    pub outer: Outer,
}

impl Model for Admission {
    ghost use Rattle.wf_histories.specs.Histories.{Admission as Admitted};

    ghost Value = { Admitted };

    ghost view = { λ a. record { request = a.request; outer = a.outer } };
}

/// A step that was taken, with the updates that it took in, and how many admissions it sealed.
#[derive(Debug, Drop)]
pub struct TurnDone {
    pub step: u32,
    pub inputs: List<Update>,
    pub sealed: u32,
}

impl Model for TurnDone {
    ghost use Rattle.wf_histories.specs.Histories.{TurnDone as Turned};

    ghost Value = { Turned };

    ghost view = { λ t. record { step = t.step; inputs = t.inputs; sealed = t.sealed } };
}

/// All that a unit's journal tells. Contracts see it as the history with its room.
#[derive(Debug, Drop)]
pub struct History {
    unit: UnitId,
    admissions: Vec<Admission>,
    turns: Vec<TurnDone>,
}

impl Model for History {
    ghost use Rattle.std.specs.Prelude.{◌-◌};
    ghost use Rattle.std.specs.Vec.{vec_len, vec_capacity};
    ghost use Rattle.wf_steps.specs.Room.{Kept};

    ghost Value = { Kept };

    ghost view = { λ h. record {
      past = record { unit = h.unit; admissions = h.admissions.items; turns = h.turns.items };
      admit_room = vec_capacity h.admissions - vec_len h.admissions;
      turn_room = vec_capacity h.turns - vec_len h.turns;
    } };
}

impl History {
    /// No record yet. Takes no memory.
    pub fn new(alloc: Global, unit: UnitId) -> History
        ensures { result.past ≡ first_history unit.0 }
    {
        History {
            unit,
            admissions: Vec::new(alloc),
            turns: Vec::new(alloc),
        }
    }

    /// The unit that it is of. Takes no memory.
    pub fn unit(&self) -> UnitId
        ensures { result ≡ self.now.past.unit }
    {
        self.unit
    }

    /// The admissions in order. Takes no memory.
    pub fn admissions(&self) -> &[Admission]
        ensures { result.now ≡ self.now.past.admissions }
    {
        self.admissions.as_slice()
    }

    /// The Turns in order. Takes no memory.
    pub fn turns(&self) -> &[TurnDone]
        ensures { result.now ≡ self.now.past.turns }
    {
        self.turns.as_slice()
    }

    /// Room for so many admissions and Turns more, at least. The room that there was stays, also after `NoMemory`.
    pub fn reserve(&mut self, admissions: usize, turns: usize) -> Result<(), NoMemory>
        ensures past { self.new.past ≡ self.old.past }
        ensures admit_room { OnOk result (admissions ≤ self.new.admit_room) }
        ensures turn_room { OnOk result (turns ≤ self.new.turn_room) }
        ensures more_admit { self.old.admit_room ≤ self.new.admit_room }
        ensures more_turn { self.old.turn_room ≤ self.new.turn_room }
    {
        self.admissions.reserve(admissions)?;
        self.turns.reserve(turns)?;
        Ok(())
    }

    /// One admission more, for which there is room. Of the room no more is gone than for one. Takes no memory.
    pub fn admit(&mut self, request: u64, outer: Outer)
        requires { 1 ≤ self.old.admit_room }
        ensures past { self.new.past ≡ admitted self.old.past (record { request = request; outer = outer }) }
        ensures admit_room { self.old.admit_room ≤ self.new.admit_room + 1 }
        ensures turn_room { self.new.turn_room ≡ self.old.turn_room }
    {
        let _ = self.admissions.push(Admission { request, outer });
    }

    /// One Turn more, for which there is room. Of the room no more is gone than for one. Takes no memory.
    pub fn grow(&mut self, done: TurnDone)
        requires { 1 ≤ self.old.turn_room }
        ensures past { self.new.past ≡ record self.old.past { turns = self.old.past.turns ++ done ∷ [] } }
        ensures turn_room { self.old.turn_room ≤ self.new.turn_room + 1 }
        ensures admit_room { self.new.admit_room ≡ self.old.admit_room }
    {
        let _ = self.turns.push(done);
    }
}

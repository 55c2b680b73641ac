//! The items of one unit.
ghost use Rattle.std.specs.Prelude.{◌≡◌, ◌+◌, ◌++◌, ◌<◌, ◌≤◌, ◌^◌, ◌↔◌, [], ◌∷◌, length, map, All, IsTrue, IsOk, IfOk, OnOk, OnErr};
ghost use Rattle.std.specs.Option.{option_map};
ghost use Rattle.wf_model.specs.Limits.{max_acts};
ghost use Rattle.wf_semantics.specs.Items.{new_item, item_at, open_count, close};
ghost use Rattle.wf_activities.specs.UnitItems.{listed, is_open, started_of};
ghost use Rattle.wf_activities.specs.Completing.{may_complete};

use crate::{counts, outputs, starts};
use std::alloc::Global;
use std::marker::Model;
use wf_model::{ActId, NoMemory, OuterFault, Output, Sort, StartAt, UnitId, VarId};

/// The items of one unit, in the order of their starts. The first has number 1.
#[derive(Drop)]
pub struct Items {
    unit: UnitId,
    started: Vec<(ActId, u32)>,
    closed: Vec<bool>,
    counts: Vec<u32>,
}

impl Model for Items {
    ghost use Rattle.std.specs.Prelude.{map, length, ◌-◌};
    ghost use Rattle.std.specs.Vec.{vec_len, vec_capacity};
    ghost use Rattle.wf_activities.specs.UnitItems.{UnitItems, AreKept, items_from, room_of};

    ghost Value = { UnitItems };

    ghost view = { λ i. record {
      unit = i.unit;
      items = items_from i.started.items i.closed.items;
      steps = map (λ s. s.1) i.started.items;
      room = room_of (length i.counts.items) (vec_capacity i.started - vec_len i.started) (vec_capacity i.closed - vec_len i.closed);
    } };

    ghost invariant = { λ i. AreKept i.started.items i.closed.items i.counts.items };
}

impl Items {
    /// No item yet. Takes no memory.
    pub fn new(alloc: Global, unit: UnitId) -> Items
        ensures unit { result.unit ≡ unit }
        ensures items { result.items ≡ [] }
        ensures steps { result.steps ≡ [] }
    {
        Items {
            unit,
            started: Vec::new(alloc),
            closed: Vec::new(alloc),
            counts: Vec::new(alloc),
        }
    }

    /// Makes room: the next `grow` that adds at most so many items finds memory. The memory at least doubles where it grows, so
    /// that many calls for one item more cost as little as one for all. After `NoMemory` the items are as before. The room that
    /// there was stays. With that room already, for one item or more, it answers Ok.
    pub fn reserve(&mut self, more: u32) -> Result<(), NoMemory>
        ensures unit { self.new.unit ≡ self.old.unit }
        ensures items { self.new.items ≡ self.old.items }
        ensures steps { self.new.steps ≡ self.old.steps }
        ensures ok { OnOk result (more ≤ self.new.room) }
        ensures succeeds { 1 ≤ more → more ≤ self.old.room → IsOk result }
        ensures room { self.old.room ≤ self.new.room }
    {
        self.started.reserve(more as usize)?;
        self.closed.reserve(more as usize)?;
        counts::reach_all(&mut self.counts)
    }

    /// Adds the starts of the listed activities in order, as items of this step. Grows with the starts times the listed
    /// activities. It finds memory where there is room, and takes no more of it than it adds items. After `NoMemory` the items are
    /// as before, with their room.
    pub fn grow(
        &mut self,
        chart_unit_acts: &[ActId],
        step: u32,
        starts: &[StartAt],
    ) -> Result<(), NoMemory>
        requires { length self.old.items + length (listed chart_unit_acts.now starts.now) < 2 ^ 32 }
        ensures unit { self.new.unit ≡ self.old.unit }
        ensures items { OnOk result (self.new.items ≡ self.old.items ++ map (λ s. new_item s.act) (listed chart_unit_acts.now starts.now)) }
        ensures steps { OnOk result (self.new.steps ≡ self.old.steps ++ map (λ s. step) (listed chart_unit_acts.now starts.now)) }
        ensures err_items { OnErr result (self.new.items ≡ self.old.items) }
        ensures err_steps { OnErr result (self.new.steps ≡ self.old.steps) }
        ensures err_room { OnErr result (self.old.room ≤ self.new.room) }
        ensures room { self.old.room ≤ self.new.room + length (listed chart_unit_acts.now starts.now) }
        ensures ready { All (λ a. a.0 < max_acts) chart_unit_acts.now → length (listed chart_unit_acts.now starts.now) ≤ self.old.room → IsOk result }
    {
        let before = self.started.len();
        counts::widen(&mut self.counts, chart_unit_acts, starts)?;
        starts::append(
            &mut self.started,
            &mut self.closed,
            chart_unit_acts,
            step,
            starts,
        )?;
        counts::count_all(&mut self.counts, &self.started.as_slice()[before..]);
        Ok(())
    }

    /// Adds one item, a start of this activity in this step. There is room for it. In constant time. Takes no memory.
    pub fn push(&mut self, act: ActId, step: u32)
        requires small { act.0 < max_acts }
        requires room { 0 < self.old.room }
        requires few { length self.old.items + 1 < 2 ^ 32 }
        ensures unit { self.new.unit ≡ self.old.unit }
        ensures items { self.new.items ≡ self.old.items ++ new_item act ∷ [] }
        ensures steps { self.new.steps ≡ self.old.steps ++ step ∷ [] }
        ensures room { self.old.room ≤ self.new.room + 1 }
    {
        self.started.push((act, step)).unwrap();
        self.closed.push(false).unwrap();
        self.counts[act.0 as usize] += 1;
    }

    /// Whether an item may be completed with these outputs, where its activity gives the wanted ones. `NoItem`: there is no
    /// item of this number and activity. Else `AlreadyDone`: it is closed. Else `WrongOutput`: the outputs aren't one value of
    /// the right sort for each wanted variable, in order. Takes no memory.
    pub fn may_complete(
        &self,
        item: u32,
        act: ActId,
        outputs: &[Output],
        wanted: &[(VarId, Sort)],
    ) -> Result<(), OuterFault>
        ensures answer { result ≡ may_complete self.now.items item act outputs.now wanted.now }
        ensures passed { OnOk result (IsTrue (is_open (item_at self.now.items item))) }
    {
        let Some((of, closed)) = self.find(item) else {
            return Err(OuterFault::NoItem);
        };
        if of.0 != act.0 {
            return Err(OuterFault::NoItem);
        }
        if closed {
            return Err(OuterFault::AlreadyDone);
        }
        if !outputs::are_wanted(wanted, outputs) {
            return Err(OuterFault::WrongOutput);
        }
        Ok(())
    }

    /// Closes an item that is there and open, as a passed `may_complete` shows. In constant time.
    pub fn close(&mut self, item: u32)
        requires { IsTrue (is_open (item_at self.old.items item)) }
        ensures unit { self.new.unit ≡ self.old.unit }
        ensures items { self.new.items ≡ close item self.old.items }
        ensures steps { self.new.steps ≡ self.old.steps }
        ensures room { self.new.room ≡ self.old.room }
    {
        let at = item as usize - 1;
        let act = self.started[at].0.0 as usize;
        self.closed[at] = true;
        self.counts[act] -= 1;
    }

    /// The activity and the step of each item, in order of number. Takes no memory.
    pub fn started(&self) -> &[(ActId, u32)]
        ensures { result.now ≡ started_of self.now }
    {
        self.started.as_slice()
    }

    /// How many items of the activity are open. In constant time. Takes no memory.
    pub fn open_count(&self, act: ActId) -> u32
        ensures { result ≡ open_count act.0 self.now.items }
    {
        match self.counts.get(act.0 as usize) {
            Some(count) => *count,
            None => 0,
        }
    }

    /// How many items there are. In constant time. Takes no memory.
    pub fn len(&self) -> usize
        ensures { result ≡ length self.now.items }
    {
        self.started.len()
    }

    /// Whether there is no item. In constant time. Takes no memory.
    pub fn is_empty(&self) -> bool
        ensures { IsTrue result ↔ (length self.now.items ≡ 0) }
    {
        self.len() == 0
    }

    /// A copy of the items, with as much room. Grows with the items and the room.
    pub fn copy(&self, alloc: Global) -> Result<Items, NoMemory>
        ensures unit { IfOk result (λ copy. copy.unit ≡ self.now.unit) }
        ensures items { IfOk result (λ copy. copy.items ≡ self.now.items) }
        ensures steps { IfOk result (λ copy. copy.steps ≡ self.now.steps) }
        ensures room { IfOk result (λ copy. self.now.room ≤ copy.room) }
    {
        let mut started = Vec::from_slice(alloc, self.started.as_slice())?;
        started.reserve(self.started.capacity() - self.started.len())?;
        let mut closed = Vec::from_slice(alloc, self.closed.as_slice())?;
        closed.reserve(self.closed.capacity() - self.closed.len())?;
        let counts = Vec::from_slice(alloc, self.counts.as_slice())?;
        Ok(Items {
            unit: self.unit,
            started,
            closed,
            counts,
        })
    }

    // The activity of an item, and whether it is closed.
    fn find(&self, item: u32) -> Option<(ActId, bool)>
        ensures { result ≡ option_map (λ i. (i.act, i.closed)) (item_at self.now.items item) }
    {
        if item == 0 {
            return None;
        }
        let place = item as usize - 1;
        if place < self.started.len() {
            Some((self.started[place].0, self.closed[place]))
        } else {
            None
        }
    }
}

//! The items of all units of a chart.
ghost use Rattle.std.specs.Prelude.{List as Listed, ◌≡◌, ℕ, ◌+◌, ◌++◌, ◌<◌, ◌^◌, [], length, map, filter, IsTrue, IfOk, OnOk, OnErr};
ghost use Rattle.std.specs.List.{range_with_len};
ghost use Rattle.wf_model.specs.Accepted.{IsAccepted};
ghost use Rattle.wf_model.specs.declared.outer.Outer.TheVariants.{Complete};
ghost use Rattle.wf_semantics.specs.Run.{items_closed, open_now, new_items, numbered};
ghost use Rattle.wf_semantics.specs.Admission.{is_pending, may_be_admitted, may_come};
ghost use Rattle.wf_activities.specs.Completing.{completes_again};
ghost use Rattle.wf_activities.specs.Stock.{items_at, steps_at, AreOf, AreStarted};

use crate::{Items, admission, completions, growing, numbers, tables};
use std::alloc::Global;
use std::marker::Model;
use wf_model::{
    ActId, Chart, Checked, Entry, List, NoMemory, Outer, OuterFault, Output, Sort, StartAt, UnitId,
    VarId,
};

/// The items of all units of one chart, and what is worked out once for it: what a completion of each activity gives.
#[derive(Drop)]
pub struct AllItems {
    units: Vec<Items>,
    wanted: List<List<(VarId, Sort)>>,
}

impl Model for AllItems {
    ghost use Rattle.std.specs.Prelude.{List as Listed, map};
    ghost use Rattle.wf_activities.specs.Stock.{Stock};

    ghost Value = { Stock };

    ghost view = { λ a. record {
      items = map (λ i. i.items) a.units.items;
      steps = map (λ i. i.steps) a.units.items;
      wanted = a.wanted;
    } };
}

impl AllItems {
    /// No item yet, at any unit of the chart. Works out the table of the chart. Grows with the units, the activities and
    /// their outputs.
    pub fn of(alloc: Global, checked: &Checked) -> Result<AllItems, NoMemory>
        ensures items { IfOk result (λ all. (u : ℕ) → items_at all u ≡ []) }
        ensures steps { IfOk result (λ all. (u : ℕ) → steps_at all u ≡ []) }
        ensures of { IfOk result (λ all. AreOf checked.now all) }
    {
        let chart = checked.chart();
        let units = tables::no_items(alloc, chart)?;
        let wanted = tables::wanted_outputs(alloc, chart)?;
        Ok(AllItems { units, wanted })
    }

    /// Whether a unit may admit an outer, or why not, where `pending` tells whether a pending entry completes the same item.
    /// Grows with the outputs. Takes no memory.
    pub fn may_admit(
        &self,
        chart: &Chart,
        unit: UnitId,
        outer: &Outer,
        pending: bool,
    ) -> Result<(), OuterFault>
        requires accepted { IsAccepted chart.now }
        requires of { AreOf chart.now self.now }
        ensures { (entries : Listed Entry) → completes_again entries unit.0 outer.now ≡ pending → result ≡ may_be_admitted chart.now (items_at self.now) entries unit.0 outer.now }
    {
        match outer {
            Outer::Happen(event) => admission::admits_event(chart, unit, *event),
            Outer::Complete { item, act, outputs } => {
                self.may_complete(chart, unit, *item, *act, outputs.as_slice(), pending)
            }
        }
    }

    /// For each activity, how many of its items are open once these entries have closed theirs. Grows with the activities and
    /// the entries, and not with the items.
    pub fn open_counts_then(
        &self,
        alloc: Global,
        chart: &Chart,
        entries: &[Entry],
    ) -> Result<List<u32>, NoMemory>
        requires accepted { IsAccepted chart.now }
        requires of { AreOf chart.now self.now }
        requires come { IsTrue (may_come chart.now (items_at self.now) entries.now) }
        ensures { IfOk result (λ counts. counts ≡ map (open_now chart.now (items_at self.now) entries.now) (range_with_len 0 (length chart.now.acts))) }
    {
        completions::open_counts_then(alloc, chart, self.units.as_slice(), entries)
    }

    /// Closes the items that the entries complete, adds the starts as items of this step, and gives each start with the number
    /// of its item. Grows with the entries, the units and the starts. After `NoMemory` all is as before.
    pub fn take_step(
        &mut self,
        alloc: Global,
        chart: &Chart,
        entries: &[Entry],
        step: u32,
        starts: &[StartAt],
    ) -> Result<List<(ActId, u32)>, NoMemory>
        requires accepted { IsAccepted chart.now }
        requires of { AreOf chart.now self.old }
        requires come { IsTrue (may_come chart.now (items_at self.old) entries.now) }
        requires room { (u : ℕ) → length (items_at self.old u) + length starts.now < 2 ^ 32 }
        ensures items { OnOk result (items_at self.new ≡ (λ u. items_closed (items_at self.old) entries.now u ++ new_items chart.now u starts.now)) }
        ensures steps { OnOk result (AreStarted chart.now step starts.now self.old self.new) }
        ensures numbered { IfOk result (λ n. n ≡ numbered chart.now (λ u. length (items_at self.old u)) starts.now) }
        ensures of { AreOf chart.now self.new }
        ensures err { OnErr result (self.new ≡ self.old) }
    {
        let numbers = numbers::item_numbers(alloc, chart, self.units.as_slice(), starts)?;
        growing::reserve(&mut self.units, numbers.lengths.as_slice())?;
        completions::close_completed(&mut self.units, entries);
        growing::grow(&mut self.units, chart, step, starts);
        Ok(numbers.starts)
    }

    // Whether a unit may admit a completion, or why not, where `pending` tells whether a pending entry completes the same item.
    fn may_complete(
        &self,
        chart: &Chart,
        unit: UnitId,
        item: u32,
        act: ActId,
        outputs: &[Output],
        pending: bool,
    ) -> Result<(), OuterFault>
        requires accepted { IsAccepted chart.now }
        requires of { AreOf chart.now self.now }
        ensures { (entries : Listed Entry) → is_pending entries unit.0 item ≡ pending → result ≡ may_be_admitted chart.now (items_at self.now) entries unit.0 (Complete item act outputs.now) }
    {
        if !admission::is_act_at(chart, unit, act) {
            return Err(OuterFault::WrongUnit);
        }
        let items = &self.units[unit.0 as usize];
        let wanted = &self.wanted.as_slice()[act.0 as usize];
        let answer = items.may_complete(item, act, outputs, wanted.as_slice());
        admission::answer_unless_pending(answer, pending)
    }
}

//! The state of a chart.
ghost use Rattle.std.specs.Prelude.{List as Listed, ◌≡◌, ℕ, ◌+◌, ◌<◌, [], Some, length, map, slice_get, IsTrue, IfOk, OnOk, OnErr};
ghost use Rattle.wf_model.specs.Accepted.{IsAccepted};
ghost use Rattle.wf_model.specs.declared.chart.Chart.{Chart as AnyChart};
ghost use Rattle.wf_model.specs.Limits.{max_steps};
ghost use Rattle.wf_semantics.specs.Configuration.{is_in};
ghost use Rattle.wf_semantics.specs.Run.{first_state, next_state};
ghost use Rattle.wf_semantics.specs.Admission.{may_be_admitted, may_come};
ghost use Rattle.wf_semantics.specs.Shown.{HasSorts};
ghost use Rattle.wf_activities.specs.Completing.{completes_again};
ghost use Rattle.wf_activities.specs.Stock.{steps_at};
ghost use Rattle.wf_central.specs.Kept.{central_of, IsOf, StartInStep, notes_of};
ghost use Rattle.wf_central.specs.Made.{MakesStep};

use crate::outputs;
use crate::passes::{self, AfterStep};
use crate::pending::completes_again;
use crate::snapshot::{self, StepSnapshot};
use std::alloc::Global;
use std::marker::Model;
use wf_activities::{AllItems, done_bits};
use wf_model::{
    Chart, Checked, Entry, EventId, List, NoMemory, Outer, OuterFault, StateId, StepNotes, UnitId,
    Val, VarId,
};
use wf_scopes::{Scopes, default_bits};

/// The state of a chart after so many steps: the states that are in, the values of the variables, the events raised in the
/// last step, and the items of each unit.
#[derive(Drop)]
pub struct CentralState {
    active: List<bool>,
    store: List<Val>,
    raised: List<EventId>,
    items: AllItems,
    taken: u32,
    scopes: Scopes,
}

// The value of each variable before the first step.
fn first_values(alloc: Global, chart: &Chart) -> Result<List<Val>, NoMemory>
    ensures { IfOk result (λ values. values ≡ map (λ x. x.first) chart.now.vars) }
{
    let mut values = List::new(alloc);
    for variable in chart.vars.as_slice() {
        values.push(variable.first)?;
    }
    Ok(values)
}

impl Model for CentralState {
    ghost use Rattle.wf_central.specs.Kept.{Kept};

    ghost Value = { Kept };

    ghost view = { λ c. record { active = c.active; store = c.store; raised = c.raised; items = c.items; taken = c.taken; tables = c.scopes } };
}

impl CentralState {
    /// The state before the first step. Works out the tables of the chart, once.
    pub fn first(alloc: Global, checked: &Checked) -> Result<CentralState, NoMemory>
        ensures state { IfOk result (λ c. central_of checked.now c ≡ first_state checked.now) }
        ensures of { IfOk result (λ c. IsOf checked.now c) }
        ensures steps { IfOk result (λ c. (u : ℕ) → steps_at c.items u ≡ []) }
    {
        let active = default_bits(alloc, checked.chart())?;
        let store = first_values(alloc, checked.chart())?;
        let items = AllItems::of(alloc, checked)?;
        let scopes = Scopes::of(alloc, checked)?;
        Ok(CentralState {
            active,
            store,
            raised: List::new(alloc),
            items,
            taken: 0,
            scopes,
        })
    }

    /// Whether a state of the chart is in. Takes no memory.
    pub fn is_in(&self, s: StateId) -> bool
        ensures { (chart : AnyChart) → IsOf chart self.now → s.0 < length chart.states → result ≡ is_in s.0 (central_of chart self.now).configuration }
    {
        snapshot::is_set(self.active.as_slice(), s.0 as usize)
    }

    /// The value of a variable of the chart. Takes no memory.
    pub fn var(&self, v: VarId) -> Val
        ensures { (chart : AnyChart) → IsOf chart self.now → v.0 < length chart.vars → slice_get (central_of chart self.now).store v.0 ≡ Some result }
    {
        match self.store.get(v.0 as usize) {
            Some(val) => *val,
            None => Val::Bool(false),
        }
    }

    /// The events that were raised in the last step, ascending. Takes no memory.
    #[tactic(auto, unfolding(crate::specs::Kept::central_of))]
    pub fn raised(&self) -> &[EventId]
        ensures { (chart : AnyChart) → result.now ≡ (central_of chart self.now).raised }
    {
        self.raised.as_slice()
    }

    /// How many steps were taken. Takes no memory.
    #[tactic(auto, unfolding(crate::specs::Kept::central_of))]
    pub fn taken(&self) -> u32
        ensures { (chart : AnyChart) → result ≡ (central_of chart self.now).taken }
    {
        self.taken
    }

    /// Whether a unit may admit an outer where these entries are pending, or why not: `WrongUnit` where the event or the
    /// activity isn't at the unit, else `NoItem` where the unit has no item of this number and activity, else `AlreadyDone`
    /// where the item is closed or a pending entry completes it, else `WrongOutput` where the outputs aren't one value of the
    /// right sort for each output of the activity, in order. Grows with the pending entries and the outputs. Takes no memory.
    pub fn may_admit(
        &self,
        checked: &Checked,
        pending: &[Entry],
        unit: UnitId,
        outer: &Outer,
    ) -> Result<(), OuterFault>
        requires { IsOf checked.now self.now }
        ensures { result ≡ may_be_admitted checked.now (central_of checked.now self.now).items pending.now unit.0 outer.now }
    {
        let again = completes_again(pending, unit, outer);
        self.may_admit_if(checked, unit, outer, again)
    }

    // The same, if it is known whether a pending entry completes the same item. Grows with the outputs.
    pub(crate) fn may_admit_if(
        &self,
        checked: &Checked,
        unit: UnitId,
        outer: &Outer,
        again: bool,
    ) -> Result<(), OuterFault>
        requires { IsOf checked.now self.now }
        ensures { (entries : Listed Entry) → completes_again entries unit.0 outer.now ≡ again → result ≡ may_be_admitted checked.now (central_of checked.now self.now).items entries unit.0 outer.now }
    {
        self.items.may_admit(checked.chart(), unit, outer, again)
    }

    /// Takes one step, in which these entries come: each of them may be admitted where those before it are pending. Grows with
    /// the states times their depth, the transitions, the nodes of the guards that are looked at and of the assigned values,
    /// the actions that fire, the variables, the outputs, the events, the entries, the activities, the units and the starts; not
    /// with the items. After `NoMemory` the state is as before.
    pub fn step(
        &mut self,
        alloc: Global,
        checked: &Checked,
        outer: &[Entry],
    ) -> Result<StepNotes, NoMemory>
        requires of { IsOf checked.now self.old }
        requires few { self.old.taken < max_steps }
        requires come { IsTrue (may_come checked.now (central_of checked.now self.old).items outer.now) }
        ensures state { OnOk result (central_of checked.now self.new ≡ next_state checked.now (central_of checked.now self.old) outer.now) }
        ensures steps { OnOk result (StartInStep checked.now self.old outer.now self.new) }
        ensures notes { IfOk result (λ notes. notes ≡ notes_of checked.now (central_of checked.now self.old) outer.now) }
        ensures of { IsOf checked.now self.new }
        ensures taken { OnOk result (self.new.taken ≡ self.old.taken + 1) }
        ensures err { OnErr result (self.new ≡ self.old) }
    {
        let chart = checked.chart();
        let after = self.after_step(alloc, chart, outer)?;
        let starts = self.items.take_step(
            alloc,
            chart,
            outer,
            self.taken + 1,
            after.starts.as_slice(),
        )?;
        self.active = after.active;
        self.store = after.store;
        self.raised = after.raised;
        self.taken += 1;
        Ok(StepNotes {
            fired: after.fired,
            starts,
        })
    }

    // What the step makes in which these entries come, but for the items.
    fn after_step(
        &self,
        alloc: Global,
        chart: &Chart,
        outer: &[Entry],
    ) -> Result<AfterStep, NoMemory>
        requires accepted { IsAccepted chart.now }
        requires of { IsOf chart.now self.now }
        requires come { IsTrue (may_come chart.now (central_of chart.now self.now).items outer.now) }
        ensures step { IfOk result (MakesStep chart.now (central_of chart.now self.now) outer.now) }
        ensures sorts { IfOk result (λ after. HasSorts chart.now after.store) }
    {
        let there = passes::events_there(alloc, chart, self.raised.as_slice(), outer)?;
        let store = outputs::store_then(alloc, self.store.as_slice(), outer)?;
        let counts = self.items.open_counts_then(alloc, chart, outer)?;
        let dones = done_bits(alloc, chart, outer)?;
        let snap = StepSnapshot {
            active: self.active.as_slice(),
            store: store.as_slice(),
            counts: counts.as_slice(),
            dones: dones.as_slice(),
        };
        passes::pass_all(alloc, chart, &self.scopes, &snap, &there)
    }
}

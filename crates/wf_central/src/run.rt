//! A central run: outers are admitted one by one, and a step takes all that were admitted before it.
ghost use Rattle.std.specs.Prelude.{◌≡◌, ℕ, ◌<◌, ◌+◌, ◌++◌, [], ◌==◌, filter, IfOk, OnOk, OnErr};
ghost use Rattle.wf_model.specs.Accepted.{IsAccepted};
ghost use Rattle.wf_model.specs.Limits.{max_steps};
ghost use Rattle.wf_semantics.specs.Standing as spec;
ghost use Rattle.wf_activities.specs.Stock.{steps_at};
ghost use Rattle.wf_central.specs.Kept.{notes_of, StartInStep};
ghost use Rattle.wf_central.specs.Standings.{standing_of, state_of, taken_by, IsRun};

use crate::CentralState;
use crate::pending::Pending;
use std::alloc::Global;
use wf_model::{
    Chart, Checked, Duplicate, Entry, List, NoMemory, Outer, OuterFault, StepNotes, UnitId,
};

/// Where a run of a chart stands: its state, and the outers that were admitted for the next step.
#[derive(Drop)]
pub struct CentralRun {
    central: CentralState,
    pending: Pending,
}

// Appends a copy of each entry of this unit.
fn append_of(
    alloc: Global,
    ordered: &mut List<Entry>,
    entries: &[Entry],
    unit: UnitId,
) -> Result<(), NoMemory>
    ensures { OnOk result (ordered.new ≡ ordered.old ++ filter (λ x. x.unit.0 == unit.0) entries.now) }
{
    for entry in entries {
        if entry.unit.0 == unit.0 {
            ordered.push(entry.copy(alloc)?)?;
        }
    }
    Ok(())
}

// The entries unit by unit. Grows with the entries times the units.
fn in_unit_order(alloc: Global, chart: &Chart, entries: &[Entry]) -> Result<List<Entry>, NoMemory>
    requires { IsAccepted chart.now }
    ensures { IfOk result (λ ordered. ordered ≡ spec.in_unit_order chart.now entries.now) }
{
    let mut ordered = List::new(alloc);
    for unit in 0..chart.units.len() {
        append_of(alloc, &mut ordered, entries, UnitId(unit as u32))?;
    }
    Ok(ordered)
}

impl CentralRun {
    /// The run before its first step, where nothing is pending. Works out the tables of the chart, once.
    pub fn start(alloc: Global, checked: &Checked) -> Result<CentralRun, NoMemory>
        ensures standing { IfOk result (λ run.
            standing_of checked.now run ≡ spec.first_standing checked.now) }
        ensures of { IfOk result (λ run. IsRun checked.now run) }
        ensures taken { IfOk result (λ run. taken_by run ≡ 0) }
        ensures steps { IfOk result (λ run. (u : ℕ) → steps_at (state_of run).items u ≡ []) }
    {
        Ok(CentralRun {
            central: CentralState::first(alloc, checked)?,
            pending: Pending::new(alloc),
        })
    }

    /// The state after the steps so far. Takes no memory.
    pub fn state(&self) -> &CentralState
        ensures { result.now ≡ state_of self.now }
    {
        &self.central
    }

    /// Admits an outer at a unit for the next step, or answers why not, by the rule of `CentralState::may_admit`. A refusal
    /// leaves the run as it is, and so does `NoMemory`. Grows with the outputs.
    pub fn admit(
        &mut self,
        alloc: Global,
        checked: &Checked,
        unit: UnitId,
        outer: &Outer,
    ) -> Result<Result<(), OuterFault>, NoMemory>
        requires { IsRun checked.now self.old }
        ensures answer { IfOk result (λ a.
            a ≡ spec.admission checked.now (standing_of checked.now self.old) unit outer.now) }
        ensures standing { OnOk result (standing_of checked.now self.new
            ≡ spec.after_admission checked.now (standing_of checked.now self.old) unit outer.now) }
        ensures of { IsRun checked.now self.new }
        ensures state { state_of self.new ≡ state_of self.old }
        ensures err { OnErr result (self.new ≡ self.old) }
    {
        let again = self.pending.completes(unit, outer);
        match self.central.may_admit_if(checked, unit, outer, again) {
            Ok(()) => {
                let outer = outer.copy(alloc)?;
                self.pending.push(Entry { unit, outer })?;
                Ok(Ok(()))
            }
            Err(fault) => Ok(Err(fault)),
        }
    }

    /// Takes one step, in which all that is pending comes, unit by unit. Grows as `CentralState::step`, and with the pending
    /// entries times the units. After `NoMemory` the run is as before.
    pub fn step(&mut self, alloc: Global, checked: &Checked) -> Result<StepNotes, NoMemory>
        requires of { IsRun checked.now self.old }
        requires few { taken_by self.old < max_steps }
        ensures notes { let before = standing_of checked.now self.old in
            IfOk result (λ n. n ≡ notes_of checked.now before.central (spec.next_entries checked.now before)) }
        ensures standing { OnOk result (standing_of checked.now self.new
            ≡ spec.after_step checked.now (standing_of checked.now self.old)) }
        ensures steps { let before = standing_of checked.now self.old in
            OnOk result (StartInStep checked.now (state_of self.old) (spec.next_entries checked.now before) (state_of self.new)) }
        ensures of { IsRun checked.now self.new }
        ensures taken { OnOk result (taken_by self.new ≡ taken_by self.old + 1) }
        ensures err { OnErr result (self.new ≡ self.old) }
    {
        let coming = in_unit_order(alloc, checked.chart(), self.pending.entries())?;
        let notes = self.central.step(alloc, checked, coming.as_slice())?;
        self.pending = Pending::new(alloc);
        Ok(notes)
    }
}

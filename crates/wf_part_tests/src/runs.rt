//! Runs of a chart, and the shares of their units.
ghost use Rattle.std.specs.Prelude.{◌≡◌, length, map, [], IsTrue, IfOk, IfSome};
ghost use Rattle.std.specs.List.{list_all, range_with_len};
ghost use Rattle.wf_semantics.specs.Admission.{may_come};
ghost use Rattle.wf_semantics.specs.Run.{next_state};
ghost use Rattle.wf_central.specs.Kept.{central_of, IsOf};
ghost use Rattle.wf_runs.specs.Runs.{IsRun, IsRunFrom};
ghost use Rattle.wf_parts.specs.Parts.{part_of};
ghost use Rattle.wf_lockstep.specs.Shares.{entries_at};
ghost use Rattle.wf_lockstep.specs.Ordered.{rises};
ghost use Rattle.wf_part_tests.specs.Runs.{IsSharedRun};

use crate::made::parts_of;
use std::alloc::Global;
use std::test::Fail;
use wf_central::CentralState;
use wf_model::limits::MAX_STEPS;
use wf_model::{Checked, Entry, List, NoMemory, StepNotes, Update};
use wf_ortho::orthogonalise;
use wf_parts::Part;
use wf_projection::shares;

// Whether the entries may come in the next step.
fn may_come(checked: &Checked, state: &CentralState, entries: &[Entry]) -> bool
    requires { IsOf checked.now state.now }
    ensures { result ≡ may_come checked.now (central_of checked.now state.now).items entries.now }
{
    for (at, entry) in entries.iter().enumerate() {
        let admitted = state.may_admit(checked, &entries[..at], entry.unit, &entry.outer);
        if admitted.is_err() {
            return false;
        }
    }
    true
}

/// Takes a step, or answers none if these entries may not come in it.
#[tactic(auto, unfolding(wf_central::specs::Kept::central_of))]
pub fn step_if_run(
    alloc: Global,
    checked: &Checked,
    state: &mut CentralState,
    entries: &[Entry],
) -> Result<Option<StepNotes>, NoMemory>
    requires { IsOf checked.now state.old }
    ensures of { IsOf checked.now state.new }
    ensures come { IfOk result (λ notes. IfSome notes (λ n. IsTrue (may_come checked.now (central_of checked.now state.old).items entries.now))) }
    ensures state { IfOk result (λ notes. IfSome notes (λ n. central_of checked.now state.new ≡ next_state checked.now (central_of checked.now state.old) entries.now)) }
{
    if state.taken() >= MAX_STEPS || !may_come(checked, state, entries) {
        return Ok(None);
    }
    Ok(Some(state.step(alloc, checked, entries)?))
}

// Whether the lists are a run on from this state.
fn goes_on(
    alloc: Global,
    checked: &Checked,
    state: &mut CentralState,
    outer: &[List<Entry>],
) -> Result<bool, NoMemory>
    requires { IsOf checked.now state.old }
    ensures { IfOk result (λ goes. IsTrue goes → IsRunFrom checked.now (central_of checked.now state.old) outer.now) }
{
    match outer {
        [] => Ok(true),
        [entries, more @ ..] => match step_if_run(alloc, checked, state, entries.as_slice())? {
            None => Ok(false),
            Some(_) => goes_on(alloc, checked, state, more),
        },
    }
}

fn is_run(alloc: Global, checked: &Checked, outer: &[List<Entry>]) -> Result<bool, NoMemory>
    ensures { IfOk result (λ is. IsTrue is → IsRun checked.now outer.now) }
{
    let mut state = CentralState::first(alloc, checked)?;
    goes_on(alloc, checked, &mut state, outer)
}

// Whether the units of the entries don't fall, from this unit on.
fn rises(from: u32, entries: &[Entry]) -> bool
    ensures { result ≡ rises from entries.now }
{
    match entries {
        [] => true,
        [first, more @ ..] => from <= first.unit.0 && rises(first.unit.0, more),
    }
}

fn all_rise(outer: &[List<Entry>]) -> bool
    ensures { result ≡ list_all (rises 0) outer.now }
{
    outer.iter().all(|entries| rises(0, entries.as_slice()))
}

fn is_first_empty(outer: &[List<Entry>]) -> bool
    ensures { IsTrue result → entries_at outer.now 1 ≡ [] }
{
    match outer {
        [] => true,
        [first, ..] => first.is_empty(),
    }
}

fn is_shared_run(alloc: Global, checked: &Checked, outer: &[List<Entry>]) -> Result<bool, NoMemory>
    ensures { IfOk result (λ is. IsTrue is → IsSharedRun checked.now outer.now) }
{
    Ok(
        is_run(alloc, checked, outer)?
            && is_first_empty(outer)
            && all_rise(outer)
            && outer.len() <= MAX_STEPS as usize,
    )
}

/// What each unit contributes to each step. Refuses lists that are no such run of the chart.
pub fn shares_of(
    alloc: Global,
    checked: &Checked,
    parts: &[Part],
    outer: &[List<Entry>],
) -> Result<List<List<Update>>, Fail>
    requires { parts.now ≡ map (part_of checked.now) (range_with_len 0 (length checked.now.units)) }
{
    if !is_shared_run(alloc, checked, outer)? {
        Err("no run")?;
    }
    Ok(shares(alloc, checked, parts, outer)?)
}

/// The parts of all units of the chart, in unit order.
pub fn parts_in(alloc: Global, checked: &Checked) -> Result<Vec<Part>, NoMemory>
    ensures { IfOk result (λ parts. parts.items ≡ map (part_of checked.now) (range_with_len 0 (length checked.now.units))) }
{
    let flat = orthogonalise(alloc, checked)?;
    parts_of(alloc, checked, &flat)
}

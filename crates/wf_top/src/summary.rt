//! The summary of a play, for the command `bulk`.
ghost use Rattle.std.specs.Fmt.{decimal};
ghost use Rattle.std.specs.Prelude.{◌≡◌, ◌-◌, ◌++◌, ◌≤◌, false, length, take, map, flat_map, slice_get, option_map, IfOk, OnOk};
ghost use Rattle.wf_model.specs.Limits.{max_steps};
ghost use Rattle.wf_semantics.specs.Run.{first_state};
ghost use Rattle.wf_runs.specs.Runs.{IsRun};
ghost use Rattle.wf_machine.specs.Machine.{entry_of, merged_places};
ghost use Rattle.wf_world.specs.States.{state_of};
ghost use Rattle.wf_top.specs.Places as placed;
ghost use Rattle.wf_top.specs.Summaries as spec;

use std::alloc::Global;
use wf_central::CentralState;
use wf_machine::Place;
use wf_model::{Bytes, Checked, Duplicate, Entry, List, NoMemory, UnitId};
use wf_steps::Admission;
use wf_words::append_number;
use wf_world::World;

// In how many steps the transitions are counted: as many as a generated script has rounds.
const STEPS: usize = 1004;

// The entry of a unit's admission with this number, where numbers count from 1.
fn entry_numbered(
    alloc: Global,
    unit: UnitId,
    admissions: &[Admission],
    number: u64,
) -> Result<Option<Entry>, NoMemory>
    ensures { IfOk result (λ entry.
        entry ≡ option_map (λ a. entry_of unit.0 a.outer) (slice_get admissions.now (number - 1))) }
{
    match admissions.get(number.saturating_sub(1) as usize) {
        Some(admission) => {
            let outer = admission.outer.copy(alloc)?;
            Ok(Some(Entry { unit, outer }))
        }
        None => Ok(None),
    }
}

// What stands at a place of the merged list.
fn entry_at(alloc: Global, world: &World, place: Place) -> Result<Option<Entry>, NoMemory>
    ensures { IfOk result (λ entry. entry ≡ placed.entry_at (state_of world.now).machine place) }
{
    match world.history(place.unit) {
        Some(history) => entry_numbered(alloc, place.unit, history.admissions(), place.number),
        None => Ok(None),
    }
}

// Adds what stands at a place.
fn add_entry(
    alloc: Global,
    world: &World,
    entries: &mut List<Entry>,
    place: Place,
) -> Result<(), NoMemory>
    ensures { let m = (state_of world.now).machine in
        OnOk result (entries.new ≡ entries.old ++ placed.entries_of m place) }
{
    match entry_at(alloc, world, place)? {
        Some(entry) => entries.push(entry),
        None => Ok(()),
    }
}

// The entries of a step, by their places.
fn step_entries(alloc: Global, world: &World, step: &[Place]) -> Result<List<Entry>, NoMemory>
    ensures { let m = (state_of world.now).machine in
        IfOk result (λ entries. entries ≡ flat_map (placed.entries_of m) step.now) }
{
    let mut entries = List::new(alloc);
    for place in step {
        add_entry(alloc, world, &mut entries, *place)?;
    }
    Ok(entries)
}

// Those of all steps.
fn all_entries(
    alloc: Global,
    world: &World,
    merged: &[List<Place>],
) -> Result<List<List<Entry>>, NoMemory>
    ensures { let m = (state_of world.now).machine in
        IfOk result (λ steps. steps ≡ map (flat_map (placed.entries_of m)) merged.now) }
{
    let mut steps = List::new(alloc);
    for step in merged {
        steps.push(step_entries(alloc, world, step.as_slice())?)?;
    }
    Ok(steps)
}

// How many transitions fire in a central run with these lists of entries.
fn fired_count(alloc: Global, checked: &Checked, steps: &[List<Entry>]) -> Result<usize, NoMemory>
    requires run { IsRun checked.now steps.now }
    requires few { length steps.now ≤ max_steps }
    ensures { IfOk result (λ count.
        count ≡ length (spec.fired_along checked.now (first_state checked.now) steps.now)) }
{
    let mut state = CentralState::first(alloc, checked)?;
    let mut fired = List::new(alloc);
    for entries in steps {
        let notes = state.step(alloc, checked, entries.as_slice())?;
        fired.append(notes.fired.as_slice())?;
    }
    Ok(fired.len())
}

// How many fire in the first steps of a world's merged list.
fn fired_at_first(alloc: Global, world: &World, merged: &[List<Place>]) -> Result<usize, NoMemory>
    requires list { merged.now ≡ merged_places (state_of world.now).machine }
    requires whole { world.now.lost ≡ false }
    ensures { let chart = world.now.chart in
        let steps = take 1004 (spec.merged_entries (state_of world.now).machine) in
        IfOk result (λ count. count ≡ length (spec.fired_along chart (first_state chart) steps)) }
{
    // For the prover: the histories of a world agree, so their merged list is a run.
    let _history = world.history(UnitId(0));
    let steps = all_entries(alloc, world, merged)?;
    let counted = &steps.as_slice()[..STEPS.min(steps.len())];
    fired_count(alloc, world.checked(), counted)
}

// All places of the merged list.
fn all_places(alloc: Global, merged: &[List<Place>]) -> Result<List<Place>, NoMemory>
    ensures { IfOk result (λ all. all ≡ flat_map (λ places. places) merged.now) }
{
    let mut all = List::new(alloc);
    for step in merged {
        all.append(step.as_slice())?;
    }
    Ok(all)
}

// Adds a word, and a number in decimal.
fn append_count(text: &mut Bytes, word: &[u8], count: u64) -> Result<(), NoMemory>
    ensures { OnOk result (text.new ≡ text.old ++ word.now ++ decimal count) }
{
    text.append(word)?;
    append_number(text, count)
}

/// The line that sums up a play of the input of this number, where this is the world after it, with its merged list. Grows with
/// the merged list, and with a central run over it.
#[tactic(auto, using(crate::proofs::Summaries::merged_length), unfolding(crate::specs::Summaries::summary_line))]
pub fn summary_line(
    alloc: Global,
    number: u32,
    world: &World,
    merged: &[List<Place>],
) -> Result<Bytes, NoMemory>
    requires list { merged.now ≡ merged_places (state_of world.now).machine }
    requires whole { world.now.lost ≡ false }
    ensures { IfOk result (λ text.
        text ≡ spec.summary_line number world.now.chart (state_of world.now).machine) }
{
    let fired = fired_at_first(alloc, world, merged)?;
    let admitted = all_places(alloc, merged)?;
    let mut text = List::new(alloc);
    append_count(&mut text, b"bulk ", u64::from(number))?;
    // The merged list goes two steps past the last one that every unit has taken.
    append_count(&mut text, b" steps ", merged.len() as u64 - 2)?;
    append_count(&mut text, b" admitted ", admitted.len() as u64)?;
    append_count(&mut text, b" fired ", fired as u64)?;
    text.append(b"\n")?;
    Ok(text)
}

//! What entries complete.
ghost use Rattle.std.specs.Prelude.{◌≡◌, ℕ, ◌+◌, ◌<◌, ◌≤◌, [], ◌∷◌, length, map, IfOk, IfSome};
ghost use Rattle.std.specs.List.{range_with_len};
ghost use Rattle.wf_model.specs.Accepted.{IsAccepted};
ghost use Rattle.wf_semantics.specs.Items.{open_count, close_all};
ghost use Rattle.wf_semantics.specs.Run.{completions_at, open_now, done_now};
ghost use Rattle.wf_activities.specs.Completed.{completed_at, done_by, CompleteInTurn};
ghost use Rattle.wf_activities.specs.Stock.{items_in};

use crate::{Items, admission};
use std::alloc::Global;
use wf_model::{ActId, Chart, Entry, List, NoMemory, Outer, UnitId};

// The activity of which an entry completes an item, if it is one of the entry's unit.
fn completion_of(chart: &Chart, entry: &Entry) -> Option<ActId>
    ensures value { result ≡ completed_at chart.now entry.now.unit.0 entry.now.outer }
    ensures known { IfSome result (λ a. a.0 < length chart.now.acts) }
{
    match &entry.outer {
        Outer::Happen(_) => None,
        Outer::Complete { act, .. } => {
            if admission::is_act_at(chart, entry.unit, *act) {
                Some(*act)
            } else {
                None
            }
        }
    }
}

fn zeros(alloc: Global, chart: &Chart) -> Result<Vec<usize>, NoMemory>
    ensures { IfOk result (λ counts. counts.items ≡ map (done_by chart.now []) (range_with_len 0 (length chart.now.acts))) }
{
    let mut counts = Vec::new(alloc);
    for _act in chart.acts.as_slice() {
        counts.push(0)?;
    }
    Ok(counts)
}

/// For each activity, how many of its items these entries complete at its unit. Grows with the activities and the entries.
pub fn done_counts(alloc: Global, chart: &Chart, entries: &[Entry]) -> Result<Vec<usize>, NoMemory>
    ensures { IfOk result (λ counts. counts.items ≡ map (done_by chart.now entries.now) (range_with_len 0 (length chart.now.acts))) }
{
    let mut counts = zeros(alloc, chart)?;
    for entry in entries {
        if let Some(act) = completion_of(chart, entry) {
            counts[act.0 as usize] += 1;
        }
    }
    Ok(counts)
}

// How many items of an activity are open at its unit, once so many of them are closed.
fn open_at(units: &[Items], act: ActId, unit: UnitId, done: usize) -> u32
    requires within { unit.0 < length units.now }
    requires few { done ≤ open_count act.0 (items_in units.now unit.0) }
    ensures { result + done ≡ open_count act.0 (items_in units.now unit.0) }
{
    units[unit.0 as usize].open_count(act) - done as u32
}

/// For each activity, how many of its items are open once these entries have closed theirs. Grows with the activities and the
/// entries.
pub fn open_counts_then(
    alloc: Global,
    chart: &Chart,
    units: &[Items],
    entries: &[Entry],
) -> Result<List<u32>, NoMemory>
    requires accepted { IsAccepted chart.now }
    requires units { length units.now ≡ length chart.now.units }
    requires turn { CompleteInTurn (items_in units.now) entries.now }
    ensures { IfOk result (λ counts. counts ≡ map (open_now chart.now (items_in units.now) entries.now) (range_with_len 0 (length chart.now.acts))) }
{
    let done = done_counts(alloc, chart, entries)?;
    let mut counts = List::new(alloc);
    for (a, act) in chart.acts.as_slice().iter().enumerate() {
        counts.push(open_at(units, ActId(a as u32), act.unit, done[a]))?;
    }
    Ok(counts)
}

/// For each activity, whether these entries complete an item of it at its unit. Grows with the activities and the entries.
pub fn done_bits(alloc: Global, chart: &Chart, entries: &[Entry]) -> Result<List<bool>, NoMemory>
    ensures { IfOk result (λ bits. bits ≡ map (done_now chart.now entries.now) (range_with_len 0 (length chart.now.acts))) }
{
    let counts = done_counts(alloc, chart, entries)?;
    let mut bits = List::new(alloc);
    for count in counts.as_slice() {
        bits.push(*count > 0)?;
    }
    Ok(bits)
}

fn close_one(units: &mut [Items], entry: &Entry)
    requires { CompleteInTurn (items_in units.old) (entry.now ∷ []) }
    ensures items { (u : ℕ) → items_in units.new u ≡ close_all (completions_at u (entry.now ∷ [])) (items_in units.old u) }
    ensures steps { map (λ i. i.steps) units.new ≡ map (λ i. i.steps) units.old }
    ensures rooms { map (λ i. i.room) units.new ≡ map (λ i. i.room) units.old }
{
    if let Outer::Complete { item, .. } = entry.outer {
        units[entry.unit.0 as usize].close(item);
    }
}

/// Closes the items that these entries complete. Grows with the entries.
pub fn close_completed(units: &mut [Items], entries: &[Entry])
    requires { CompleteInTurn (items_in units.old) entries.now }
    ensures items { (u : ℕ) → items_in units.new u ≡ close_all (completions_at u entries.now) (items_in units.old u) }
    ensures steps { map (λ i. i.steps) units.new ≡ map (λ i. i.steps) units.old }
    ensures rooms { map (λ i. i.room) units.new ≡ map (λ i. i.room) units.old }
{
    for entry in entries {
        close_one(units, entry);
    }
}

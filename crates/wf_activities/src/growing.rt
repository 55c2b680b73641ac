//! The starts of a step, at all units.
ghost use Rattle.std.specs.Prelude.{◌≡◌, ℕ, ◌+◌, ◌<◌, ◌≤◌, ◌^◌, ◌++◌, [], ◌∷◌, length, map, filter, slice_index, OnOk};
ghost use Rattle.wf_model.specs.Accepted.{IsAccepted};
ghost use Rattle.wf_semantics.specs.Run.{is_at, new_items};
ghost use Rattle.wf_activities.specs.Stock.{items_in, steps_in, room_in};

use crate::Items;
use wf_model::{Chart, NoMemory, StartAt};

/// Makes room at each unit, up to so many items of it, and no more. Grows with the units. After `NoMemory` the items are as
/// before.
pub fn reserve(units: &mut [Items], lengths: &[u32]) -> Result<(), NoMemory>
    requires long { length lengths.now ≡ length units.old }
    requires more { (u : ℕ) → length (items_in units.old u) ≤ slice_index lengths.now u }
    ensures items { map (λ i. i.items) units.new ≡ map (λ i. i.items) units.old }
    ensures steps { map (λ i. i.steps) units.new ≡ map (λ i. i.steps) units.old }
    ensures room { OnOk result ((u : ℕ) → u < length units.new → slice_index lengths.now u ≤ length (items_in units.new u) + room_in units.new u) }
{
    for (u, length) in lengths.iter().enumerate() {
        let more = *length - units[u].len() as u32;
        units[u].reserve(more)?;
    }
    Ok(())
}

// Adds a start as an item of this step, at the unit of its activity. One of an activity that the chart doesn't have adds none.
fn grow_one(units: &mut [Items], chart: &Chart, step: u32, start: &StartAt)
    requires accepted { IsAccepted chart.now }
    requires units { length units.old ≡ length chart.now.units }
    requires room { (u : ℕ) → u < length units.old → length (filter (is_at chart.now u) (start.now ∷ [])) ≤ room_in units.old u }
    requires few { (u : ℕ) → length (items_in units.old u) + 1 < 2 ^ 32 }
    ensures items { (u : ℕ) → items_in units.new u ≡ items_in units.old u ++ new_items chart.now u (start.now ∷ []) }
    ensures steps { (u : ℕ) → steps_in units.new u ≡ steps_in units.old u ++ map (λ s. step) (filter (is_at chart.now u) (start.now ∷ [])) }
    ensures room { (u : ℕ) → room_in units.old u ≤ room_in units.new u + length (filter (is_at chart.now u) (start.now ∷ [])) }
{
    if let Some(activity) = chart.acts.get(start.act.0 as usize) {
        units[activity.unit.0 as usize].push(start.act, step);
    }
}

/// Adds each start as an item of this step, at the unit of its activity. There is room for all of them. Grows with the starts.
pub fn grow(units: &mut [Items], chart: &Chart, step: u32, starts: &[StartAt])
    requires accepted { IsAccepted chart.now }
    requires units { length units.old ≡ length chart.now.units }
    requires room { (u : ℕ) → u < length units.old → length (filter (is_at chart.now u) starts.now) ≤ room_in units.old u }
    requires few { (u : ℕ) → length (items_in units.old u) + length starts.now < 2 ^ 32 }
    ensures items { (u : ℕ) → items_in units.new u ≡ items_in units.old u ++ new_items chart.now u starts.now }
    ensures steps { (u : ℕ) → steps_in units.new u ≡ steps_in units.old u ++ map (λ s. step) (filter (is_at chart.now u) starts.now) }
{
    for start in starts {
        grow_one(units, chart, step, start);
    }
}

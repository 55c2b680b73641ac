//! The run of all parts side by side.
ghost use Rattle.std.specs.Prelude.{◌≡◌, ◌+◌, ◌≤◌, ℕ, All, length, map, IfOk, OnOk};
ghost use Rattle.std.specs.List.{range_with_len};
ghost use Rattle.wf_model.specs.Limits.{max_units, max_steps};
ghost use Rattle.wf_parts.specs.declared.data.PartData.{PartData};
ghost use Rattle.wf_views.specs.Views.{View as AnyView, first_view};
ghost use Rattle.wf_views.specs.OwnSteps.{own_update};
ghost use Rattle.wf_views.specs.Absorbing.{absorbed};
ghost use Rattle.wf_lockstep.specs.Shares.{entries_at, outers_to};
ghost use Rattle.wf_lockstep.specs.Lock.{lock_update, outers_by};
ghost use Rattle.wf_flat.specs.Locking.{AreViews, HasFewStarts, HasRoomFor};

use crate::steps::bounded_step;
use std::alloc::Global;
use wf_model::{Duplicate, Entry, List, NoMemory, Outer, Update};
use wf_parts::Part;
use wf_updates::View;

// The first view of each part.
fn first_views(alloc: Global, parts: &[Part]) -> Result<Vec<View>, NoMemory>
    ensures { IfOk result (λ views. views.items ≡ map first_view parts.now) }
{
    let mut views = Vec::new(alloc);
    for part in parts {
        views.push(View::first(alloc, part)?)?;
    }
    Ok(views)
}

// The outers that come to a unit with these entries.
fn outers_to(alloc: Global, entries: &[Entry], unit: usize) -> Result<List<Outer>, NoMemory>
    ensures { IfOk result (λ outers. outers ≡ outers_to unit entries.now) }
{
    let mut outers = List::new(alloc);
    for entry in entries {
        if entry.unit.0 as usize == unit {
            outers.push(entry.outer.copy(alloc)?)?;
        }
    }
    Ok(outers)
}

// The entries of this list of a run, none past the last one.
fn entries_of(outer: &[List<Entry>], at: usize) -> &[Entry]
    ensures { result.now ≡ entries_at outer.now (at + 1) }
{
    match outer.get(at) {
        Some(entries) => entries.as_slice(),
        None => &[],
    }
}

// The update of each unit in a step.
fn all_steps(
    alloc: Global,
    parts: &[Part],
    views: &[View],
    step: u32,
    entries: &[Entry],
) -> Result<List<Update>, NoMemory>
    requires same { length views.now ≡ length parts.now }
    requires are { AreViews parts.now views.now }
    ensures steps { (part : ℕ → PartData) (view : ℕ → AnyView) → parts.now ≡ map part (range_with_len 0 (length parts.now)) → views.now ≡ map view (range_with_len 0 (length parts.now)) → IfOk result (λ updates. updates ≡ map (λ u. own_update (part u) step (view u) (outers_to u entries.now)) (range_with_len 0 (length parts.now))) }
    ensures all { IfOk result (λ updates. length updates ≡ length parts.now) }
    ensures few { IfOk result (λ updates. All HasFewStarts updates) }
{
    let mut updates = List::new(alloc);
    for (unit, part) in parts.iter().enumerate() {
        let outers = outers_to(alloc, entries, unit)?;
        let update = bounded_step(alloc, part, &views[unit], step, outers)?;
        updates.push(update)?;
    }
    Ok(updates)
}

// Each view takes in the updates of the step. After `NoMemory` some may have.
fn absorb_all(
    alloc: Global,
    parts: &[Part],
    views: &mut Vec<View>,
    updates: &[Update],
) -> Result<(), NoMemory>
    requires same { length views.old.items ≡ length parts.now }
    requires room { All (HasRoomFor updates.now) views.old.items }
    ensures same { length views.new.items ≡ length parts.now }
    ensures views { (part : ℕ → PartData) (view : ℕ → AnyView) → parts.now ≡ map part (range_with_len 0 (length parts.now)) → views.old.items ≡ map view (range_with_len 0 (length parts.now)) → OnOk result (views.new.items ≡ map (λ u. absorbed (part u) (view u) updates.now) (range_with_len 0 (length parts.now))) }
{
    for unit in 0..parts.len() {
        views[unit].absorb(alloc, &parts[unit], updates)?;
    }
    Ok(())
}

/// The updates of all units in each step, in which each unit makes its update by its part alone, with its outers of the next list of
/// entries, and then takes in the updates of all. There is a part for each unit, in unit order, and no more lists than steps of a run.
/// The entries of the first list come to nobody. It refuses only if memory runs out.
///
/// A step takes each part and its view once, with the greatest of the numbers in them, and for each unit what the updates of the step
/// hold, and the entries that come next.
pub fn lockstep(
    alloc: Global,
    parts: &[Part],
    outer: &[List<Entry>],
) -> Result<List<List<Update>>, NoMemory>
    requires units { length parts.now ≤ max_units }
    requires steps { length outer.now ≤ max_steps }
    ensures { (part : ℕ → PartData) → parts.now ≡ map part (range_with_len 0 (length parts.now)) → IfOk result (λ steps. steps ≡ map (λ j. map (lock_update (length parts.now) part (outers_by outer.now) j) (range_with_len 0 (length parts.now))) (range_with_len 0 (length outer.now))) }
{
    let mut views = first_views(alloc, parts)?;
    let mut steps = List::new(alloc);
    for taken in 0..outer.len() {
        let entries = entries_of(outer, taken + 1);
        let updates = all_steps(alloc, parts, views.as_slice(), taken as u32 + 1, entries)?;
        absorb_all(alloc, parts, &mut views, updates.as_slice())?;
        steps.push(updates)?;
    }
    Ok(steps)
}

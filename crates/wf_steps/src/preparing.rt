//! What a Turn takes in and makes.
ghost use Rattle.std.specs.Prelude.{◌≡◌, ◌≤◌, ◌==◌, ◌++◌, length, insert, filter, take, IfOk, OnOk};
ghost use Rattle.wf_activities.specs.UnitItems.{listed};
ghost use Rattle.wf_views.specs.Absorbing.{starts_in};
ghost use Rattle.wf_worlds.specs.Admitting.{outers};
ghost use Rattle.wf_steps.specs.Items.{in_order};

use crate::Admission;
use std::alloc::Global;
use wf_activities::is_listed;
use wf_model::limits::MAX_TRANSITIONS;
use wf_model::{ActId, Duplicate, List, NoMemory, Outer, StartAt, Update};

/// Copies of the peers' updates, with a copy of the own one at its place, or at the end if there is no such place. In linear time
/// in the updates.
pub fn with_own(
    alloc: Global,
    inputs: &List<Update>,
    at: usize,
    own: &Update,
) -> Result<List<Update>, NoMemory>
    ensures { IfOk result (λ all. all ≡ insert inputs.now at own.now) }
{
    let mut all = inputs.copy(alloc)?.into_vec();
    let own = own.copy(alloc)?;
    let place = at.min(all.len());
    all.insert(place, own)?;
    Ok(List::from_vec(all))
}

/// What the first of these admitted, so many. In linear time in them.
pub fn first_outers(
    alloc: Global,
    admissions: &[Admission],
    count: usize,
) -> Result<List<Outer>, NoMemory>
    requires { count ≤ length admissions.now }
    ensures { IfOk result (λ found. found ≡ outers (take count admissions.now)) }
{
    let mut found = List::new(alloc);
    for admission in &admissions[..count] {
        found.push(admission.outer.copy(alloc)?)?;
    }
    Ok(found)
}

// Adds those of the starts whose activities are listed. After `NoMemory` some may have been added.
fn add_listed(own: &mut List<StartAt>, acts: &[ActId], starts: &[StartAt]) -> Result<(), NoMemory>
    ensures { OnOk result (own.new ≡ own.old ++ listed acts.now starts.now) }
{
    for start in starts {
        if is_listed(acts, start.act) {
            own.push(*start)?;
        }
    }
    Ok(())
}

// Of the starts in the updates those whose activities are listed.
fn listed_in(alloc: Global, acts: &[ActId], all: &[Update]) -> Result<List<StartAt>, NoMemory>
    ensures { IfOk result (λ own. own ≡ listed acts.now (starts_in all.now)) }
{
    let mut own = List::new(alloc);
    for update in all {
        add_listed(&mut own, acts, update.starts.as_slice())?;
    }
    Ok(own)
}

// Adds those of the starts that are by this transition. After `NoMemory` some may have been added.
fn add_by(ordered: &mut List<StartAt>, starts: &[StartAt], trans: u32) -> Result<(), NoMemory>
    ensures { OnOk result (ordered.new ≡ ordered.old ++ filter (λ s. s.trans.0 == trans) starts.now) }
{
    for start in starts {
        if start.trans.0 == trans {
            ordered.push(*start)?;
        }
    }
    Ok(())
}

// The starts by transition, those of one transition as they stand.
fn in_order(alloc: Global, starts: &[StartAt]) -> Result<List<StartAt>, NoMemory>
    ensures { IfOk result (λ ordered. ordered ≡ in_order starts.now) }
{
    let mut ordered = List::new(alloc);
    for trans in 0..MAX_TRANSITIONS as u32 {
        add_by(&mut ordered, starts, trans)?;
    }
    Ok(ordered)
}

/// Of the starts in the updates those whose activities are listed, by transition. In linear time in the updates and in the starts times
/// the listed activities, and if there is a start that is listed, in 1,024 times those.
pub fn listed_starts(
    alloc: Global,
    acts: &[ActId],
    all: &[Update],
) -> Result<List<StartAt>, NoMemory>
    ensures { IfOk result (λ starts. starts ≡ in_order (listed acts.now (starts_in all.now))) }
{
    let own = listed_in(alloc, acts, all)?;
    if own.is_empty() {
        return Ok(own);
    }
    in_order(alloc, own.as_slice())
}

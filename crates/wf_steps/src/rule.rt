//! The rule by which a part lets outers in.
ghost use Rattle.std.specs.Prelude.{◌≡◌, ◌==◌, false, Ok, Err, if◌then◌else◌, find, [], map, IfOk};
ghost use Rattle.std.specs.Option.{option_map_or, option_copied};
ghost use Rattle.wf_model.specs.declared.outer.OuterFault.TheVariants.{WrongUnit};
ghost use Rattle.wf_histories.specs.Follows.{is_own_act};
ghost use Rattle.wf_worlds.specs.Admitting.{is_own_event};
ghost use Rattle.wf_steps.specs.Items.{own_acts};

use std::alloc::Global;
use wf_model::{ActId, EventId, List, NoMemory, OuterFault, Sort, UnitId, VarId};
use wf_parts::{KnownActivity, KnownEvent, PartData};

/// Whether the event is at this unit.
pub fn is_at(event: &KnownEvent, unit: UnitId) -> bool
    ensures { result ≡ option_map_or (λ at. at.0 == unit.0) event.now.unit false }
{
    match event.unit {
        Some(at) => at.0 == unit.0,
        None => false,
    }
}

fn is_own_event(part: &PartData, event: EventId) -> bool
    ensures { result ≡ is_own_event part.now event.0 }
{
    part.events
        .iter()
        .any(|known| known.id.0 == event.0 && is_at(known, part.unit))
}

/// Whether the part lets an event in, or why not. In linear time in the part's events.
pub fn lets_event(part: &PartData, event: EventId) -> Result<(), OuterFault>
    ensures { result ≡ (if is_own_event part.now event.0 then Ok tt else Err WrongUnit) }
{
    if is_own_event(part, event) {
        Ok(())
    } else {
        Err(OuterFault::WrongUnit)
    }
}

/// Whether the activity is the part's own. In linear time in the part's activities.
pub fn is_own_act(part: &PartData, act: ActId) -> bool
    ensures { result ≡ is_own_act part.now act.0 }
{
    part.acts
        .iter()
        .any(|known| known.id.0 == act.0 && known.unit.0 == part.unit.0)
}

// What the part knows of the activity.
fn find_act(part: &PartData, act: ActId) -> Option<&KnownActivity>
    ensures { option_copied result ≡ find (λ known. known.id.0 == act.0) part.now.acts }
{
    part.acts.iter().find(|known| known.id.0 == act.0)
}

/// The variables that a completion of the activity gives, each with its sort. In linear time in the part's activities.
pub fn wanted_by(part: &PartData, act: ActId) -> &[(VarId, Sort)]
    ensures { result.now ≡ option_map_or (λ known. known.outputs) (find (λ known. known.id.0 == act.0) part.now.acts) [] }
{
    match find_act(part, act) {
        Some(known) => known.outputs.as_slice(),
        None => &[],
    }
}

/// The part's own activities. In linear time in its activities.
pub fn own_acts(alloc: Global, part: &PartData) -> Result<List<ActId>, NoMemory>
    ensures { IfOk result (λ acts. acts ≡ own_acts part.now) }
{
    let mut acts = List::new(alloc);
    for known in part.acts.as_slice() {
        if known.unit.0 == part.unit.0 {
            acts.push(known.id)?;
        }
    }
    Ok(acts)
}

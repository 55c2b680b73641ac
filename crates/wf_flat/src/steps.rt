//! What a unit makes of its view.
ghost use Rattle.std.specs.Prelude.{◌≡◌, All, IfOk};
ghost use Rattle.wf_actions.specs.Writes.{merged};
ghost use Rattle.wf_parts.specs.Parts.{IsPart};
ghost use Rattle.wf_parts.specs.Rows.{AreRows};
ghost use Rattle.wf_views.specs.Laws.{IsViewOf};
ghost use Rattle.wf_views.specs.OwnSteps.{own_update, part_step};
ghost use Rattle.wf_flat.specs.Firing.{CanFire};
ghost use Rattle.wf_flat.specs.Locking.{HasFewStarts};
ghost use Rattle.wf_flat.specs.Sighted.{shown_by};

use crate::firing::Firing;
use crate::flips::flips;
use crate::gathered::{Gathered, ascending_events};
use crate::sighting::Sighting;
use std::alloc::Global;
use wf_actions::merge_writes;
use wf_model::{List, NoMemory, Outer, Update, Write};
use wf_parts::{Part, PartData, Rows};
use wf_updates::View;

// The write of each variable that stays.
fn merged_writes(alloc: Global, writes: &[Write]) -> Result<List<Write>, NoMemory>
    ensures { IfOk result (λ stay. stay ≡ merged writes.now) }
{
    let mut stay = List::new(alloc);
    merge_writes(alloc, &mut stay, writes)?;
    Ok(stay)
}

// The update of a step that sees this.
fn step_of(
    alloc: Global,
    part: &PartData,
    rows: &Rows,
    sight: &Sighting,
    step: u32,
    outers: List<Outer>,
) -> Result<Update, NoMemory>
    requires part { IsPart part.now }
    requires can { All (CanFire (shown_by sight.now).seen) part.now.transitions }
    requires rows { AreRows part.now.transitions rows.now }
    ensures { IfOk result (λ update. update ≡ part_step part.now step (shown_by sight.now) outers) }
{
    let firing = Firing::of(alloc, sight, part, rows)?;
    let flips = flips(alloc, sight, &firing.by_number, part.components.as_slice())?;
    let gathered = Gathered::of(
        alloc,
        sight,
        part.transitions.as_slice(),
        firing.by_place.as_slice(),
    )?;
    let writes = merged_writes(alloc, gathered.writes.as_slice())?;
    let raised = ascending_events(alloc, gathered.raised.as_slice())?;
    Ok(Update {
        from: part.unit,
        step,
        flips,
        writes,
        raised,
        starts: gathered.starts,
        fired: gathered.fired,
        outer: outers,
    })
}

/// The update of `own_step`, with how much it starts at most.
pub fn bounded_step(
    alloc: Global,
    part: &Part,
    view: &View,
    step: u32,
    outers: List<Outer>,
) -> Result<Update, NoMemory>
    requires { IsViewOf part.now view.now }
    ensures step { IfOk result (λ update. update ≡ own_update part.now step view.now outers) }
    ensures few { IfOk result HasFewStarts }
{
    let data = part.data();
    let sight = Sighting::of(alloc, data, view)?;
    step_of(alloc, data, part.rows(), &sight, step, outers)
}

/// The update that a unit makes of its view in this step by its part alone: its states that go in or out, the writes of its transitions
/// that fire, merged, the events that these raise, with `fault` where an assigned value is one, their starts by transition and place,
/// their numbers, and these outers. The view is one of this part; its values may be any, and its states need be no
/// configuration. It refuses only if memory runs out.
///
/// In linear time in the part with the words of its rows and in the view, in the nodes of the guards and values that are looked at, and in the
/// greatest of the numbers that stand in the part and the view.
pub fn own_step(
    alloc: Global,
    part: &Part,
    view: &View,
    step: u32,
    outers: List<Outer>,
) -> Result<Update, NoMemory>
    requires { IsViewOf part.now view.now }
    ensures { IfOk result (λ update. update ≡ own_update part.now step view.now outers) }
{
    bounded_step(alloc, part, view, step, outers)
}

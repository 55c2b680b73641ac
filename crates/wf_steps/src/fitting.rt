//! Whether a part takes in an update.
ghost use Rattle.std.specs.Prelude.{◌≡◌, ◌↔◌, IsTrue, flat_map};
ghost use Rattle.std.specs.List.{list_all};
ghost use Rattle.wf_views.specs.Views.{outputs_of};
ghost use Rattle.wf_owns.specs.Sorted.{part_sort, is_fit_value, is_fit_output, is_fit_write, is_fit};
ghost use Rattle.wf_steps.specs.Fitting.{is_state_from, is_event_from, is_act_from, is_outer_from, suits, MayBeReceived, is_input, are_inputs};

use crate::rule::is_at;
use wf_activities::has_sort;
use wf_codec::is_in_range;
use wf_model::{ActId, EventId, Outer, Output, Sort, StateId, UnitId, Update, Val, VarId, Write};
use wf_parts::{Known, PartData};

// The sort of a variable that the part knows.
fn part_sort(part: &PartData, var: VarId) -> Option<Sort>
    ensures { result ≡ part_sort part.now var.0 }
{
    part.vars
        .iter()
        .find(|known| known.id.0 == var.0)
        .map(|known| known.sort)
}

// A variable that is known is given a value of its sort.
fn is_fit_value(part: &PartData, var: VarId, val: &Val) -> bool
    ensures { result ≡ is_fit_value part.now var.0 val.now }
{
    match part_sort(part, var) {
        Some(sort) => has_sort(val, sort),
        None => true,
    }
}

fn are_fit_writes(part: &PartData, writes: &[Write]) -> bool
    ensures { result ≡ list_all (is_fit_write part.now) writes.now }
{
    writes
        .iter()
        .all(|write| is_fit_value(part, write.var, &write.val))
}

fn are_fit_outputs(part: &PartData, outputs: &[Output]) -> bool
    ensures { result ≡ list_all (is_fit_output part.now) outputs.now }
{
    outputs
        .iter()
        .all(|output| is_fit_value(part, output.var, &output.val))
}

fn is_fit_outer(part: &PartData, outer: &Outer) -> bool
    ensures { result ≡ list_all (is_fit_output part.now) (outputs_of outer.now) }
{
    match outer {
        Outer::Happen(_) => true,
        Outer::Complete { outputs, .. } => are_fit_outputs(part, outputs.as_slice()),
    }
}

fn each_fits(part: &PartData, outers: &[Outer]) -> bool
    ensures { result ≡ list_all (λ outer. list_all (is_fit_output part.now) (outputs_of outer)) outers.now }
{
    outers.iter().all(|outer| is_fit_outer(part, outer))
}

fn are_fit_outers(part: &PartData, outers: &[Outer]) -> bool
    ensures { result ≡ list_all (is_fit_output part.now) (flat_map outputs_of outers.now) }
{
    each_fits(part, outers)
}

fn is_state_from(part: &PartData, unit: UnitId, state: StateId) -> bool
    ensures { result ≡ is_state_from part.now unit.0 state }
{
    part.states
        .iter()
        .all(|known| known.id.0 != state.0 || known.unit.0 == unit.0)
}

fn are_states_from(part: &PartData, unit: UnitId, states: &[StateId]) -> bool
    ensures { result ≡ list_all (is_state_from part.now unit.0) states.now }
{
    states.iter().all(|state| is_state_from(part, unit, *state))
}

fn is_event_from(part: &PartData, unit: UnitId, event: EventId) -> bool
    ensures { result ≡ is_event_from part.now unit.0 event.0 }
{
    part.events
        .iter()
        .all(|known| known.id.0 != event.0 || is_at(known, unit))
}

fn is_act_from(part: &PartData, unit: UnitId, act: ActId) -> bool
    ensures { result ≡ is_act_from part.now unit.0 act.0 }
{
    part.acts
        .iter()
        .all(|known| known.id.0 != act.0 || known.unit.0 == unit.0)
}

fn is_outer_from(part: &PartData, unit: UnitId, outer: &Outer) -> bool
    ensures { result ≡ is_outer_from part.now unit.0 outer.now }
{
    match outer {
        Outer::Happen(event) => is_event_from(part, unit, *event),
        Outer::Complete { act, .. } => is_act_from(part, unit, *act),
    }
}

fn are_outers_from(part: &PartData, unit: UnitId, outers: &[Outer]) -> bool
    ensures { result ≡ list_all (is_outer_from part.now unit.0) outers.now }
{
    outers.iter().all(|outer| is_outer_from(part, unit, outer))
}

// Whether the part takes in the update's values.
fn is_sorted(part: &PartData, update: &Update) -> bool
    ensures { result ≡ is_fit part.now update.now }
{
    are_fit_writes(part, update.writes.as_slice()) && are_fit_outers(part, update.outer.as_slice())
}

// Whether the part takes in the update, as far as the part tells.
fn suits(part: &PartData, update: &Update) -> bool
    ensures { result ≡ suits part.now update.now }
{
    are_states_from(part, update.from, update.flips.as_slice())
        && are_outers_from(part, update.from, update.outer.as_slice())
        && is_sorted(part, update)
}

/// Whether a part takes in an update of another unit: it is in the ranges of its bytes, what the part knows of its states, events and
/// activities is at its sender, and it gives no known variable a value of another sort. In linear time in the update times the part.
/// Takes no memory.
pub fn is_fit(part: &PartData, update: &Update) -> bool
    ensures { IsTrue result ↔ MayBeReceived part.now update.now }
{
    is_in_range(update) && suits(part, update)
}

fn is_input(part: &PartData, step: u32, peer: &Known, update: &Update) -> bool
    ensures { result ≡ is_input part.now step peer.now update.now }
{
    update.from.0 == peer.unit.0 && update.step == step && suits(part, update)
}

/// Whether these are updates of this step that suit the part, one of each peer, in unit order. In linear time in the updates times the
/// part. Takes no memory.
pub fn are_inputs(part: &PartData, step: u32, inputs: &[Update]) -> bool
    ensures { result ≡ are_inputs part.now step inputs.now }
{
    let peers = part.peers.as_slice();
    if peers.len() != inputs.len() {
        return false;
    }
    for i in 0..peers.len() {
        if !is_input(part, step, &peers[i], &inputs[i]) {
            return false;
        }
    }
    true
}

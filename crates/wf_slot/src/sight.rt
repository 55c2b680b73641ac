//! What a unit shows.
ghost use Rattle.std.specs.Prelude.{◌≡◌, IfOk};
ghost use Rattle.wf_slot.specs.Shown.{shown, states_in};

use std::alloc::Global;
use wf_machine::Sight;
use wf_model::{Bits, List, NoMemory, StateId};
use wf_parts::{Component, PartData};
use wf_updates::View;

// The states of these components that are in.
fn own_states(
    alloc: Global,
    components: &[Component],
    inside: &Bits,
) -> Result<List<StateId>, NoMemory>
    ensures { IfOk result (λ states. states ≡ states_in inside.now components.now) }
{
    let mut states = List::new(alloc);
    for component in components {
        if inside.has(component.state.0 as usize) {
            states.push(component.state)?;
        }
    }
    Ok(states)
}

/// The sight of the unit of this part, from its view after so many steps, with so many admissions. In linear time in the part
/// and the view.
pub(crate) fn sight(
    alloc: Global,
    part: &PartData,
    view: &View,
    taken: u32,
    admitted: u64,
) -> Result<Sight, NoMemory>
    ensures { IfOk result (λ sight. sight ≡ shown part.now view.now taken admitted) }
{
    let inside = view.states_inside(alloc)?;
    Ok(Sight {
        unit: part.unit,
        taken,
        admitted,
        states: own_states(alloc, part.components.as_slice(), &inside)?,
        vars: List::from_slice(alloc, view.vars())?,
    })
}

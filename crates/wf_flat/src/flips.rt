//! Which states of a unit go in or out.
ghost use Rattle.std.specs.Prelude.{◌≡◌, map, filter, IfOk};
ghost use Rattle.wf_parts.specs.Components.{is_in_after};
ghost use Rattle.wf_semantics.specs.Snapshot.{is_active};
ghost use Rattle.wf_views.specs.OwnSteps.{differs};
ghost use Rattle.wf_flat.specs.Firing.{holds};
ghost use Rattle.wf_flat.specs.Sighted.{shown_by};

use crate::firing::has_any;
use crate::sighting::Sighting;
use std::alloc::Global;
use wf_model::{List, NoMemory, StateId};
use wf_parts::Component;

// A transition that fires lets the state in; or it was in, and none that fires lets it out.
fn is_in_after(fires: &List<Option<bool>>, component: &Component, before: bool) -> bool
    ensures { result ≡ is_in_after (holds fires.now) component.now before }
{
    has_any(fires, component.enter.as_slice())
        || (before && !has_any(fires, component.leave.as_slice()))
}

// Whether just one of the two holds.
fn differs(one: bool, other: bool) -> bool
    ensures { result ≡ differs one other }
{
    if one { !other } else { other }
}

/// The states of these components that go in or out where these transitions fire. In linear time in the components and their
/// transitions.
pub fn flips(
    alloc: Global,
    sight: &Sighting,
    fires: &List<Option<bool>>,
    components: &[Component],
) -> Result<List<StateId>, NoMemory>
    ensures { let inside = is_active (shown_by sight.now).seen in
        IfOk result (λ ids. ids ≡ map (λ c. c.state) (filter (λ c. differs (inside c.state.0) (is_in_after (holds fires.now) c (inside c.state.0))) components.now)) }
{
    let mut ids = List::new(alloc);
    for component in components {
        let before = sight.is_active(component.state);
        if differs(before, is_in_after(fires, component, before)) {
            ids.push(component.state)?;
        }
    }
    Ok(ids)
}

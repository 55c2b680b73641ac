//! Calls of parts and views that no command makes, each once.
ghost use Rattle.std.specs.Prelude.{◌≡◌};
ghost use Rattle.wf_parts.specs.Components.{flat_of};

use crate::beside::absorb_if_room;
use crate::charts::TWO;
use crate::made::checked_of;
use std::alloc::Global;
use std::process::Abort;
use std::test::Fail;
use wf_model::{Bytes, Checked, EventId, List, NoMemory, StateId, Update, Val};
use wf_ortho::{guard_text, orthogonalise};
use wf_parts::{Flat, Part};
use wf_updates::View;

// The line of a component, or none for who is no state.
fn component_line(
    alloc: Global,
    checked: &Checked,
    flat: &Flat,
    state: StateId,
) -> Result<Option<Bytes>, NoMemory>
    requires { flat.now ≡ flat_of checked.now }
{
    if state.0 as usize >= checked.chart().states.len() {
        return Ok(None);
    }
    Ok(Some(guard_text(alloc, checked, flat, state)?))
}

// Checks the line of a component.
fn check_line(
    rt: &impl Abort,
    alloc: Global,
    checked: &Checked,
    flat: &Flat,
    state: u32,
    wanted: &str,
) -> Result<(), Fail>
    requires { flat.now ≡ flat_of checked.now }
{
    let line = component_line(alloc, checked, flat, StateId(state))?.ok_or("no state")?;
    assert_eq!(rt; line.as_slice(), wanted.as_bytes(), "state {state}");
    Ok(())
}

// The states of the chart with two units, and the line of each one's component.
const COMPONENTS: [(u32, &str); 3] = [
    (0, "component R in enter leave\n"),
    (1, "component P in enter leave t0\n"),
    (2, "component Q out enter t0 leave\n"),
];

fn check_components(
    rt: &impl Abort,
    alloc: Global,
    checked: &Checked,
    flat: &Flat,
) -> Result<(), Fail>
    requires { flat.now ≡ flat_of checked.now }
{
    for (state, wanted) in COMPONENTS {
        check_line(rt, alloc, checked, flat, state, wanted)?;
    }
    Ok(())
}

fn check_chart(rt: &impl Abort, alloc: Global, checked: &Checked) -> Result<(), Fail> {
    let flat = orthogonalise(alloc, checked)?;
    check_components(rt, alloc, checked, &flat)
}

#[test]
fn components(rt: HostRuntime) -> Result<(), Fail> {
    let checked = checked_of(rt.alloc(), TWO)?;
    check_chart(&rt, rt.alloc(), &checked)
}

// Whether two views have the same states, values, events and counts.
fn are_alike(left: &View, right: &View) -> bool {
    left.states() == right.states()
        && left.vars() == right.vars()
        && left.raised() == right.raised()
        && left.open_counts() == right.open_counts()
}

// Whether this state is in before the next step.
fn is_inside(alloc: Global, view: &View, state: usize) -> Result<bool, NoMemory> {
    let inside = view.states_inside(alloc)?;
    Ok(inside.has(state))
}

// Whether the first variable has this value in the next step.
fn is_first_var(alloc: Global, view: &View, value: i64) -> Result<bool, NoMemory> {
    let vars = view.vars_now(alloc)?;
    Ok(vars.get(0) == Some(&Some(Val::Int(value))))
}

// Whether the first activity has this many open items in the next step.
fn is_first_count(alloc: Global, view: &View, count: u32) -> Result<bool, NoMemory> {
    let counts = view.open_counts_now(alloc)?;
    Ok(counts.get(0) == Some(&Some(count)))
}

// Whether an item of this activity is completed in the next step.
fn is_done(alloc: Global, view: &View, act: usize) -> Result<bool, NoMemory> {
    let done = view.done_acts_now(alloc)?;
    Ok(done.has(act))
}

// Whether this event is there in the next step.
fn is_there(alloc: Global, view: &View, event: usize) -> Result<bool, NoMemory> {
    let there = view.events_there_now(alloc)?;
    Ok(there.has(event))
}

// Checks a view of the chart after one step, and its copy.
fn check_reads(rt: &impl Abort, alloc: Global, view: &View, copy: &View) -> Result<(), Fail> {
    assert!(rt; are_alike(view, copy), "the copy differs");
    assert_eq!(rt;
        view.next_entries().len(),
        copy.next_entries().len(),
        "the copy's entries"
    );
    assert_eq!(rt; view.raised(), &[] as &[EventId], "events");
    assert!(rt; is_inside(alloc, view, 4)?, "state 4 in the next step");
    assert!(rt;
        is_first_var(alloc, view, 9)?,
        "variable 0 in the next step"
    );
    assert!(rt;
        is_first_count(alloc, view, 0)?,
        "open items in the next step"
    );
    assert!(rt; is_done(alloc, view, 0)?, "activity 0 in the next step");
    assert!(rt; is_there(alloc, view, 1)?, "event 1 in the next step");
    Ok(())
}

// Checks the first view of a unit, once it has taken in the updates of the first step.
fn check_after(
    rt: &impl Abort,
    alloc: Global,
    part: &Part,
    view: &mut View,
    updates: &[Update],
) -> Result<(), Fail> {
    if !absorb_if_room(alloc, part, view, updates)? {
        Err("no room")?;
    }
    let copy = view.copy(alloc)?;
    check_reads(rt, alloc, view, &copy)
}

/// Checks the reads of the first unit's view after one step: that state 4 is in, and in the next step
/// variable 0 is 9, no item of activity 0 is open and one is completed, and event 1 is there.
pub fn check_view(
    rt: &impl Abort,
    alloc: Global,
    parts: &[Part],
    steps: &List<List<Update>>,
) -> Result<(), Fail> {
    let updates = steps.get(0).ok_or("no step")?;
    let part = parts.first().ok_or("no unit")?;
    let mut view = View::first(alloc, part)?;
    check_after(rt, alloc, part, &mut view, updates.as_slice())
}

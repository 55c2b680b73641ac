//! The parts' run beside the central run.
ghost use Rattle.std.specs.Prelude.{◌≡◌, ◌*◌, length, nat_le, IsTrue, IfOk};
ghost use Rattle.std.specs.List.{list_all};
ghost use Rattle.wf_model.specs.Limits.{max_transitions, max_actions};
ghost use Rattle.wf_central.specs.Kept.{IsOf};
ghost use Rattle.wf_flat.specs.Locking.{HasRoomFor};

use crate::runs::step_if_run;
use crate::told::{append_head, append_raised, append_value, append_word};
use std::alloc::Global;
use std::process::Abort;
use std::test::Fail;
use wf_central::CentralState;
use wf_flat::{lockstep, own_step};
use wf_model::limits::{MAX_STEPS, MAX_UNITS, MAX_VARS};
use wf_model::{
    ActId, Bytes, Chart, Checked, Duplicate, Entry, EventId, List, NoMemory, Outer, Output, Same,
    StartAt, StateId, StepNotes, TransId, Update, VarId,
};
use wf_ortho::append_transitions;
use wf_parts::{Part, PartData};
use wf_updates::View;
use wf_words::{act_name, append_number};

// Whether no more is started than by all transitions of a chart.
fn has_few_starts(update: &Update) -> bool
    ensures { result ≡ nat_le (length update.now.starts) (max_transitions * max_actions) }
{
    update.starts.len() <= 16_384
}

fn have_few_starts(updates: &[Update]) -> bool
    ensures { result ≡ list_all (λ update. nat_le (length update.starts) (max_transitions * max_actions)) updates.now }
{
    updates.iter().all(has_few_starts)
}

// Whether no more items of any activity are open than one step can start.
fn has_few_open(view: &View) -> bool
    ensures { result ≡ list_all (λ a. nat_le a.1 131072) view.now.unclosed }
{
    view.open_counts().iter().all(|open| open.1 <= 131_072)
}

// Whether the view's counts have room for these updates.
#[tactic(auto, using(crate::proofs::Room::room_for))]
fn has_room(view: &View, updates: &[Update]) -> bool
    ensures { IsTrue result → HasRoomFor updates.now view.now }
{
    updates.len() <= MAX_UNITS && have_few_starts(updates) && has_few_open(view)
}

fn push_first(alloc: Global, part: &Part, views: &mut Vec<View>) -> Result<(), NoMemory> {
    let view = View::first(alloc, part)?;
    views.push(view)?;
    Ok(())
}

fn first_views(alloc: Global, parts: &[Part]) -> Result<Vec<View>, NoMemory> {
    let mut views = Vec::new(alloc);
    for part in parts {
        push_first(alloc, part, &mut views)?;
    }
    Ok(views)
}

/// Takes in the updates of a step. False if the view's counts have no room for them.
pub fn absorb_if_room(
    alloc: Global,
    part: &Part,
    view: &mut View,
    updates: &[Update],
) -> Result<bool, NoMemory> {
    if !has_room(view, updates) {
        return Ok(false);
    }
    view.absorb(alloc, part, updates)?;
    Ok(true)
}

// Each view takes in the updates of a step. False if one has no room for them.
fn absorb_all(
    alloc: Global,
    parts: &[Part],
    views: &mut [View],
    updates: &[Update],
) -> Result<bool, NoMemory> {
    for (part, view) in parts.iter().zip(views) {
        if !absorb_if_room(alloc, part, view, updates)? {
            return Ok(false);
        }
    }
    Ok(true)
}

// The states that the unit knows and that are in.
fn states_in(
    alloc: Global,
    part: &PartData,
    state: &CentralState,
) -> Result<List<StateId>, NoMemory> {
    let mut inside = List::new(alloc);
    for known in part.states.as_slice() {
        if state.is_in(known.id) {
            inside.push(known.id)?;
        }
    }
    Ok(inside)
}

// The values of the variables that the unit knows.
fn values_of(
    alloc: Global,
    part: &PartData,
    state: &CentralState,
) -> Result<List<Output>, NoMemory> {
    let mut values = List::new(alloc);
    for known in part.vars.as_slice() {
        values.push(Output {
            var: known.id,
            val: state.var(known.id),
        })?;
    }
    Ok(values)
}

// The events that the unit knows and that were raised.
fn raised_in(
    alloc: Global,
    part: &PartData,
    state: &CentralState,
) -> Result<List<EventId>, NoMemory> {
    let mut raised = List::new(alloc);
    for known in part.events.as_slice() {
        if state.raised().contains(&known.id) {
            raised.push(known.id)?;
        }
    }
    Ok(raised)
}

fn shows_states(
    alloc: Global,
    part: &PartData,
    view: &View,
    state: &CentralState,
) -> Result<bool, NoMemory> {
    let inside = states_in(alloc, part, state)?;
    Ok(inside.as_slice() == view.states())
}

fn shows_values(
    alloc: Global,
    part: &PartData,
    view: &View,
    state: &CentralState,
) -> Result<bool, NoMemory> {
    let values = values_of(alloc, part, state)?;
    Ok(values.as_slice() == view.vars())
}

fn shows_raised(
    alloc: Global,
    part: &PartData,
    view: &View,
    state: &CentralState,
) -> Result<bool, NoMemory> {
    let raised = raised_in(alloc, part, state)?;
    Ok(raised.as_slice() == view.raised())
}

// Whether the view has of the central state what its unit knows.
fn shows(
    alloc: Global,
    part: &PartData,
    view: &View,
    state: &CentralState,
) -> Result<bool, NoMemory> {
    Ok(
        shows_states(alloc, part, view, state)?
            && shows_values(alloc, part, view, state)?
            && shows_raised(alloc, part, view, state)?,
    )
}

fn all_show(
    alloc: Global,
    parts: &[Part],
    views: &[View],
    state: &CentralState,
) -> Result<bool, NoMemory> {
    for (part, view) in parts.iter().zip(views) {
        if !shows(alloc, part.data(), view, state)? {
            return Ok(false);
        }
    }
    Ok(true)
}

// The transitions that the units say fired.
fn fired_in(alloc: Global, updates: &[Update]) -> Result<List<TransId>, NoMemory> {
    let mut fired = List::new(alloc);
    for update in updates {
        fired.append(update.fired.as_slice())?;
    }
    Ok(fired)
}

// Whether each that fired is told, and no more are told.
fn are_told(fired: &[TransId], told: &[TransId]) -> bool {
    for trans in fired {
        if !told.contains(trans) {
            return false;
        }
    }
    told.len() == fired.len()
}

// Whether the units tell of just the transitions that fired, each once.
fn tell_fired(alloc: Global, fired: &[TransId], updates: &[Update]) -> Result<bool, NoMemory> {
    let told = fired_in(alloc, updates)?;
    Ok(are_told(fired, told.as_slice()))
}

// The starts that the units tell of.
fn starts_in(alloc: Global, updates: &[Update]) -> Result<List<StartAt>, NoMemory> {
    let mut starts = List::new(alloc);
    for update in updates {
        starts.append(update.starts.as_slice())?;
    }
    Ok(starts)
}

// Whether these starts are told, in this order, and no more.
fn are_started(starts: &[(ActId, u32)], told: &[StartAt]) -> bool {
    for (start, told) in starts.iter().zip(told) {
        if start.0 != told.act {
            return false;
        }
    }
    told.len() == starts.len()
}

// Whether the units tell of these starts, in this order.
fn tell_starts(
    alloc: Global,
    starts: &[(ActId, u32)],
    updates: &[Update],
) -> Result<bool, NoMemory> {
    let told = starts_in(alloc, updates)?;
    Ok(are_started(starts, told.as_slice()))
}

fn append_notes(
    alloc: Global,
    text: &mut Bytes,
    chart: &Chart,
    notes: &StepNotes,
) -> Result<(), NoMemory> {
    append_head(text, b"fired", notes.fired.as_slice())?;
    append_transitions(alloc, text, notes.fired.as_slice())?;
    append_head(text, b"starts", notes.starts.as_slice())?;
    for (act, number) in notes.starts.as_slice() {
        append_word(text, act_name(chart, *act))?;
        text.append(b"#")?;
        append_number(text, (*number).into())?;
    }
    Ok(())
}

fn append_vars(text: &mut Bytes, chart: &Chart, state: &CentralState) -> Result<(), NoMemory> {
    for number in 0..MAX_VARS as u32 {
        let Some(variable) = chart.vars.get(number as usize) else {
            break;
        };
        append_word(text, variable.name.as_bytes())?;
        text.append(b"=")?;
        append_value(text, &state.var(VarId(number)))?;
    }
    Ok(())
}

// Appends the line of a step of the central run, and whether the units say the same.
fn append_line(
    alloc: Global,
    text: &mut Bytes,
    chart: &Chart,
    notes: &StepNotes,
    state: &CentralState,
    are_same: bool,
) -> Result<(), NoMemory> {
    append_number(text, state.taken().into())?;
    append_notes(alloc, text, chart, notes)?;
    append_raised(text, chart, state.raised())?;
    append_vars(text, chart, state)?;
    let ending: &[u8] = if are_same { b"\n" } else { b" differs\n" };
    text.append(ending)
}

// The central run beside the views of all units, and the lines of its steps.
#[derive(Drop)]
struct Sides {
    state: CentralState,
    views: Vec<View>,
    text: Bytes,
}

// Both sides before the first step.
fn first_sides(alloc: Global, checked: &Checked, parts: &[Part]) -> Result<Sides, NoMemory>
    ensures { IfOk result (λ sides. IsOf checked.now sides.state) }
{
    let state = CentralState::first(alloc, checked)?;
    let views = first_views(alloc, parts)?;
    let text = List::new(alloc);
    Ok(Sides { state, views, text })
}

// Takes in a step's updates. False if the units don't say of it what the central run says, or their views don't show its state.
fn units_agree(
    alloc: Global,
    parts: &[Part],
    sides: &mut Sides,
    notes: &StepNotes,
    updates: &[Update],
) -> Result<bool, NoMemory>
    ensures { sides.new.state ≡ sides.old.state }
{
    Ok(
        absorb_all(alloc, parts, &mut sides.views, updates)?
            && all_show(alloc, parts, sides.views.as_slice(), &sides.state)?
            && tell_fired(alloc, notes.fired.as_slice(), updates)?
            && tell_starts(alloc, notes.starts.as_slice(), updates)?,
    )
}

// Appends the line of a step that the central run took, which says so if the units differ.
fn append_taken(
    alloc: Global,
    checked: &Checked,
    parts: &[Part],
    sides: &mut Sides,
    notes: &StepNotes,
    updates: &[Update],
) -> Result<bool, NoMemory>
    ensures { sides.new.state ≡ sides.old.state }
{
    let are_same = units_agree(alloc, parts, sides, notes, updates)?;
    append_line(
        alloc,
        &mut sides.text,
        checked.chart(),
        notes,
        &sides.state,
        are_same,
    )?;
    Ok(true)
}

// Takes a step and appends its line. False if the entries may not come in it.
fn append_step(
    alloc: Global,
    checked: &Checked,
    parts: &[Part],
    sides: &mut Sides,
    entries: &[Entry],
    updates: &[Update],
) -> Result<bool, NoMemory>
    requires { IsOf checked.now sides.old.state }
    ensures { IsOf checked.now sides.new.state }
{
    match step_if_run(alloc, checked, &mut sides.state, entries)? {
        None => Ok(false),
        Some(notes) => append_taken(alloc, checked, parts, sides, &notes, updates),
    }
}

// Takes all steps and appends their lines. False if the entries aren't a run.
fn append_steps(
    alloc: Global,
    checked: &Checked,
    parts: &[Part],
    sides: &mut Sides,
    outer: &[List<Entry>],
    steps: &[List<Update>],
) -> Result<bool, NoMemory>
    requires { IsOf checked.now sides.old.state }
{
    for (entries, updates) in outer.iter().zip(steps) {
        if !append_step(
            alloc,
            checked,
            parts,
            sides,
            entries.as_slice(),
            updates.as_slice(),
        )? {
            return Ok(false);
        }
    }
    Ok(true)
}

// Checks the lines of the central run, from both sides before the first step.
fn check_lines(
    rt: &impl Abort,
    alloc: Global,
    checked: &Checked,
    parts: &[Part],
    sides: &mut Sides,
    outer: &[List<Entry>],
    steps: &[List<Update>],
    wanted: &str,
) -> Result<(), Fail>
    requires { IsOf checked.now sides.old.state }
{
    if !append_steps(alloc, checked, parts, sides, outer, steps)? {
        Err("no run")?;
    }
    assert_eq!(rt; sides.text.as_slice(), wanted.as_bytes(), "lines: {wanted}");
    Ok(())
}

// Whether the units' shares are what their parts do side by side.
fn are_locked(
    alloc: Global,
    parts: &[Part],
    outer: &[List<Entry>],
    steps: &List<List<Update>>,
) -> Result<bool, NoMemory> {
    if parts.len() > MAX_UNITS || outer.len() > MAX_STEPS as usize {
        return Ok(false);
    }
    let locked = lockstep(alloc, parts, outer)?;
    Ok(steps.is_same(&locked))
}

// The update that a unit makes of its first view.
fn first_update(alloc: Global, part: &Part, outers: List<Outer>) -> Result<Update, NoMemory> {
    let view = View::first(alloc, part)?;
    own_step(alloc, part, &view, 1, outers)
}

// Whether the unit makes this first update by its part alone.
fn begins_so(alloc: Global, part: &Part, update: &Update) -> Result<bool, NoMemory> {
    let own = first_update(alloc, part, update.outer.copy(alloc)?)?;
    Ok(own.is_same(update))
}

// Whether each unit makes its first update by its part alone.
fn begin_so(alloc: Global, parts: &[Part], updates: &[Update]) -> Result<bool, NoMemory> {
    for (part, update) in parts.iter().zip(updates) {
        if !begins_so(alloc, part, update)? {
            return Ok(false);
        }
    }
    Ok(true)
}

// Checks that the units' shares are what their parts do side by side, and their first ones what each part does alone.
fn check_shares(
    rt: &impl Abort,
    alloc: Global,
    parts: &[Part],
    outer: &[List<Entry>],
    steps: &List<List<Update>>,
) -> Result<(), Fail> {
    assert!(rt;
        are_locked(alloc, parts, outer, steps)?,
        "the shares differ"
    );
    let first = steps.get(0).ok_or("no step")?;
    assert!(rt;
        begin_so(alloc, parts, first.as_slice())?,
        "the first steps differ"
    );
    Ok(())
}

/// Checks that the units' shares are what their parts do side by side, and that the central run has
/// these lines. A line says so if the units differ.
pub fn check_central(
    rt: &impl Abort,
    alloc: Global,
    checked: &Checked,
    parts: &[Part],
    outer: &[List<Entry>],
    steps: &List<List<Update>>,
    wanted: &str,
) -> Result<(), Fail> {
    check_shares(rt, alloc, parts, outer, steps)?;
    let mut sides = first_sides(alloc, checked, parts)?;
    check_lines(
        rt,
        alloc,
        checked,
        parts,
        &mut sides,
        outer,
        steps.as_slice(),
        wanted,
    )
}

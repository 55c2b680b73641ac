//! The passes of a step: which events are there, which transitions are enabled, which are chosen, which fire, which states
//! are in then, and what the fired transitions do besides.
ghost use Rattle.std.specs.Prelude.{◌≡◌, ◌<◌, ◌||◌, ℕ, Bool, true, false, List as Listed, None, All, map, filter, length, is_some, slice_set, IfOk, IfSome};
ghost use Rattle.std.specs.List.{list_any, range_with_len};
ghost use Rattle.wf_model.specs.Accepted.{IsAccepted};
ghost use Rattle.wf_model.specs.Tree.{all_states, all_transitions, ancestors, all_events};
ghost use Rattle.wf_model.specs.Ids.{trans_id};
ghost use Rattle.wf_semantics.specs.Configuration.{Tree};
ghost use Rattle.wf_semantics.specs.Run.{CentralState, is_happening, is_there};
ghost use Rattle.wf_semantics.specs.Shown.{HasSorts};
ghost use Rattle.wf_semantics.specs.Snapshot.{has_event, has_guard, is_ready, is_enabled};
ghost use Rattle.wf_scopes.specs.Tables.{tables_of, ancestor_ids};
ghost use Rattle.wf_model.specs.Bits.{bit};
ghost use Rattle.wf_central.specs.Passes.{at, chosen_by, firing_by, fired_by, first_ids, bit_by, moved_by};
ghost use Rattle.wf_central.specs.Sight.{CanBeRead, was_raised, seeing};
ghost use Rattle.wf_central.specs.Made.{seen_of, AreBits, MakesWalk, IsSeen, MakesStep};

use crate::snapshot::{StepSnapshot, is_set};
use std::alloc::Global;
use wf_effects::effects;
use wf_expr::value;
use wf_model::{
    Bits, Chart, Entry, EventId, Expr, List, NoMemory, Outer, StartAt, StateId, TransId,
    Transition, Val,
};
use wf_scopes::Scopes;

// For each event of the chart, whether it was raised.
fn raised_bits(alloc: Global, chart: &Chart, raised: &[EventId]) -> Result<Bits, NoMemory>
    ensures { IfOk result (λ bits. bits ≡ map (was_raised raised.now) (all_events chart.now)) }
{
    let mut bits = Bits::none(alloc, chart.events.len())?;
    for event in raised {
        bits.set(event.0 as usize);
    }
    Ok(bits)
}

// Marks the event that happens, if this is one.
fn mark_happening(bits: &mut Bits, outer: &Outer)
    ensures { (f : ℕ → Bool) (n : ℕ) → bits.old ≡ map f (range_with_len 0 n) → bits.new ≡ map (λ e. f e || is_happening e outer.now) (range_with_len 0 n) }
{
    match outer {
        Outer::Happen(event) => bits.set(event.0 as usize),
        Outer::Complete { .. } => {}
    }
}

/// For each event of the chart, whether it is there: raised in the last step, or happening in these entries. Grows with
/// the events and the entries.
pub fn events_there(
    alloc: Global,
    chart: &Chart,
    raised: &[EventId],
    entries: &[Entry],
) -> Result<Bits, NoMemory>
    ensures { IfOk result (λ bits. bits ≡ map (is_there raised.now entries.now) (all_events chart.now)) }
{
    let mut bits = raised_bits(alloc, chart, raised)?;
    for entry in entries {
        mark_happening(&mut bits, &entry.outer);
    }
    Ok(bits)
}

fn has_event(there: &Bits, event: Option<EventId>) -> bool
    ensures { result ≡ has_event (bit there.now) event }
{
    match event {
        Some(e) => there.has(e.0 as usize),
        None => true,
    }
}

fn has_guard(snap: &StepSnapshot, guard: &Option<Expr>) -> bool
    requires { IfSome guard.now (CanBeRead (seen_of snap.now)) }
    ensures { result ≡ has_guard (seen_of snap.now) guard.now }
{
    match guard {
        Some(guard) => matches!(value(guard, snap), Ok(Val::Bool(true))),
        None => true,
    }
}

fn is_ready(snap: &StepSnapshot, there: &Bits, transition: &Transition) -> bool
    requires { IfSome transition.now.guard (CanBeRead (seen_of snap.now)) }
    ensures { result ≡ is_ready (seeing (seen_of snap.now) (bit there.now)) transition.now }
{
    is_set(snap.active, transition.source.0 as usize)
        && has_event(there, transition.event)
        && has_guard(snap, &transition.guard)
}

/// For each transition, whether it is enabled: its source is in, its event there and its guard true. A guard is looked at
/// only where the other two hold.
pub fn enabled_bits(
    alloc: Global,
    chart: &Chart,
    snap: &StepSnapshot,
    there: &Bits,
) -> Result<List<bool>, NoMemory>
    requires accepted { IsAccepted chart.now }
    requires sorts { HasSorts chart.now snap.now.store.now }
    ensures { IfOk result (λ bits. bits ≡ map (is_enabled chart.now (seeing (seen_of snap.now) (bit there.now))) (all_transitions chart.now)) }
{
    let mut bits = List::new(alloc);
    for transition in chart.transitions.as_slice() {
        bits.push(is_ready(snap, there, transition))?;
    }
    Ok(bits)
}

// No transition, for each state.
fn none_chosen(alloc: Global, chart: &Chart) -> Result<List<Option<TransId>>, NoMemory>
    ensures { IfOk result (λ table. table ≡ map (λ s. None) (all_states chart.now)) }
{
    let mut table = List::new(alloc);
    for _state in chart.states.as_slice() {
        table.push(None)?;
    }
    Ok(table)
}

/// For each state, the first enabled transition whose scope it is.
pub fn choice_table(
    alloc: Global,
    chart: &Chart,
    scopes: &Scopes,
    ready: &[bool],
) -> Result<List<Option<TransId>>, NoMemory>
    requires of { scopes.now ≡ tables_of chart.now }
    requires accepted { IsAccepted chart.now }
    ensures { IfOk result (λ table. table ≡ map (chosen_by chart.now ready.now) (all_states chart.now)) }
{
    let mut table = none_chosen(alloc, chart)?;
    let mut t = chart.transitions.len();
    while t > 0 {
        t -= 1;
        if is_set(ready, t) {
            let id = TransId(t as u32);
            table.set(scopes.scope(id).0 as usize, Some(id));
        }
    }
    Ok(table)
}

fn entry_at(table: &[Option<TransId>], s: StateId) -> Option<TransId>
    ensures { result ≡ at table.now s.0 }
{
    match table.get(s.0 as usize) {
        Some(entry) => *entry,
        None => None,
    }
}

fn is_held(chosen: &[Option<TransId>], above: &[StateId]) -> bool
    ensures { result ≡ list_any (λ a. is_some (at chosen.now a.0)) above.now }
{
    above.iter().any(|a| entry_at(chosen, *a).is_some())
}

fn firing_at(
    chart: &Chart,
    scopes: &Scopes,
    chosen: &[Option<TransId>],
    s: StateId,
) -> Option<TransId>
    requires of { scopes.now ≡ tables_of chart.now }
    requires in_range { s.0 < length chart.now.states }
    ensures { result ≡ firing_by chart.now chosen.now s.0 }
{
    if is_held(chosen, scopes.lineage(s)) {
        None
    } else {
        entry_at(chosen, s)
    }
}

/// For each state, what fires there: what is chosen, where nothing is chosen above.
pub fn firing_table(
    alloc: Global,
    chart: &Chart,
    scopes: &Scopes,
    chosen: &[Option<TransId>],
) -> Result<List<Option<TransId>>, NoMemory>
    requires of { scopes.now ≡ tables_of chart.now }
    requires accepted { IsAccepted chart.now }
    ensures { IfOk result (λ table. table ≡ map (firing_by chart.now chosen.now) (all_states chart.now)) }
{
    let mut table = List::new(alloc);
    for s in 0..chart.states.len() {
        table.push(firing_at(chart, scopes, chosen, StateId(s as u32)))?;
    }
    Ok(table)
}

fn is_fired(chart: &Chart, scopes: &Scopes, firing: &[Option<TransId>], t: TransId) -> bool
    requires of { scopes.now ≡ tables_of chart.now }
    requires in_range { t.0 < length chart.now.transitions }
    ensures { result ≡ fired_by chart.now firing.now t.0 }
{
    match entry_at(firing, scopes.scope(t)) {
        Some(u) => u.0 == t.0,
        None => false,
    }
}

/// The transitions that fire, ascending.
pub fn fired_transitions(
    alloc: Global,
    chart: &Chart,
    scopes: &Scopes,
    firing: &[Option<TransId>],
) -> Result<List<TransId>, NoMemory>
    requires of { scopes.now ≡ tables_of chart.now }
    requires accepted { IsAccepted chart.now }
    ensures { IfOk result (λ ids. ids ≡ map trans_id (filter (fired_by chart.now firing.now) (all_transitions chart.now))) }
{
    let mut ids = List::new(alloc);
    for t in 0..chart.transitions.len() {
        let id = TransId(t as u32);
        if is_fired(chart, scopes, firing, id) {
            ids.push(id)?;
        }
    }
    Ok(ids)
}

// What fires at the first of these states at which something does.
fn first_of(firing: &[Option<TransId>], above: &[StateId]) -> Option<TransId>
    ensures { result ≡ first_ids firing.now above.now }
{
    for a in above {
        if let Some(t) = entry_at(firing, *a) {
            return Some(t);
        }
    }
    None
}

fn is_in_then(
    chart: &Chart,
    scopes: &Scopes,
    active: &[bool],
    firing: &[Option<TransId>],
    z: StateId,
) -> bool
    requires of { scopes.now ≡ tables_of chart.now }
    requires in_range { z.0 < length chart.now.states }
    requires known { (s : ℕ) → IfSome (at firing.now s) (λ t. t.0 < length chart.now.transitions) }
    ensures { result ≡ moved_by chart.now active.now firing.now z.0 }
{
    match first_of(firing, scopes.lineage(z)) {
        Some(t) => scopes.enters(t, z),
        None => is_set(active, z.0 as usize),
    }
}

/// For each state, whether it is in after the transitions fired.
pub fn active_after(
    alloc: Global,
    chart: &Chart,
    scopes: &Scopes,
    active: &[bool],
    firing: &[Option<TransId>],
) -> Result<List<bool>, NoMemory>
    requires of { scopes.now ≡ tables_of chart.now }
    requires accepted { IsAccepted chart.now }
    requires known { (s : ℕ) → IfSome (at firing.now s) (λ t. t.0 < length chart.now.transitions) }
    ensures { IfOk result (λ bits. bits ≡ map (moved_by chart.now active.now firing.now) (all_states chart.now)) }
{
    let mut bits = List::new(alloc);
    for z in 0..chart.states.len() {
        bits.push(is_in_then(chart, scopes, active, firing, StateId(z as u32)))?;
    }
    Ok(bits)
}

/// What the walk makes: the transitions that fired, ascending, and for each state whether it is in then.
#[derive(Drop)]
pub struct AfterWalk {
    pub fired: List<TransId>,
    pub active: List<bool>,
}

/// The passes from the enabled transitions on: which of them fire, and which states are in then.
pub fn walk(
    alloc: Global,
    chart: &Chart,
    scopes: &Scopes,
    active: &[bool],
    ready: &[bool],
) -> Result<AfterWalk, NoMemory>
    requires of { scopes.now ≡ tables_of chart.now }
    requires accepted { IsAccepted chart.now }
    ensures walk { (c : Tree) (enabled : ℕ → Bool) → AreBits chart.now c enabled active.now ready.now → IfOk result (MakesWalk chart.now c enabled) }
    ensures known { IfOk result (λ after. All (λ t. t.0 < length chart.now.transitions) after.fired) }
{
    let chosen = choice_table(alloc, chart, scopes, ready)?;
    let firing = firing_table(alloc, chart, scopes, chosen.as_slice())?;
    let fired = fired_transitions(alloc, chart, scopes, firing.as_slice())?;
    let active = active_after(alloc, chart, scopes, active, firing.as_slice())?;
    Ok(AfterWalk { fired, active })
}

/// What a step makes, but for the items: the transitions that fired, ascending, for each state whether it is in then, the
/// value of each variable, the raised events, ascending, and the starts, by transition and place.
#[derive(Drop)]
pub struct AfterStep {
    pub fired: List<TransId>,
    pub active: List<bool>,
    pub store: List<Val>,
    pub raised: List<EventId>,
    pub starts: List<StartAt>,
}

/// All passes of a step that sees this snapshot, and these events.
pub fn pass_all(
    alloc: Global,
    chart: &Chart,
    scopes: &Scopes,
    snap: &StepSnapshot,
    there: &Bits,
) -> Result<AfterStep, NoMemory>
    requires of { scopes.now ≡ tables_of chart.now }
    requires accepted { IsAccepted chart.now }
    requires sorts { HasSorts chart.now snap.now.store.now }
    ensures step { (c : CentralState) (entries : Listed Entry) → IsSeen chart.now c entries snap.now there.now → IfOk result (MakesStep chart.now c entries) }
    ensures sorts { IfOk result (λ after. HasSorts chart.now after.store) }
{
    let ready = enabled_bits(alloc, chart, snap, there)?;
    let after = walk(alloc, chart, scopes, snap.active, ready.as_slice())?;
    let effects = effects(alloc, chart, snap, snap.store, after.fired.as_slice())?;
    Ok(AfterStep {
        fired: after.fired,
        active: after.active,
        store: effects.store,
        raised: effects.raised,
        starts: effects.starts,
    })
}

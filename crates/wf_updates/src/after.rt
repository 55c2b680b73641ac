//! The lists of a view after a step.
ghost use Rattle.std.specs.Prelude.{◌≡◌, ◌+◌, ◌-◌, ◌<◌, ◌^◌, ◌==◌, ◌++◌, All, length, map, IfOk, OnOk};
ghost use Rattle.std.specs.List.{list_any, list_all, range_with_len};
ghost use Rattle.wf_model.specs.Bits.{bit};
ghost use Rattle.wf_semantics.specs.Items.{done_count};
ghost use Rattle.wf_views.specs.OwnSteps.{differs};
ghost use Rattle.wf_views.specs.Knowledge.{known_to, cut_entries};
ghost use Rattle.wf_views.specs.Views.{completions_in};
ghost use Rattle.wf_views.specs.Absorbing.{is_flipped, is_raised, start_count, starts_in, entries_in};
ghost use Rattle.wf_updates.specs.Tables.{told_by};
ghost use Rattle.wf_updates.specs.After.{moved, states_after, events_among, value_from, values_by, vars_after, count_by, count_after, counted, entries_from};

use crate::cut::cut_outer;
use crate::gather::{all_flips, all_outputs, all_raised, all_starts, all_writes, completed_acts};
use crate::numbers::{
    event_numbers, known_events, known_states, open_numbers, output_numbers, past_numbers,
    start_numbers, state_numbers,
};
use crate::sets::{KnownSets, bits_below, set_of};
use crate::tables::{count_at, counts_below, last_below, value_at, write_at, writes_below};
use std::alloc::Global;
use wf_model::{
    ActId, Bits, Entry, EventId, List, NoMemory, Outer, Output, StateId, UnitId, Update, Val, Write,
};
use wf_parts::{KnownEvent, KnownState, PartData};

/// The set of these states. In linear time in them and in the greatest of their numbers.
pub fn state_set(alloc: Global, ids: &[StateId]) -> Result<Bits, NoMemory>
    ensures { IfOk result (λ bits. bit bits ≡ (λ s. list_any (λ id. id.0 == s) ids.now)) }
{
    let numbers = state_numbers(alloc, ids)?;
    set_of(alloc, numbers.as_slice())
}

// For each state below the count, whether an update flips it.
fn flipped_below(alloc: Global, count: usize, all: &[Update]) -> Result<Bits, NoMemory>
    ensures { IfOk result (λ bits. bits ≡ map (is_flipped all.now) (range_with_len 0 count)) }
{
    let flips = all_flips(alloc, all)?;
    let numbers = state_numbers(alloc, flips.as_slice())?;
    bits_below(alloc, count, numbers.as_slice())
}

// Whether just one of the two holds.
fn differs(one: bool, other: bool) -> bool
    ensures { result ≡ differs one other }
{
    if one { !other } else { other }
}

// The known states that are in and not flipped, or flipped and not in.
fn states_by_flips(
    alloc: Global,
    known: &[KnownState],
    inside: &Bits,
    flipped: &Bits,
) -> Result<List<StateId>, NoMemory>
    ensures { IfOk result (λ ids. ids ≡ moved known.now (bit inside.now) (bit flipped.now)) }
{
    let mut ids = List::new(alloc);
    for state in known {
        let at = state.id.0 as usize;
        if differs(inside.has(at), flipped.has(at)) {
            ids.push(state.id)?;
        }
    }
    Ok(ids)
}

/// The known states that are in after the step. In linear time.
pub fn states_after(
    alloc: Global,
    known: &[KnownState],
    before: &[StateId],
    all: &[Update],
) -> Result<List<StateId>, NoMemory>
    ensures { IfOk result (λ ids. ids ≡ states_after known.now before.now all.now) }
{
    let inside = state_set(alloc, before)?;
    let numbers = known_states(alloc, known)?;
    let flipped = flipped_below(alloc, past_numbers(numbers.as_slice()), all)?;
    states_by_flips(alloc, known, &inside, &flipped)
}

// For each event below the count, whether an update raises it.
fn raised_below(alloc: Global, count: usize, all: &[Update]) -> Result<Bits, NoMemory>
    ensures { IfOk result (λ bits. bits ≡ map (is_raised all.now) (range_with_len 0 count)) }
{
    let raised = all_raised(alloc, all)?;
    let numbers = event_numbers(alloc, raised.as_slice())?;
    bits_below(alloc, count, numbers.as_slice())
}

// The known events whose bit is set.
fn events_among(
    alloc: Global,
    known: &[KnownEvent],
    raised: &Bits,
) -> Result<List<EventId>, NoMemory>
    ensures { IfOk result (λ ids. ids ≡ events_among known.now (bit raised.now)) }
{
    let mut ids = List::new(alloc);
    for event in known {
        if raised.has(event.id.0 as usize) {
            ids.push(event.id)?;
        }
    }
    Ok(ids)
}

/// The known events that the step raises. In linear time.
pub fn raised_after(
    alloc: Global,
    known: &[KnownEvent],
    all: &[Update],
) -> Result<List<EventId>, NoMemory>
    ensures { IfOk result (λ ids. ids ≡ events_among known.now (is_raised all.now)) }
{
    let gathered = all_raised(alloc, all)?;
    if gathered.is_empty() {
        return Ok(List::new(alloc));
    }
    let numbers = known_events(alloc, known)?;
    let raised = raised_below(alloc, past_numbers(numbers.as_slice()), all)?;
    events_among(alloc, known, &raised)
}

// The value by the write that stays, else by the last output, else the one before.
fn value_from(best: Option<Write>, last: Option<Val>, before: Val) -> Val
    ensures { result ≡ value_from best last before }
{
    match best {
        Some(write) => write.val,
        None => last.unwrap_or(before),
    }
}

// The variables with their values, by these tables.
fn values_by(
    alloc: Global,
    vars: &[Output],
    last: &[Option<Val>],
    best: &[Option<Write>],
) -> Result<List<Output>, NoMemory>
    ensures { IfOk result (λ values. values ≡ values_by vars.now last.now best.now) }
{
    let mut values = List::new(alloc);
    for it in vars {
        let at = it.var.0 as usize;
        let val = value_from(write_at(best, at), value_at(last, at), it.val);
        values.push(Output { var: it.var, val })?;
    }
    Ok(values)
}

/// The variables with their values after the step: by the write that stays, else by the last output, else as before. In linear
/// time.
pub fn vars_after(
    alloc: Global,
    vars: &[Output],
    next: &[Entry],
    all: &[Update],
) -> Result<List<Output>, NoMemory>
    ensures { IfOk result (λ values. values ≡ vars_after vars.now next.now all.now) }
{
    let outputs = all_outputs(alloc, next)?;
    let writes = all_writes(alloc, all)?;
    if outputs.is_empty() && writes.is_empty() {
        return List::from_slice(alloc, vars);
    }
    let numbers = output_numbers(alloc, vars)?;
    let count = past_numbers(numbers.as_slice());
    let last = last_below(alloc, count, outputs.as_slice())?;
    let best = writes_below(alloc, count, writes.as_slice())?;
    values_by(alloc, vars, last.as_slice(), best.as_slice())
}

/// For each activity below the count, how many items the entries complete. In linear time in the count and the entries.
pub fn done_below(alloc: Global, count: usize, next: &[Entry]) -> Result<Vec<u64>, NoMemory>
    ensures { IfOk result (λ counts. counts.items ≡ map (λ a. done_count a (completions_in next.now)) (range_with_len 0 count)) }
{
    let numbers = completed_acts(alloc, next)?;
    counts_below(alloc, count, numbers.as_slice())
}

// For each activity below the count, how many items the updates start.
fn started_below(alloc: Global, count: usize, all: &[Update]) -> Result<Vec<u64>, NoMemory>
    ensures { IfOk result (λ counts. counts.items ≡ map (λ a. start_count a (starts_in all.now)) (range_with_len 0 count)) }
{
    let starts = all_starts(alloc, all)?;
    let numbers = start_numbers(alloc, starts.as_slice())?;
    counts_below(alloc, count, numbers.as_slice())
}

// How many are open, once these were done and those started.
fn open_count(before: u32, done: u64, started: u64) -> u32
    requires { before - done + started < 2 ^ 32 }
    ensures { result ≡ before - done + started }
{
    (u64::from(before).saturating_sub(done) + started) as u32
}

// The activities with their counts, by these tables.
fn counts_by(
    alloc: Global,
    unclosed: &[(ActId, u32)],
    done: &[u64],
    started: &[u64],
) -> Result<List<(ActId, u32)>, NoMemory>
    requires { All (λ a. count_by done.now started.now a < 2 ^ 32) unclosed.now }
    ensures { IfOk result (λ counts. counts ≡ counted (count_by done.now started.now) unclosed.now) }
{
    let mut counts = List::new(alloc);
    for (act, before) in unclosed {
        let at = act.0 as usize;
        let now = open_count(*before, count_at(done, at), count_at(started, at));
        counts.push((*act, now))?;
    }
    Ok(counts)
}

/// The activities, each with how many of its items are open after the step. In linear time.
pub fn open_counts_after(
    alloc: Global,
    unclosed: &[(ActId, u32)],
    next: &[Entry],
    all: &[Update],
) -> Result<List<(ActId, u32)>, NoMemory>
    requires { All (λ a. count_after next.now all.now a < 2 ^ 32) unclosed.now }
    ensures { IfOk result (λ counts. counts ≡ counted (count_after next.now all.now) unclosed.now) }
{
    let completed = completed_acts(alloc, next)?;
    let starts = all_starts(alloc, all)?;
    if completed.as_slice().is_empty() && starts.is_empty() {
        return List::from_slice(alloc, unclosed);
    }
    let numbers = open_numbers(alloc, unclosed)?;
    let count = past_numbers(numbers.as_slice());
    let done = done_below(alloc, count, next)?;
    let started = started_below(alloc, count, all)?;
    counts_by(alloc, unclosed, done.as_slice(), started.as_slice())
}

// Adds the outers of a unit as entries, as far as they are known. After `NoMemory` some may have been added.
fn add_entries(
    alloc: Global,
    entries: &mut List<Entry>,
    unit: UnitId,
    outers: &[Outer],
    known: &KnownSets,
) -> Result<(), NoMemory>
    ensures { OnOk result (entries.new ≡ entries.old ++ entries_from (told_by known.now) unit outers.now) }
{
    for outer in outers {
        if let Some(outer) = cut_outer(alloc, outer, known)? {
            entries.push(Entry { unit, outer })?;
        }
    }
    Ok(())
}

// The entries of the next step, as far as they are known.
fn cut_entries(alloc: Global, all: &[Update], known: &KnownSets) -> Result<List<Entry>, NoMemory>
    ensures { IfOk result (λ entries. entries ≡ cut_entries (told_by known.now) (entries_in all.now)) }
{
    let mut entries = List::new(alloc);
    for update in all {
        add_entries(
            alloc,
            &mut entries,
            update.from,
            update.outer.as_slice(),
            known,
        )?;
    }
    Ok(entries)
}

// Whether no update has an outer of the next step.
fn have_no_outer(all: &[Update]) -> bool
    ensures { result ≡ list_all (λ update. length update.outer == 0) all.now }
{
    all.iter().all(|update| update.outer.len() == 0)
}

/// The entries of the next step, as far as the part knows them. In linear time. What the part knows is looked up only if there is an
/// entry.
pub fn next_after(alloc: Global, all: &[Update], part: &PartData) -> Result<List<Entry>, NoMemory>
    ensures { IfOk result (λ entries. entries ≡ cut_entries (known_to part.now) (entries_in all.now)) }
{
    if have_no_outer(all) {
        return Ok(List::new(alloc));
    }
    let known = KnownSets::of_part(alloc, part)?;
    cut_entries(alloc, all, &known)
}

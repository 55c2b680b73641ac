//! What the next step sees of a view, once its entries came: tables by number.
ghost use Rattle.std.specs.Prelude.{◌≡◌, ◌-◌, ◌==◌, ◌||◌, ◌++◌, find, flat_map, map, nat_lt, slice_index, IfOk};
ghost use Rattle.std.specs.List.{list_any};
ghost use Rattle.std.specs.Option.{option_map};
ghost use Rattle.wf_model.specs.Bits.{bit};
ghost use Rattle.wf_semantics.specs.Items.{done_count};
ghost use Rattle.wf_semantics.specs.Run.{is_happening};
ghost use Rattle.wf_views.specs.Views.{after_outputs, outputs_in, completions_in};
ghost use Rattle.wf_updates.specs.Tables.{entry, happening_in};

use crate::after::{done_below, vars_after};
use crate::gather::{all_happening, completed_acts};
use crate::numbers::{open_numbers, past_numbers};
use crate::sets::{event_set, set_of};
use crate::tables::{count_at, table_of};
use std::alloc::Global;
use wf_model::{ActId, Bits, Entry, EventId, List, NoMemory, Output, Val};

// The variables' numbers with their values.
fn value_pairs(alloc: Global, values: &[Output]) -> Result<Vec<(u32, Val)>, NoMemory>
    ensures { IfOk result (λ pairs. pairs.items ≡ map (λ o. (o.var.0, o.val)) values.now) }
{
    let mut pairs = Vec::new(alloc);
    for value in values {
        pairs.push((value.var.0, value.val))?;
    }
    Ok(pairs)
}

/// The value of each variable once these entries came. In linear time.
pub fn values_now(
    alloc: Global,
    vars: &[Output],
    next: &[Entry],
) -> Result<List<Option<Val>>, NoMemory>
    ensures { IfOk result (λ table. entry table ≡ (λ x. option_map (λ o. after_outputs o.var.0 (outputs_in next.now) o.val) (find (λ o. o.var.0 == x) vars.now))) }
{
    let values = vars_after(alloc, vars, next, &[])?;
    let pairs = value_pairs(alloc, values.as_slice())?;
    table_of(alloc, pairs.as_slice())
}

// The activities' numbers with their counts, less so many items done.
fn count_pairs(
    alloc: Global,
    unclosed: &[(ActId, u32)],
    done: &[u64],
) -> Result<Vec<(u32, u32)>, NoMemory>
    ensures { IfOk result (λ pairs. pairs.items ≡ map (λ a. (a.0.0, a.1 - slice_index done.now a.0.0)) unclosed.now) }
{
    let mut pairs = Vec::new(alloc);
    for (act, before) in unclosed {
        let left = u64::from(*before).saturating_sub(count_at(done, act.0 as usize));
        pairs.push((act.0, left as u32))?;
    }
    Ok(pairs)
}

/// How many items of each activity are open once these entries came. In linear time.
pub fn counts_now(
    alloc: Global,
    unclosed: &[(ActId, u32)],
    next: &[Entry],
) -> Result<List<Option<u32>>, NoMemory>
    ensures { IfOk result (λ table. entry table ≡ (λ a. option_map (λ c. c.1 - done_count c.0.0 (completions_in next.now)) (find (λ c. c.0.0 == a) unclosed.now))) }
{
    let numbers = open_numbers(alloc, unclosed)?;
    let done = done_below(alloc, past_numbers(numbers.as_slice()), next)?;
    let pairs = count_pairs(alloc, unclosed, done.as_slice())?;
    table_of(alloc, pairs.as_slice())
}

/// The activities of which an item is completed in these entries. In linear time in them and in the greatest of their numbers.
pub fn done_set(alloc: Global, next: &[Entry]) -> Result<Bits, NoMemory>
    ensures { IfOk result (λ bits. bit bits ≡ (λ a. nat_lt 0 (done_count a (completions_in next.now)))) }
{
    let acts = completed_acts(alloc, next)?;
    set_of(alloc, acts.as_slice())
}

// The events that were raised, and then those that happen.
fn all_there(alloc: Global, raised: &[EventId], next: &[Entry]) -> Result<List<EventId>, NoMemory>
    ensures { IfOk result (λ events. events ≡ raised.now ++ flat_map (λ x. happening_in x.outer) next.now) }
{
    let happening = all_happening(alloc, next)?;
    let mut events = List::from_slice(alloc, raised)?;
    events.append(happening.as_slice())?;
    Ok(events)
}

/// The events that are there: raised, or happening in these entries. In linear time in them and in the greatest of their
/// numbers.
pub fn there_set(alloc: Global, raised: &[EventId], next: &[Entry]) -> Result<Bits, NoMemory>
    ensures { IfOk result (λ bits. bit bits ≡ (λ e. list_any (λ r. r.0 == e) raised.now || list_any (λ x. is_happening e x.outer) next.now)) }
{
    let events = all_there(alloc, raised, next)?;
    event_set(alloc, events.as_slice())
}

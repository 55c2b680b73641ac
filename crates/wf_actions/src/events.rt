//! The events that units raised.
ghost use Rattle.std.specs.Prelude.{◌≡◌, ◌↔◌, ℕ, map, flat_map, Contains, IfOk};
ghost use Rattle.std.specs.List.Sorted.{IsStrictlyIncreasing};
ghost use Rattle.wf_actions.specs.Events.{numbers_of};

use crate::joined::concatenation;
use std::alloc::Global;
use wf_model::{EventId, List, NoMemory};

/// The union of lists of events: each event that is in one of them, once, ascending. Neither the
/// order of the lists nor that of their entries makes a difference.
///
/// In linear-logarithmic time in the number of entries.
pub fn raised(alloc: Global, lists: &[List<EventId>]) -> Result<List<EventId>, NoMemory>
    ensures ascends { IfOk result (λ events. IsStrictlyIncreasing (numbers_of events)) }
    ensures union { IfOk result (λ events. (e : ℕ) → Contains (numbers_of events) e ↔ Contains (numbers_of (flat_map (λ list. list) lists.now)) e) }
{
    let all = concatenation(alloc, lists)?;
    let mut numbers = numbers(alloc, all.as_slice())?;
    numbers.sort_unstable();
    numbers.dedup();
    events(alloc, numbers.as_slice())
}

fn numbers(alloc: Global, events: &[EventId]) -> Result<Vec<u32>, NoMemory>
    ensures { IfOk result (λ all. all.items ≡ numbers_of events.now) }
{
    let mut all = Vec::with_capacity(alloc, events.len())?;
    for event in events {
        all.push(event.0)?;
    }
    Ok(all)
}

fn events(alloc: Global, numbers: &[u32]) -> Result<List<EventId>, NoMemory>
    ensures { IfOk result (λ events. numbers_of events ≡ numbers.now) }
{
    let mut events = List::new(alloc);
    for number in numbers {
        events.push(EventId(*number))?;
    }
    Ok(events)
}

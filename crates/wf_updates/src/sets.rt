//! Sets of numbers, as a bit for each: what is known.
ghost use Rattle.std.specs.Prelude.{◌≡◌, ◌==◌, map, IfOk};
ghost use Rattle.std.specs.List.{list_any, range_with_len};
ghost use Rattle.wf_model.specs.Bits.{bit};
ghost use Rattle.wf_views.specs.Knowledge.{known_to};
ghost use Rattle.wf_views.specs.Relevant.{is_listed, nothing};
ghost use Rattle.wf_updates.specs.Tables.{is_among, told_by};

use crate::numbers::{
    act_numbers, event_numbers, known_acts, known_events, known_states, known_vars, past_numbers,
    state_numbers, var_numbers,
};
use std::alloc::Global;
use wf_model::{Bits, EventId, NoMemory};
use wf_parts::{Known, KnownState, PartData};

/// What is known, as sets of numbers.
#[derive(Drop)]
pub struct KnownSets {
    pub states: Bits,
    pub vars: Bits,
    pub events: Bits,
    pub acts: Bits,
}

/// A bit for each number below the count: whether it is among these numbers. In linear time in the count and the numbers.
pub fn bits_below(alloc: Global, count: usize, numbers: &[u32]) -> Result<Bits, NoMemory>
    ensures { IfOk result (λ bits. bits ≡ map (is_among numbers.now) (range_with_len 0 count)) }
{
    let mut bits = Bits::none(alloc, count)?;
    for number in numbers {
        bits.set(*number as usize);
    }
    Ok(bits)
}

/// The set of these numbers. In linear time in them and in the greatest of them.
pub fn set_of(alloc: Global, numbers: &[u32]) -> Result<Bits, NoMemory>
    ensures { IfOk result (λ bits. bit bits ≡ is_among numbers.now) }
{
    bits_below(alloc, past_numbers(numbers), numbers)
}

/// The set of these events. In linear time in them and in the greatest of their numbers.
pub fn event_set(alloc: Global, events: &[EventId]) -> Result<Bits, NoMemory>
    ensures { IfOk result (λ bits. bit bits ≡ (λ k. list_any (λ event. event.0 == k) events.now)) }
{
    let numbers = event_numbers(alloc, events)?;
    set_of(alloc, numbers.as_slice())
}

/// The set of these known states. In linear time in them and in the greatest of their numbers.
pub fn known_state_set(alloc: Global, known: &[KnownState]) -> Result<Bits, NoMemory>
    ensures { IfOk result (λ bits. bit bits ≡ (λ k. list_any (λ state. state.id.0 == k) known.now)) }
{
    let numbers = known_states(alloc, known)?;
    set_of(alloc, numbers.as_slice())
}

impl KnownSets {
    /// Nothing is known.
    pub fn none(alloc: Global) -> Result<KnownSets, NoMemory>
        ensures { IfOk result (λ sets. told_by sets ≡ nothing) }
    {
        let states = Bits::none(alloc, 0)?;
        let vars = Bits::none(alloc, 0)?;
        let events = Bits::none(alloc, 0)?;
        let acts = Bits::none(alloc, 0)?;
        Ok(KnownSets {
            states,
            vars,
            events,
            acts,
        })
    }

    /// What a peer knows, by the list that is kept of it. In linear time in the list and its greatest numbers.
    pub fn of_peer(alloc: Global, known: &Known) -> Result<KnownSets, NoMemory>
        ensures { IfOk result (λ sets. told_by sets ≡ is_listed known.now) }
    {
        let state_numbers = state_numbers(alloc, known.states.as_slice())?;
        let states = set_of(alloc, state_numbers.as_slice())?;
        let var_numbers = var_numbers(alloc, known.vars.as_slice())?;
        let vars = set_of(alloc, var_numbers.as_slice())?;
        let event_numbers = event_numbers(alloc, known.events.as_slice())?;
        let events = set_of(alloc, event_numbers.as_slice())?;
        let act_numbers = act_numbers(alloc, known.acts.as_slice())?;
        let acts = set_of(alloc, act_numbers.as_slice())?;
        Ok(KnownSets {
            states,
            vars,
            events,
            acts,
        })
    }

    /// What a part knows. In linear time in its lists and their greatest numbers.
    pub fn of_part(alloc: Global, part: &PartData) -> Result<KnownSets, NoMemory>
        ensures { IfOk result (λ sets. told_by sets ≡ known_to part.now) }
    {
        let state_numbers = known_states(alloc, part.states.as_slice())?;
        let states = set_of(alloc, state_numbers.as_slice())?;
        let var_numbers = known_vars(alloc, part.vars.as_slice())?;
        let vars = set_of(alloc, var_numbers.as_slice())?;
        let event_numbers = known_events(alloc, part.events.as_slice())?;
        let events = set_of(alloc, event_numbers.as_slice())?;
        let act_numbers = known_acts(alloc, part.acts.as_slice())?;
        let acts = set_of(alloc, act_numbers.as_slice())?;
        Ok(KnownSets {
            states,
            vars,
            events,
            acts,
        })
    }
}

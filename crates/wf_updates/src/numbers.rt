//! The numbers of ids, in order.
ghost use Rattle.std.specs.Prelude.{◌≡◌, map, IfOk};
ghost use Rattle.wf_updates.specs.Tables.{past_numbers};

use std::alloc::Global;
use wf_model::{ActId, EventId, NoMemory, Output, StartAt, StateId, VarId};
use wf_parts::{KnownActivity, KnownEvent, KnownState, KnownVariable};

/// One past the greatest of these numbers. In linear time.
pub fn past_numbers(numbers: &[u32]) -> usize
    ensures { result ≡ past_numbers numbers.now }
{
    let mut past: usize = 0;
    for number in numbers {
        past = past.max(*number as usize + 1);
    }
    past
}

/// The numbers of these states. In linear time.
pub fn state_numbers(alloc: Global, ids: &[StateId]) -> Result<Vec<u32>, NoMemory>
    ensures { IfOk result (λ numbers. numbers.items ≡ map (λ it. it.0) ids.now) }
{
    let numbers: Vec<u32> = ids.iter().map(|it| it.0).collect(alloc)?;
    Ok(numbers)
}

/// The numbers of these variables. In linear time.
pub fn var_numbers(alloc: Global, ids: &[VarId]) -> Result<Vec<u32>, NoMemory>
    ensures { IfOk result (λ numbers. numbers.items ≡ map (λ it. it.0) ids.now) }
{
    let numbers: Vec<u32> = ids.iter().map(|it| it.0).collect(alloc)?;
    Ok(numbers)
}

/// The numbers of these events. In linear time.
pub fn event_numbers(alloc: Global, ids: &[EventId]) -> Result<Vec<u32>, NoMemory>
    ensures { IfOk result (λ numbers. numbers.items ≡ map (λ it. it.0) ids.now) }
{
    let numbers: Vec<u32> = ids.iter().map(|it| it.0).collect(alloc)?;
    Ok(numbers)
}

/// The numbers of these activities. In linear time.
pub fn act_numbers(alloc: Global, ids: &[ActId]) -> Result<Vec<u32>, NoMemory>
    ensures { IfOk result (λ numbers. numbers.items ≡ map (λ it. it.0) ids.now) }
{
    let numbers: Vec<u32> = ids.iter().map(|it| it.0).collect(alloc)?;
    Ok(numbers)
}

/// The numbers of these states. In linear time.
pub fn known_states(alloc: Global, known: &[KnownState]) -> Result<Vec<u32>, NoMemory>
    ensures { IfOk result (λ numbers. numbers.items ≡ map (λ it. it.id.0) known.now) }
{
    let numbers: Vec<u32> = known.iter().map(|it| it.id.0).collect(alloc)?;
    Ok(numbers)
}

/// The numbers of these variables. In linear time.
pub fn known_vars(alloc: Global, known: &[KnownVariable]) -> Result<Vec<u32>, NoMemory>
    ensures { IfOk result (λ numbers. numbers.items ≡ map (λ it. it.id.0) known.now) }
{
    let numbers: Vec<u32> = known.iter().map(|it| it.id.0).collect(alloc)?;
    Ok(numbers)
}

/// The numbers of these events. In linear time.
pub fn known_events(alloc: Global, known: &[KnownEvent]) -> Result<Vec<u32>, NoMemory>
    ensures { IfOk result (λ numbers. numbers.items ≡ map (λ it. it.id.0) known.now) }
{
    let numbers: Vec<u32> = known.iter().map(|it| it.id.0).collect(alloc)?;
    Ok(numbers)
}

/// The numbers of these activities. In linear time.
pub fn known_acts(alloc: Global, known: &[KnownActivity]) -> Result<Vec<u32>, NoMemory>
    ensures { IfOk result (λ numbers. numbers.items ≡ map (λ it. it.id.0) known.now) }
{
    let numbers: Vec<u32> = known.iter().map(|it| it.id.0).collect(alloc)?;
    Ok(numbers)
}

/// The numbers of the variables. In linear time.
pub fn output_numbers(alloc: Global, outputs: &[Output]) -> Result<Vec<u32>, NoMemory>
    ensures { IfOk result (λ numbers. numbers.items ≡ map (λ it. it.var.0) outputs.now) }
{
    let numbers: Vec<u32> = outputs.iter().map(|it| it.var.0).collect(alloc)?;
    Ok(numbers)
}

/// The numbers of the activities. In linear time.
pub fn open_numbers(alloc: Global, unclosed: &[(ActId, u32)]) -> Result<Vec<u32>, NoMemory>
    ensures { IfOk result (λ numbers. numbers.items ≡ map (λ it. it.0.0) unclosed.now) }
{
    let mut numbers = Vec::new(alloc);
    for (act, _) in unclosed {
        numbers.push(act.0)?;
    }
    Ok(numbers)
}

/// The numbers of the activities that are started. In linear time.
pub fn start_numbers(alloc: Global, starts: &[StartAt]) -> Result<Vec<u32>, NoMemory>
    ensures { IfOk result (λ numbers. numbers.items ≡ map (λ it. it.act.0) starts.now) }
{
    let numbers: Vec<u32> = starts.iter().map(|it| it.act.0).collect(alloc)?;
    Ok(numbers)
}

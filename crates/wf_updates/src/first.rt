//! What a unit knows before its first step.
ghost use Rattle.std.specs.Prelude.{◌≡◌, map, filter, IfOk};
ghost use Rattle.wf_model.specs.declared.outer.Output.{Output};

use std::alloc::Global;
use wf_model::{ActId, List, NoMemory, Output, StateId};
use wf_parts::{KnownActivity, KnownState, KnownVariable};

/// The states that are in at first. In linear time.
pub fn first_states(alloc: Global, states: &[KnownState]) -> Result<List<StateId>, NoMemory>
    ensures { IfOk result (λ ids. ids ≡ map (λ known. known.id) (filter (λ known. known.first) states.now)) }
{
    let mut ids = List::new(alloc);
    for known in states {
        if known.first {
            ids.push(known.id)?;
        }
    }
    Ok(ids)
}

/// Each variable with its first value. In linear time.
pub fn first_values(alloc: Global, vars: &[KnownVariable]) -> Result<List<Output>, NoMemory>
    ensures { IfOk result (λ values. values ≡ map (λ known. record { var = known.id; val = known.first }) vars.now) }
{
    let mut values = List::new(alloc);
    for known in vars {
        values.push(Output {
            var: known.id,
            val: known.first,
        })?;
    }
    Ok(values)
}

/// Each activity with no open item. In linear time.
pub fn none_open(alloc: Global, acts: &[KnownActivity]) -> Result<List<(ActId, u32)>, NoMemory>
    ensures { IfOk result (λ counts. counts ≡ map (λ known. (known.id, 0)) acts.now) }
{
    let mut counts = List::new(alloc);
    for known in acts {
        counts.push((known.id, 0))?;
    }
    Ok(counts)
}

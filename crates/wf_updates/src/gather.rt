//! What all updates of a step hold, one after another, and what the entries of a step hold.
ghost use Rattle.std.specs.Prelude.{◌≡◌, flat_map, map, IfOk};
ghost use Rattle.wf_views.specs.Absorbing.{writes_in, starts_in};
ghost use Rattle.wf_views.specs.Views.{outputs_in, completions_in};
ghost use Rattle.wf_updates.specs.Tables.{happening_in};

use std::alloc::Global;
use wf_model::{Entry, EventId, List, NoMemory, Outer, Output, StartAt, StateId, Update, Write};

/// The states that the updates flip. In linear time.
pub fn all_flips(alloc: Global, all: &[Update]) -> Result<List<StateId>, NoMemory>
    ensures { IfOk result (λ joined. joined ≡ flat_map (λ update. update.flips) all.now) }
{
    let mut joined = List::new(alloc);
    for update in all {
        joined.append(update.flips.as_slice())?;
    }
    Ok(joined)
}

/// The writes of the updates. In linear time.
pub fn all_writes(alloc: Global, all: &[Update]) -> Result<List<Write>, NoMemory>
    ensures { IfOk result (λ joined. joined ≡ writes_in all.now) }
{
    let mut joined = List::new(alloc);
    for update in all {
        joined.append(update.writes.as_slice())?;
    }
    Ok(joined)
}

/// The events that the updates raise. In linear time.
pub fn all_raised(alloc: Global, all: &[Update]) -> Result<List<EventId>, NoMemory>
    ensures { IfOk result (λ joined. joined ≡ flat_map (λ update. update.raised) all.now) }
{
    let mut joined = List::new(alloc);
    for update in all {
        joined.append(update.raised.as_slice())?;
    }
    Ok(joined)
}

/// The starts of the updates. In linear time.
pub fn all_starts(alloc: Global, all: &[Update]) -> Result<List<StartAt>, NoMemory>
    ensures { IfOk result (λ joined. joined ≡ starts_in all.now) }
{
    let mut joined = List::new(alloc);
    for update in all {
        joined.append(update.starts.as_slice())?;
    }
    Ok(joined)
}

/// The outputs of the entries' completions. In linear time.
pub fn all_outputs(alloc: Global, entries: &[Entry]) -> Result<List<Output>, NoMemory>
    ensures { IfOk result (λ joined. joined ≡ outputs_in entries.now) }
{
    let mut joined = List::new(alloc);
    for entry in entries {
        match &entry.outer {
            Outer::Happen(_) => {}
            Outer::Complete { outputs, .. } => joined.append(outputs.as_slice())?,
        }
    }
    Ok(joined)
}

/// The numbers of the activities whose items the entries complete. In linear time.
pub fn completed_acts(alloc: Global, entries: &[Entry]) -> Result<Vec<u32>, NoMemory>
    ensures { IfOk result (λ acts. acts.items ≡ map (λ c. c.act.0) (completions_in entries.now)) }
{
    let mut acts = Vec::new(alloc);
    for entry in entries {
        match &entry.outer {
            Outer::Happen(_) => {}
            Outer::Complete { act, .. } => acts.push(act.0)?,
        }
    }
    Ok(acts)
}

/// The events that happen in the entries. In linear time.
pub fn all_happening(alloc: Global, entries: &[Entry]) -> Result<List<EventId>, NoMemory>
    ensures { IfOk result (λ events. events ≡ flat_map (λ x. happening_in x.outer) entries.now) }
{
    let mut events = List::new(alloc);
    for entry in entries {
        match &entry.outer {
            Outer::Happen(event) => events.push(*event)?,
            Outer::Complete { .. } => {}
        }
    }
    Ok(events)
}

//! The starts of a step that are a unit's own.
ghost use Rattle.std.specs.Prelude.{◌≡◌, ◌+◌, ◌≤◌, ◌++◌, false, length, take, replicate, IsOk, OnOk, OnErr};
ghost use Rattle.std.specs.Vec.{vec_len, vec_capacity};
ghost use Rattle.wf_activities.specs.UnitItems.{is_listed, listed, at_step};

use wf_model::{ActId, NoMemory, StartAt};

/// Whether an activity is among these. Grows with them.
pub fn is_listed(acts: &[ActId], act: ActId) -> bool
    ensures { result ≡ is_listed acts.now act.0 }
{
    acts.iter().any(|a| a.0 == act.0)
}

// Adds the starts of the listed activities, each with the step. After `NoMemory` some of them may have been added.
fn push_listed(
    started: &mut Vec<(ActId, u32)>,
    acts: &[ActId],
    step: u32,
    starts: &[StartAt],
) -> Result<(), NoMemory>
    ensures ok { OnOk result (started.new.items ≡ started.old.items ++ at_step step (listed acts.now starts.now)) }
    ensures front { take (length started.old.items) started.new.items ≡ started.old.items }
    ensures capacity { vec_capacity started.old ≤ vec_capacity started.new }
    ensures ready { vec_len started.old + length (listed acts.now starts.now) ≤ vec_capacity started.old → IsOk result }
{
    for start in starts {
        if is_listed(acts, start.act) {
            started.push((start.act, step))?;
        }
    }
    Ok(())
}

/// Adds the starts of the listed activities, each with the step, and none of them closed. After `NoMemory` both lists are as
/// before. Takes no memory where there is room. Grows with the starts times the activities.
pub fn append(
    started: &mut Vec<(ActId, u32)>,
    closed: &mut Vec<bool>,
    acts: &[ActId],
    step: u32,
    starts: &[StartAt],
) -> Result<(), NoMemory>
    requires { length closed.old.items ≡ length started.old.items }
    ensures started { OnOk result (started.new.items ≡ started.old.items ++ at_step step (listed acts.now starts.now)) }
    ensures closed { OnOk result (closed.new.items ≡ closed.old.items ++ replicate (length (at_step step (listed acts.now starts.now))) false) }
    ensures started_err { OnErr result (started.new.items ≡ started.old.items) }
    ensures closed_err { OnErr result (closed.new.items ≡ closed.old.items) }
    ensures started_room { vec_capacity started.old ≤ vec_capacity started.new }
    ensures closed_room { vec_capacity closed.old ≤ vec_capacity closed.new }
    ensures ready { vec_len started.old + length (listed acts.now starts.now) ≤ vec_capacity started.old → vec_len closed.old + length (listed acts.now starts.now) ≤ vec_capacity closed.old → IsOk result }
{
    let before = started.len();
    if push_listed(started, acts, step, starts).is_err() {
        started.truncate(before);
        return Err(NoMemory);
    }
    match closed.resize(started.len(), false) {
        Ok(()) => Ok(()),
        Err(_) => {
            started.truncate(before);
            Err(NoMemory)
        }
    }
}

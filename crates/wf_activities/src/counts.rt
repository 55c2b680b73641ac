//! How many items of each activity are open, by its number.
ghost use Rattle.std.specs.Prelude.{◌≡◌, ℕ, ◌+◌, ◌<◌, ◌≤◌, ◌^◌, length, slice_index, All, IsOk, OnOk};
ghost use Rattle.wf_model.specs.Limits.{max_acts};
ghost use Rattle.wf_activities.specs.UnitItems.{listed, starts_count};

use crate::starts::is_listed;
use wf_model::limits::MAX_ACTS;
use wf_model::{ActId, NoMemory, StartAt};

// Makes the table reach to an activity. Takes no memory where it does.
fn reach(counts: &mut Vec<u32>, act: ActId) -> Result<(), NoMemory>
    ensures same { (a : ℕ) → slice_index counts.new.items a ≡ slice_index counts.old.items a }
    ensures longer { length counts.old.items ≤ length counts.new.items }
    ensures wide { OnOk result (act.0 < length counts.new.items) }
    ensures ready { act.0 < length counts.old.items → IsOk result }
{
    let at = act.0 as usize;
    if counts.len() <= at {
        counts.resize(at + 1, 0)?;
    }
    Ok(())
}

/// Makes the table reach to the activities of the listed starts. What it counts stays, with memory and without. Takes no
/// memory where it reaches. Grows with the starts times the listed activities, and with the greatest number of an activity
/// where the table is shorter.
pub fn widen(counts: &mut Vec<u32>, acts: &[ActId], starts: &[StartAt]) -> Result<(), NoMemory>
    ensures same { (a : ℕ) → slice_index counts.new.items a ≡ slice_index counts.old.items a }
    ensures longer { length counts.old.items ≤ length counts.new.items }
    ensures wide { OnOk result (All (λ s. s.act.0 < length counts.new.items) (listed acts.now starts.now)) }
    ensures ready { All (λ s. s.act.0 < length counts.old.items) (listed acts.now starts.now) → IsOk result }
{
    for start in starts {
        if is_listed(acts, start.act) {
            reach(counts, start.act)?;
        }
    }
    Ok(())
}

/// Makes the table reach to all activities that a chart may have. What it counts stays, with memory and without. Takes no
/// memory where it reaches.
pub fn reach_all(counts: &mut Vec<u32>) -> Result<(), NoMemory>
    ensures same { (a : ℕ) → slice_index counts.new.items a ≡ slice_index counts.old.items a }
    ensures longer { length counts.old.items ≤ length counts.new.items }
    ensures wide { OnOk result (max_acts ≤ length counts.new.items) }
    ensures ready { max_acts ≤ length counts.old.items → IsOk result }
{
    reach(counts, ActId(MAX_ACTS as u32 - 1))
}

/// Counts these starts. Grows with them. Takes no memory.
pub fn count_all(counts: &mut Vec<u32>, fresh: &[(ActId, u32)])
    requires wide { (a : ℕ) → 0 < starts_count a fresh.now → a < length counts.old.items }
    requires room { (a : ℕ) → slice_index counts.old.items a + length fresh.now < 2 ^ 32 }
    ensures made { (a : ℕ) → slice_index counts.new.items a ≡ slice_index counts.old.items a + starts_count a fresh.now }
    ensures long { length counts.new.items ≡ length counts.old.items }
{
    for start in fresh {
        counts[start.0.0 as usize] += 1;
    }
}

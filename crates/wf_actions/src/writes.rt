//! The writes of several transitions: one stays for each variable.
ghost use Rattle.std.specs.Prelude.{◌≡◌, ◌++◌, ℕ, ◌<◌, ◌≤◌, ◌^◌, length, All, map, filter_map, IfOk, OnOk, OnErr};
ghost use Rattle.std.specs.List.{range_with_len};
ghost use Rattle.wf_actions.specs.Writes.{over, winner, past_variables, merged};

use std::alloc::Global;
use wf_model::{List, NoMemory, Write};

/// Adds writes to those that were collected so far. Of the writes of one variable that of the
/// greatest transition number stays, and of equal numbers the latest, where `more` is later than
/// what `into` has. Afterwards `into` has one write for each variable that is written, ascending
/// by variable. So it makes no difference in how many calls writes are added, nor in which order
/// those of different transitions come. After `NoMemory` it is as before.
///
/// In linear time in the number of writes and the greatest number of a variable.
pub fn merge_writes(alloc: Global, into: &mut List<Write>, more: &[Write]) -> Result<(), NoMemory>
    ensures ok { OnOk result (into.new ≡ merged (into.old ++ more.now)) }
    ensures err { OnErr result (into.new ≡ into.old) }
{
    let mut all = List::from_slice(alloc, into.as_slice())?;
    all.append(more)?;
    let winners = winners(alloc, all.as_slice())?;
    *into = present_writes(alloc, winners.as_slice())?;
    Ok(())
}

/// The write that stays if `write` comes after `best`.
pub fn winning_write(best: Option<Write>, write: Write) -> Write
    ensures { Some result ≡ over best write }
{
    match best {
        Some(earlier) if write.trans.0 < earlier.trans.0 => earlier,
        _ => write,
    }
}

// One past the greatest number of a variable that is written.
fn past_variables(writes: &[Write]) -> usize
    ensures { result ≡ past_variables writes.now }
{
    let mut past: usize = 0;
    for write in writes {
        past = past.max(write.var.0 as usize + 1);
    }
    past
}

// At each variable's number the write of it that stays.
fn winners(alloc: Global, writes: &[Write]) -> Result<Vec<Option<Write>>, NoMemory>
    ensures { IfOk result (λ best. best.items ≡ map (λ x. winner x writes.now) (range_with_len 0 (past_variables writes.now))) }
{
    let past = past_variables(writes);
    let mut best: Vec<Option<Write>> = vec![in alloc; None; past]?;
    for write in writes {
        let place = write.var.0 as usize;
        best[place] = Some(winning_write(best[place], *write));
    }
    Ok(best)
}

// The writes that there are, in order.
fn present_writes(alloc: Global, slots: &[Option<Write>]) -> Result<List<Write>, NoMemory>
    ensures { IfOk result (λ writes. writes ≡ filter_map (λ slot. slot) slots.now) }
{
    let mut writes = List::new(alloc);
    for slot in slots {
        if let Some(write) = slot {
            writes.push(*write)?;
        }
    }
    Ok(writes)
}

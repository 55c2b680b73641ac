//! The list of a unit's items.
ghost use Rattle.std.specs.Prelude.{◌≡◌, ◌<◌, ◌^◌, ◌||◌, ℕ, length, IfOk};
ghost use Rattle.std.specs.List.{list_any};
ghost use Rattle.wf_model.specs.Bits.{bit};
ghost use Rattle.wf_semantics.specs.Admission.{completes};
ghost use Rattle.wf_worlds.specs.Admitting.{outers};
ghost use Rattle.wf_worklist.specs.Worklists.{worklist_of};

use std::alloc::Global;
use wf_activities::Items;
use wf_model::{ActId, Bits, List, NoMemory, Outer};
use wf_steps::{Admission, History};

/// An item of a unit: its number there, counted from 1, its activity, the step of its start, and whether it is done.
#[derive(Clone, Copy, Debug)]
pub struct Item {
    pub number: u32,
    pub act: ActId,
    pub step: u32,
    pub done: bool,
}

// Sets the bit of the item that this completes, if it completes one.
fn mark(done: &mut Bits, outer: &Outer)
    ensures len { length done.new ≡ length done.old }
    ensures bits { (number : ℕ) → number < length done.old → bit done.new number ≡ (bit done.old number || completes number outer.now) }
{
    if let Outer::Complete { item, .. } = outer {
        done.set(*item as usize);
    }
}

// A bit for each number below the count, set if an admission completes the item with this number.
fn completion_bits(alloc: Global, count: usize, admissions: &[Admission]) -> Result<Bits, NoMemory>
    ensures { IfOk result (λ done. (number : ℕ) → number < count → bit done number ≡ list_any (completes number) (outers admissions.now)) }
{
    let mut done = Bits::none(alloc, count)?;
    for admission in admissions {
        mark(&mut done, &admission.outer);
    }
    Ok(done)
}

/// The items in order of number, each with its activity, the step of its start, and whether it is done: exactly if an admission of the
/// history completes it. There are fewer than 2 ^ 32 items, as is so of every unit's. It refuses only if memory runs out.
///
/// Linear in the items and the admissions.
pub fn worklist(alloc: Global, items: &Items, history: &History) -> Result<List<Item>, NoMemory>
    requires { length items.now.items < 2 ^ 32 }
    ensures { IfOk result (λ list. list ≡ worklist_of items.now history.now.past) }
{
    let started = items.started();
    let done = completion_bits(alloc, started.len() + 1, history.admissions())?;
    let mut list = List::new(alloc);
    for (at, start) in started.iter().enumerate() {
        let number = at as u32 + 1;
        list.push(Item {
            number,
            act: start.0,
            step: start.1,
            done: done.has(number as usize),
        })?;
    }
    Ok(list)
}

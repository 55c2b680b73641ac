//! A unit's way through its history.
ghost use Rattle.std.specs.Prelude.{◌≡◌, ◌+◌, ◌<◌, ◌≤◌, length, take, drop, insert, IfOk, OnOk};
ghost use Rattle.wf_histories.specs.Histories.{taken};
ghost use Rattle.wf_worlds.specs.Admitting.{outers};
ghost use Rattle.wf_steps.specs.Growing.{IsMade};
ghost use Rattle.wf_agreement.specs.Own.{updates_to, own_updates};
ghost use Rattle.wf_agreement.specs.Walks.{walk_at};

use std::alloc::Global;
use std::mem::replace;
use wf_flat::own_step;
use wf_model::{Duplicate, List, NoMemory, Outer, UnitId, Update};
use wf_parts::Part;
use wf_steps::History;
use wf_updates::View;

// A unit after some of its Turns.
#[derive(Drop)]
struct Walk {
    view: View,
    // The own updates of the steps that it took.
    updates: List<Update>,
    // The own update of the step after them.
    next: Update,
    // How many admissions its Turns sealed.
    sealed: usize,
}

// Copies of the peers' updates, with a copy of the own one in the unit's place.
fn with_own(
    alloc: Global,
    inputs: &List<Update>,
    unit: UnitId,
    own: &Update,
) -> Result<List<Update>, NoMemory>
    ensures { IfOk result (λ all. all ≡ insert inputs.now unit.0 own.now) }
{
    let mut all = inputs.copy(alloc)?.into_vec();
    let own = own.copy(alloc)?;
    let place = (unit.0 as usize).min(all.len());
    all.insert(place, own)?;
    Ok(List::from_vec(all))
}

// What was let in by so many admissions after the first ones.
fn outers_after(
    alloc: Global,
    history: &History,
    first: usize,
    count: usize,
) -> Result<List<Outer>, NoMemory>
    requires { first + count ≤ length history.now.past.admissions }
    ensures { IfOk result (λ found. found ≡ outers (take count (drop first history.now.past.admissions))) }
{
    let admissions = history.admissions();
    let sealed = &admissions[first..first + count];
    let mut found = List::new(alloc);
    for admission in sealed {
        found.push(admission.outer.copy(alloc)?)?;
    }
    Ok(found)
}

impl Walk {
    // Before the first Turn.
    fn first(alloc: Global, part: &Part, history: &History) -> Result<Walk, NoMemory>
        ensures { IfOk result (λ walk. walk ≡ walk_at part.now history.now.past 0) }
    {
        let _turns = history.turns();
        let view = View::first(alloc, part)?;
        let next = own_step(alloc, part, &view, 1, List::new(alloc))?;
        Ok(Walk {
            view,
            updates: List::new(alloc),
            next,
            sealed: 0,
        })
    }

    // Takes the Turn at this place. After `NoMemory` it may be on its way there.
    fn turn(
        &mut self,
        alloc: Global,
        part: &Part,
        history: &History,
        at: usize,
    ) -> Result<(), NoMemory>
        requires made { IsMade part.now history.now.past }
        requires there { at < taken history.now.past }
        requires here { self.old ≡ walk_at part.now history.now.past at }
        ensures { OnOk result (self.new ≡ walk_at part.now history.now.past (at + 1)) }
    {
        let turns = history.turns();
        let turn = &turns[at];
        let sealed = turn.sealed as usize;
        let all = with_own(alloc, &turn.inputs, part.data().unit, &self.next)?;
        self.view.absorb(alloc, part, all.as_slice())?;
        let outers = outers_after(alloc, history, self.sealed, sealed)?;
        let next = own_step(alloc, part, &self.view, turn.step + 1, outers)?;
        self.sealed += sealed;
        let done = replace(&mut self.next, next);
        self.updates.push(done)?;
        Ok(())
    }

    // After all Turns.
    fn to_end(alloc: Global, part: &Part, history: &History) -> Result<Walk, NoMemory>
        requires { IsMade part.now history.now.past }
        ensures { IfOk result (λ walk. walk ≡ walk_at part.now history.now.past (taken history.now.past)) }
    {
        let mut walk = Walk::first(alloc, part, history)?;
        for at in 0..history.turns().len() {
            walk.turn(alloc, part, history, at)?;
        }
        Ok(walk)
    }
}

/// The own updates of the steps that a unit took, from step 1 on, worked out from its part and its history: what it made of its view
/// after the steps before, with what it let in. Records made the history, each of which may follow those before it. It refuses only
/// if memory runs out.
///
/// Linear in the history: each Turn takes the part and the view once, with what it took in and sealed.
pub fn own_updates(alloc: Global, part: &Part, history: &History) -> Result<List<Update>, NoMemory>
    requires { IsMade part.now history.now.past }
    ensures { IfOk result (λ updates. updates ≡ own_updates part.now history.now.past) }
{
    let walk = Walk::to_end(alloc, part, history)?;
    let Walk { updates, .. } = walk;
    Ok(updates)
}

/// The same, and the own update of the next step behind them.
pub fn updates_and_next(
    alloc: Global,
    part: &Part,
    history: &History,
) -> Result<List<Update>, NoMemory>
    requires { IsMade part.now history.now.past }
    ensures { IfOk result (λ updates. updates ≡ updates_to part.now history.now.past (taken history.now.past + 1)) }
{
    let walk = Walk::to_end(alloc, part, history)?;
    let Walk {
        mut updates,
        next,
        ..
    } = walk;
    updates.push(next)?;
    Ok(updates)
}

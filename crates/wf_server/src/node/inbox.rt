//! What a node holds of its peers.
ghost use Rattle.std.specs.Prelude.{◌≡◌, ◌↔◌, ◌<◌, ◌≤◌, ℕ, None, Some, Ok, Err, IsTrue, length, slice_set, IfOk, IfSome};
ghost use Rattle.std.specs.Option.{option_copied};
ghost use Rattle.wf_model.specs.Limits.{max_units};
ghost use Rattle.wf_server.specs.declared.fault.Received.{Received as ReceivedAnswer};
ghost use Rattle.wf_server.specs.Servers.{held, held_in, inputs_of};
ghost use Rattle.wf_server.specs.Inbox.{AreMissing, IsPeer};
ghost use Rattle.wf_server.specs.Receiving.{ReceiveAnswers, Holding};
ghost use Rattle.wf_server.specs.Judging.{SaysOf, told_of};
ghost use Rattle.wf_model.specs.declared.update.Update.{Update as UpdateValue};

use crate::node::Node;
use crate::{ReceiveFault, Received};
use std::alloc::Global;
use std::mem::swap;
use wf_disk::Disk;
use wf_model::{Duplicate, List, NoMemory, Same, UnitId, UnitSet, Update};
use wf_parts::PartData;
use wf_steps::is_fit;

/// What there is of a unit.
pub fn slot_of(slots: &[Option<Update>], unit: UnitId) -> Option<&Update>
    ensures { option_copied result ≡ held_in slots.now unit.0 }
{
    match slots.get(unit.0 as usize) {
        Some(slot) => slot.as_ref(),
        None => None,
    }
}

/// Puts an update where there is none.
fn put(slots: &mut Vec<Option<Update>>, at: usize, update: Update)
    requires { at < length slots.old.items }
    ensures { slots.new.items ≡ slice_set slots.old.items at (Some update) }
{
    slots[at] = Some(update);
}

/// Whether a unit is another unit of the part's chart.
fn is_peer(part: &PartData, unit: UnitId) -> bool
    ensures { IsTrue result ↔ IsPeer part.now unit.0 }
{
    unit.0 < part.units && unit.0 != part.unit.0
}

/// The peers whose update didn't come. Takes no memory.
pub fn missing_peers(part: &PartData, came: &[Option<Update>]) -> UnitSet
    requires size { length came.now ≡ part.now.units }
    requires few { part.now.units ≤ max_units }
    ensures { AreMissing part.now came.now result.0 }
{
    let mut set = 0u8;
    for (at, slot) in came.iter().enumerate() {
        if slot.is_none() && at != part.unit.0 as usize {
            set |= 1u8 << at;
        }
    }
    UnitSet(set)
}

/// Copies of what came, in unit order. One slot is the unit's own, where nothing comes, so there is room for one fewer than slots. In
/// linear time in them.
pub fn copies_of(alloc: Global, slots: &[Option<Update>]) -> Result<List<Update>, NoMemory>
    ensures { IfOk result (λ inputs. inputs ≡ inputs_of slots.now) }
{
    let mut inputs = Vec::with_capacity(alloc, slots.len().saturating_sub(1))?;
    for slot in slots {
        if let Some(update) = slot {
            inputs.push(update.copy(alloc)?)?;
        }
    }
    Ok(List::from_vec(inputs))
}

/// A slot for each unit, which holds nothing. It refuses only if memory runs out. In linear time in the units.
pub fn nothing_came(alloc: Global, units: u32) -> Result<Vec<Option<Update>>, NoMemory>
    ensures size { IfOk result (λ slots. length slots.items ≡ units) }
    ensures none { IfOk result (λ slots. (v : ℕ) → held_in slots.items v ≡ None) }
{
    let mut slots = Vec::new(alloc);
    for _ in 0..units {
        slots.push(None)?;
    }
    Ok(slots)
}

/// What is held of the next step and of the one behind it, if nothing came.
pub fn empty_inboxes(
    alloc: Global,
    units: u32,
) -> Result<(Vec<Option<Update>>, Vec<Option<Update>>), NoMemory>
    ensures sizes { IfOk result (λ both. (length both.0.items ≡ units) × (length both.1.items ≡ units)) }
    ensures none { IfOk result (λ both. (v : ℕ) → (held_in both.0.items v ≡ None) × (held_in both.1.items v ≡ None)) }
{
    let came = nothing_came(alloc, units)?;
    let early = nothing_came(alloc, units)?;
    Ok((came, early))
}

/// What came early is what came now, and nothing came early. Takes no memory.
pub fn go_on(came: &mut Vec<Option<Update>>, early: &mut Vec<Option<Update>>)
    ensures came { came.new.items ≡ early.old.items }
    ensures size { length early.new.items ≡ length came.old.items }
    ensures none { (v : ℕ) → held_in early.new.items v ≡ None }
{
    swap(came, early);
    for slot in early.iter_mut() {
        *slot = None;
    }
}

/// Why an update isn't taken in, without the update.
#[derive(Clone, Copy)]
enum Refusal {
    NotPeer,
    TooFar,
    Clash,
    Unfit,
}

impl<D: Disk> Node<D> {
    // What becomes of an update, by what is held.
    fn comparison(&self, update: &Update) -> Option<Result<Received, Refusal>>
        ensures held { IfSome result (λ answer. (other : UpdateValue) × (held self.now update.now.from.0 update.now.step ≡ Some other) × SaysOf other update.now answer) }
        ensures none { result ≡ None → held self.now update.now.from.0 update.now.step ≡ None }
    {
        match self.held(update.from, update.step) {
            Some(other) => if other.is_same(update) {
                Some(Ok(Received::Same))
            } else {
                Some(Err(Refusal::Clash))
            },
            None => None,
        }
    }

    // What becomes of an update that comes.
    fn judge(&self, update: &Update) -> Result<Received, Refusal>
        ensures { ReceiveAnswers self.now update.now (told_of result update.now) }
    {
        let part = self.replica.part().data();
        if !is_peer(part, update.from) {
            return Err(Refusal::NotPeer);
        }
        let taken = self.replica.taken();
        if update.step <= taken {
            return Ok(Received::Old);
        }
        if taken + 2 < update.step {
            return Err(Refusal::TooFar);
        }
        if let Some(answer) = self.comparison(update) {
            return answer;
        }
        if !is_fit(part, update) {
            return Err(Refusal::Unfit);
        }
        Ok(Received::Fresh)
    }

    // Holds an update that is fresh.
    fn hold(&mut self, update: Update)
        requires { ReceiveAnswers self.old update (Ok ReceivedAnswer.Fresh) }
        ensures { Holding self.old self.new update }
    {
        let at = update.from.0 as usize;
        if update.step == self.replica.taken() + 1 {
            put(&mut self.came, at, update);
        } else {
            put(&mut self.early, at, update);
        }
    }

    /// Takes in an update of a peer. In this order: `NotPeer` exactly if no other unit of the part's chart sent it; `Old` if its step is
    /// taken; `TooFar` if its step is over taken + 2; `Same` if an equal one is held, and `Clash` if another one is; `Unfit` exactly if
    /// it is outside the ranges of its bytes, or the part says that its sender can't have sent it. Else `Fresh`: it is held from now
    /// on, and nothing else changes. After any other answer the node is as before. Takes no memory. In linear time in the update times
    /// the part.
    pub fn receive(&mut self, update: Update) -> Result<Received, ReceiveFault>
        ensures answer { ReceiveAnswers self.old update result }
        ensures fresh { result ≡ Ok ReceivedAnswer.Fresh → Holding self.old self.new update }
        ensures kept { (result ≡ Ok ReceivedAnswer.Fresh → ⊥) → self.new ≡ self.old }
    {
        match self.judge(&update) {
            Ok(Received::Fresh) => {
                self.hold(update);
                Ok(Received::Fresh)
            }
            Ok(known) => Ok(known),
            Err(Refusal::NotPeer) => Err(ReceiveFault::NotPeer),
            Err(Refusal::TooFar) => Err(ReceiveFault::TooFar { step: update.step }),
            Err(Refusal::Clash) => Err(ReceiveFault::Clash { given: update }),
            Err(Refusal::Unfit) => Err(ReceiveFault::Unfit),
        }
    }
}

//! What a unit shows and sends.
ghost use Rattle.std.specs.Prelude.{◌≡◌, ◌≢◌, ◌⊎◌, ◌↔◌, ◌+◌, ◌≤◌, length, map, None, IfOk, IfSome};
ghost use Rattle.wf_codec.specs.Ranges.{IsUpdate};
ghost use Rattle.wf_codec.specs.Spelling.{spelling_of};
ghost use Rattle.wf_views.specs.Relevant.{relevant};
ghost use Rattle.wf_machine.specs.Server.{IsDown};
ghost use Rattle.wf_histories.specs.Histories.{taken, local_update};
ghost use Rattle.wf_bridge.specs.Bridging.{node_sight, node_items};

use crate::held::keep_update;
use crate::sight::sight;
use crate::slot::{Seat, Slot};
use std::alloc::Global;
use wf_codec::encode;
use wf_disk::MemDisk;
use wf_machine::Sight;
use wf_model::{ActId, Bytes, List, NoMemory, UnitId};
use wf_server::Node;
use wf_worklist::{Item, worklist};

// The items of a list, each with its activity, its number and whether it is done.
fn marked_items(alloc: Global, items: &[Item]) -> Result<List<(ActId, u32, bool)>, NoMemory>
    ensures { IfOk result (λ marked. marked ≡ map (λ item. (item.act, item.number, item.done)) items.now) }
{
    let mut marked = List::new(alloc);
    for item in items {
        marked.push((item.act, item.number, item.done))?;
    }
    Ok(marked)
}

// The items of a unit that is up.
fn items_of(alloc: Global, node: &Node<MemDisk>) -> Result<List<(ActId, u32, bool)>, NoMemory>
    ensures { IfOk result (λ items. items ≡ node_items node.now.part node.now.past) }
{
    let list = worklist(alloc, node.items(), node.history())?;
    let shown = marked_items(alloc, list.as_slice())?;
    Ok(shown)
}

// The bytes for a peer of an update of a unit that is up.
fn letter_of(
    alloc: Global,
    node: &Node<MemDisk>,
    peer: UnitId,
    step: u32,
) -> Result<Bytes, NoMemory>
    requires first { 1 ≤ step }
    requires kept { (step ≡ taken node.now.past) ⊎ (step ≡ taken node.now.past + 1) }
    ensures bytes { IfOk result (λ bytes. bytes ≡ spelling_of (relevant node.now.part.peers (local_update node.now.part node.now.past step) peer.0)) }
    ensures update { IfOk result (λ _. IsUpdate (relevant node.now.part.peers (local_update node.now.part node.now.past step) peer.0)) }
    ensures some { IfOk result (λ bytes. 1 ≤ length bytes) }
{
    let update = node.sending(peer, step)?;
    keep_update(&update);
    encode(alloc, &update)
}

impl Slot {
    /// What it shows, none exactly if it is down. It refuses only if memory runs out. In linear time in the part and the view.
    pub fn show(&self) -> Result<Option<Sight>, NoMemory>
        ensures sight { IfOk result (λ shown. IfSome shown (λ sight. sight ≡ node_sight self.now.part self.now.past)) }
        ensures down { IfOk result (λ shown. (shown ≡ None) ↔ (self.now.health ≡ IsDown)) }
    {
        match &self.seat {
            Seat::Up(node) => {
                let part = node.part().data();
                let (taken, admitted) = (node.taken(), node.admitted());
                Ok(Some(sight(self.alloc, part, node.view(), taken, admitted)?))
            }
            Seat::Down(_) => Ok(None),
            Seat::Away => unreachable!(),
        }
    }

    /// Its items in order of number, each with its activity and whether an admission completes it; none exactly if it is down. It
    /// refuses only if memory runs out. In linear time in the items.
    pub fn items(&self) -> Result<Option<List<(ActId, u32, bool)>>, NoMemory>
        ensures items { IfOk result (λ shown. IfSome shown (λ items. items ≡ node_items self.now.part self.now.past)) }
        ensures down { IfOk result (λ shown. (shown ≡ None) ↔ (self.now.health ≡ IsDown)) }
    {
        match &self.seat {
            Seat::Up(node) => Ok(Some(items_of(self.alloc, node)?)),
            Seat::Down(_) => Ok(None),
            Seat::Away => unreachable!(),
        }
    }

    /// The bytes for a peer of its own update of a step that it took or the next one. It refuses only if memory runs out. In linear time
    /// in the update and the part.
    pub fn letter(&self, peer: UnitId, step: u32) -> Result<Bytes, NoMemory>
        requires up { self.now.health ≢ IsDown }
        requires first { 1 ≤ step }
        requires kept { (step ≡ taken self.now.past) ⊎ (step ≡ taken self.now.past + 1) }
        ensures bytes { IfOk result (λ bytes. bytes ≡ spelling_of (relevant self.now.part.peers (local_update self.now.part self.now.past step) peer.0)) }
        ensures update { IfOk result (λ _. IsUpdate (relevant self.now.part.peers (local_update self.now.part self.now.past step) peer.0)) }
        ensures some { IfOk result (λ bytes. 1 ≤ length bytes) }
    {
        match &self.seat {
            Seat::Up(node) => letter_of(self.alloc, node, peer, step),
            Seat::Down(_) => unreachable!(),
            Seat::Away => unreachable!(),
        }
    }
}

//! What a unit sends, and what waits until a ring has room.
ghost use Rattle.std.specs.Prelude.{◌≡◌, ◌≢◌, ◌⊎◌, ◌+◌, ◌≤◌, ℕ, [], ◌∷◌, ◌++◌, OnOk, OnErr};
ghost use Rattle.wf_histories.specs.Histories.{taken};
ghost use Rattle.wf_exchange.specs.Ports.{ways, pushed_to, CanReach, SameEnds, SameMouths};
ghost use Rattle.wf_server.specs.Sending.{sent_to};

use std::collections::VecDeque;
use wf_disk::Disk;
use wf_exchange::Port;
use wf_model::{NoMemory, UnitId, Update};
use wf_server::Node;

/// The updates for a peer that its ring had no room for, oldest first.
#[derive(Drop)]
pub struct Outbox {
    pub waiting: VecDeque<Update>,
}

// Puts an update into the ring to a peer, or behind what waits for it.
fn put(port: &mut Port, outbox: &mut Outbox, peer: UnitId, update: Update) -> Result<(), NoMemory>
    requires reach { CanReach port.old peer.0 }
    ensures ways { ways port.new ≡ ways port.old }
    ensures mouths { (v : ℕ) → SameMouths port.old port.new v }
    ensures others { (v : ℕ) → v ≢ peer.0 → SameEnds port.old port.new v }
    ensures sent { OnOk result (pushed_to port.new peer.0 ++ outbox.new.waiting.items ≡ (pushed_to port.old peer.0 ++ outbox.old.waiting.items) ++ update ∷ []) }
    ensures unsent { OnErr result ((pushed_to port.new peer.0 ≡ pushed_to port.old peer.0) × (outbox.new.waiting.items ≡ outbox.old.waiting.items)) }
{
    if !outbox.waiting.is_empty() {
        outbox.waiting.push_back(update)?;
        return Ok(());
    }
    match port.push(peer, update) {
        Ok(()) => Ok(()),
        Err(back) => {
            outbox.waiting.push_back(back)?;
            Ok(())
        }
    }
}

/// Sends a peer the own update of a step that is taken or the next one: it goes into the ring to the peer, or behind what
/// waits for that ring. It refuses only if memory runs out, and then nothing was sent.
pub fn send<D: Disk>(
    node: &Node<D>,
    port: &mut Port,
    outbox: &mut Outbox,
    peer: UnitId,
    step: u32,
) -> Result<(), NoMemory>
    requires reach { CanReach port.old peer.0 }
    requires first { 1 ≤ step }
    requires kept { (step ≡ taken node.now.past) ⊎ (step ≡ taken node.now.past + 1) }
    ensures ways { ways port.new ≡ ways port.old }
    ensures mouths { (v : ℕ) → SameMouths port.old port.new v }
    ensures others { (v : ℕ) → v ≢ peer.0 → SameEnds port.old port.new v }
    ensures sent { OnOk result (pushed_to port.new peer.0 ++ outbox.new.waiting.items ≡ (pushed_to port.old peer.0 ++ outbox.old.waiting.items) ++ sent_to node.now.part node.now.past peer.0 step ∷ []) }
    ensures unsent { OnErr result ((pushed_to port.new peer.0 ≡ pushed_to port.old peer.0) × (outbox.new.waiting.items ≡ outbox.old.waiting.items)) }
{
    let update = node.sending(peer, step)?;
    put(port, outbox, peer, update)
}

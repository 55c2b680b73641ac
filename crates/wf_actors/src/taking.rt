//! How a unit takes in what a peer sent.
ghost use Rattle.std.specs.Prelude.{◌≡◌, ◌≢◌, ◌+◌, ℕ, is_some};
ghost use Rattle.wf_histories.specs.Histories.{taken};
ghost use Rattle.wf_exchange.specs.Ports.{ways, popped_from, CanReach, SameEnds, SameMouths};
ghost use Rattle.wf_server.specs.Servers.{held};
ghost use Rattle.wf_actors.specs.Taking.{Anywhere, TakesMore, TakesOne};

use wf_disk::Disk;
use wf_exchange::Port;
use wf_model::{UnitId, Update};
use wf_server::Node;

/// So many updates of a peer are popped at a time, at most.
const MOST_POPS: u32 = 8;

// Whether the peer's update of the second next step is held.
#[tactic(auto, using(wf_steps::proofs::Made::made_steps))]
fn is_ahead<D: Disk>(node: &Node<D>, peer: UnitId) -> bool
    ensures { result ≡ is_some (held node.now peer.0 (taken node.now.past + 2)) }
{
    let _made = node.history();
    node.held(peer, node.taken() + 2).is_some()
}

/// Takes in an update, or notes that it is refused.
pub fn take<D: Disk>(node: &mut Node<D>, update: Update, refused: &mut bool)
    ensures { TakesOne node.old node.new update refused.old refused.new }
{
    *refused |= node.receive(update).is_err();
}

/// Takes in what came from a peer, as long as the node doesn't hold the peer's update of its second next step: so it pops none
/// that it has no place for. `refused` is true from the first one on that the node refuses, which is lost.
pub fn take_in<D: Disk>(node: &mut Node<D>, port: &mut Port, refused: &mut bool, peer: UnitId)
    requires reach { CanReach port.old peer.0 }
    ensures ways { ways port.new ≡ ways port.old }
    ensures ends { (v : ℕ) → SameEnds port.old port.new v }
    ensures others { (v : ℕ) → v ≢ peer.0 → SameMouths port.old port.new v }
    ensures more { TakesMore Anywhere peer.0 node.old node.new (popped_from port.old peer.0) (popped_from port.new peer.0) refused.old refused.new }
{
    for _ in 0..MOST_POPS {
        if is_ahead(node, peer) {
            break;
        }
        let Some(update) = port.pop(peer) else {
            break;
        };
        take(node, update, refused);
    }
}

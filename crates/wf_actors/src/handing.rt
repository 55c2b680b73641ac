//! What is handed over after a round, by who holds both ends of each ring.
ghost use Rattle.std.specs.Prelude.{◌≡◌, ◌≢◌, ◌<◌, ℕ, [], ◌++◌};
ghost use Rattle.wf_exchange.specs.Ports.{ways, unit_of, AreJoined, CanReach, pushed_to, popped_from, free_to, SameEnds, SameMouths};
ghost use Rattle.wf_actors.specs.Taking.{Nearby, TakesMore};

use crate::taking::take;
use std::collections::VecDeque;
use wf_disk::Disk;
use wf_exchange::{Port, settle};
use wf_model::Update;
use wf_server::Node;

// Takes in all that lies in the ring.
fn drain<D: Disk>(node: &mut Node<D>, reader: &mut Port, sender: &mut Port, refused: &mut bool)
    requires joined { AreJoined (ways reader.old) (ways sender.old) }
    ensures reader { ways reader.new ≡ ways reader.old }
    ensures sender { ways sender.new ≡ ways sender.old }
    ensures pushed { (v : ℕ) → pushed_to sender.new v ≡ pushed_to sender.old v }
    ensures all { popped_from reader.new (unit_of sender.old) ≡ pushed_to sender.old (unit_of reader.old) }
    ensures room { 0 < free_to sender.new (unit_of reader.old) }
    ensures more { TakesMore Nearby (unit_of sender.old) node.old node.new (popped_from reader.old (unit_of sender.old)) (popped_from reader.new (unit_of sender.old)) refused.old refused.new }
    ensures reader_others { (v : ℕ) → v ≢ unit_of sender.old → SameMouths reader.old reader.new v }
    ensures reader_ends { (v : ℕ) → SameEnds reader.old reader.new v }
    ensures sender_mouths { (v : ℕ) → SameMouths sender.old sender.new v }
{
    while let Some(update) = settle(reader, sender) {
        take(node, update, refused);
    }
}

/// All that the sender put into the ring to the reader, and then all that waits in the sender's outbox for the reader, goes
/// through the ring to the reader's node. `refused` is true from the first update on that the node refuses, which is lost.
pub fn hand_over<D: Disk>(
    node: &mut Node<D>,
    reader: &mut Port,
    sender: &mut Port,
    outbox: &mut VecDeque<Update>,
    refused: &mut bool,
)
    requires joined { AreJoined (ways reader.old) (ways sender.old) }
    requires reach { CanReach sender.old (unit_of reader.old) }
    ensures reader { ways reader.new ≡ ways reader.old }
    ensures sender { ways sender.new ≡ ways sender.old }
    ensures pushed { pushed_to sender.new (unit_of reader.old) ≡ pushed_to sender.old (unit_of reader.old) ++ outbox.old.items }
    ensures all { popped_from reader.new (unit_of sender.old) ≡ pushed_to sender.new (unit_of reader.old) }
    ensures none_waits { outbox.new.items ≡ [] }
    ensures more { TakesMore Nearby (unit_of sender.old) node.old node.new (popped_from reader.old (unit_of sender.old)) (popped_from reader.new (unit_of sender.old)) refused.old refused.new }
    ensures reader_others { (v : ℕ) → v ≢ unit_of sender.old → SameMouths reader.old reader.new v }
    ensures reader_ends { (v : ℕ) → SameEnds reader.old reader.new v }
    ensures sender_mouths { (v : ℕ) → SameMouths sender.old sender.new v }
    ensures sender_others { (v : ℕ) → v ≢ unit_of reader.old → pushed_to sender.new v ≡ pushed_to sender.old v }
{
    let to = reader.unit();
    drain(node, reader, sender, refused);
    while let Some(update) = outbox.pop_front() {
        let _ = sender.push(to, update);
        drain(node, reader, sender, refused);
    }
}

//! A unit's ends of the rings to and from the other units. Updates come out in the order in which they were put in.
ghost use Rattle.std.specs.Prelude.{◌≡◌, ◌≢◌, ◌+◌, ◌<◌, ◌≤◌, ℕ, [], ◌∷◌, ◌++◌, OnOk, IfErr, IfSome, IfNone, slice_get};
ghost use Rattle.wf_exchange.specs.Ports.{ways, unit_of, AreJoined, CanReach, SameEnds, SameMouths, pushed_to, popped_from, free_to, known_from};

use crate::end::{End, Mouth};
use crate::ring::settle_ring;
use wf_model::{UnitId, Update};

/// One end of a ring to each unit, and one of a ring from each, in unit order.
#[derive(Drop)]
pub struct Port {
    pub(crate) unit: UnitId,
    pub(crate) ends: Vec<End<Update>>,
    pub(crate) mouths: Vec<Mouth<Update>>,
}

impl Port {
    /// Whose it is.
    pub fn unit(&self) -> UnitId
        ensures { result.0 ≡ unit_of self.now }
    {
        self.unit
    }

    /// Puts an update into the ring to a unit, or hands it back where no free slot is known. Takes no memory.
    pub fn push(&mut self, to: UnitId, update: Update) -> Result<(), Update>
        requires { CanReach self.old to.0 }
        ensures ways { ways self.new ≡ ways self.old }
        ensures ok { OnOk result ((pushed_to self.new to.0 ≡ pushed_to self.old to.0 ++ update ∷ []) × (free_to self.old to.0 ≤ free_to self.new to.0 + 1)) }
        ensures full { IfErr result (λ back. (back ≡ update) × (pushed_to self.new to.0 ≡ pushed_to self.old to.0) × (free_to self.old to.0 ≡ 0)) }
        ensures others { (v : ℕ) → v ≢ to.0 → SameEnds self.old self.new v }
        ensures mouths { (v : ℕ) → SameMouths self.old self.new v }
    {
        self.ends[to.0 as usize].push(update)
    }

    /// The next update from a unit, or `None` where none is known. Takes no memory.
    pub fn pop(&mut self, from: UnitId) -> Option<Update>
        requires { CanReach self.old from.0 }
        ensures ways { ways self.new ≡ ways self.old }
        ensures some { IfSome result (λ x. popped_from self.new from.0 ≡ popped_from self.old from.0 ++ x ∷ []) }
        ensures none { IfNone result ((popped_from self.new from.0 ≡ popped_from self.old from.0) × (known_from self.new from.0 ≡ [])) }
        ensures others { (v : ℕ) → v ≢ from.0 → SameMouths self.old self.new v }
        ensures ends { (v : ℕ) → SameEnds self.old self.new v }
    {
        self.mouths[from.0 as usize].pop()
    }
}

/// The next update that the sender put into its ring to the reader, by who holds both ports. `None` says that the ring
/// is empty, so that a push goes in.
pub fn settle(reader: &mut Port, sender: &mut Port) -> Option<Update>
    requires joined { AreJoined (ways reader.old) (ways sender.old) }
    ensures reader { ways reader.new ≡ ways reader.old }
    ensures sender { ways sender.new ≡ ways sender.old }
    ensures pushed { (v : ℕ) → pushed_to sender.new v ≡ pushed_to sender.old v }
    ensures some { IfSome result (λ x. popped_from reader.new (unit_of sender.old) ≡ popped_from reader.old (unit_of sender.old) ++ x ∷ []) }
    ensures prefix { popped_from reader.new (unit_of sender.old) ++ known_from reader.new (unit_of sender.old) ≡ pushed_to sender.new (unit_of reader.old) }
    ensures none { IfNone result ((popped_from reader.new (unit_of sender.old) ≡ popped_from reader.old (unit_of sender.old)) × (popped_from reader.new (unit_of sender.old) ≡ pushed_to sender.new (unit_of reader.old)) × (0 < free_to sender.new (unit_of reader.old))) }
    ensures others { (v : ℕ) → v ≢ unit_of sender.old → SameMouths reader.old reader.new v }
    ensures reader_ends { (v : ℕ) → SameEnds reader.old reader.new v }
    ensures sender_mouths { (v : ℕ) → SameMouths sender.old sender.new v }
{
    settle_ring(
        &mut reader.mouths[sender.unit.0 as usize],
        &mut sender.ends[reader.unit.0 as usize],
    )
}

//! What a node shows and sends.
ghost use Rattle.std.specs.Prelude.{◌≡◌, ◌⊎◌, ◌+◌, ◌≤◌, ◌==◌, ℕ, List, Some, find, option_map, IfOk};
ghost use Rattle.std.specs.List.{list_any};
ghost use Rattle.std.specs.Result.{ForOk};
ghost use Rattle.wf_codec.specs.Ranges.{IsInRange};
ghost use Rattle.wf_histories.specs.Histories.{taken, local_update};
ghost use Rattle.wf_steps.specs.Records.{history_of};
ghost use Rattle.wf_server.specs.Sending.{is_own_state, letter_of, sent_to};

use crate::node::Node;
use wf_codec::encode;
use wf_disk::Disk;
use wf_model::{Bytes, NoMemory, Output, StateId, UnitId, Update, Val, VarId};
use wf_parts::PartData;
use wf_updates::relevant;

/// Whether a state is the unit's own.
pub fn is_own_state(part: &PartData, state: StateId) -> bool
    ensures { result ≡ is_own_state part.now state.0 }
{
    part.states.iter().any(|known| known.id.0 == state.0 && known.unit.0 == part.unit.0)
}

/// Whether a state is one of these.
pub fn is_inside(states: &[StateId], state: StateId) -> bool
    ensures { result ≡ list_any (λ i. i.0 == state.0) states.now }
{
    states.iter().any(|inside| inside.0 == state.0)
}

/// The value of a variable, if it is one of these.
pub fn value_of(vars: &[Output], var: VarId) -> Option<Val>
    ensures { result ≡ option_map (λ o. o.val) (find (λ o. o.var.0 == var.0) vars.now) }
{
    vars.iter()
        .find(|known| known.var.0 == var.0)
        .map(|known| known.val)
}

impl<D: Disk> Node<D> {
    // The own update of a step that is kept.
    fn own_update(&self, step: u32) -> &Update
        requires first { 1 ≤ step }
        requires kept { (step ≡ taken self.now.past) ⊎ (step ≡ taken self.now.past + 1) }
        ensures update { result.now ≡ local_update self.now.part self.now.past step }
        ensures range { IsInRange (local_update self.now.part self.now.past step) }
    {
        let _made = self.replica.history();
        let _part = self.replica.part().data();
        if step == self.replica.taken() {
            self.replica.last_update()
        } else {
            self.replica.next_update()
        }
    }

    /// The update that `letter` spells: the own update of a step that is taken or the next one, cut to what the peer knows. It refuses
    /// only if memory runs out.
    pub fn sending(&self, peer: UnitId, step: u32) -> Result<Update, NoMemory>
        requires first { 1 ≤ step }
        requires kept { (step ≡ taken self.now.past) ⊎ (step ≡ taken self.now.past + 1) }
        ensures update { IfOk result (λ update. update ≡ sent_to self.now.part self.now.past peer.0 step) }
        ensures range { IfOk result IsInRange }
    {
        relevant(self.alloc, self.own_update(step), self.replica.part(), peer)
    }

    /// The bytes for a peer of the own update of a step that is taken or the next one. By each image that a crash now may leave they
    /// are the same, so that a recovery never changes what a peer may hold. It refuses only if memory runs out.
    pub fn letter(&self, peer: UnitId, step: u32) -> Result<Bytes, NoMemory>
        requires first { 1 ≤ step }
        requires kept { (step ≡ taken self.now.past) ⊎ (step ≡ taken self.now.past + 1) }
        ensures bytes { IfOk result (λ bytes. bytes ≡ letter_of self.now.part self.now.past peer.0 step) }
        ensures stable { (file : List ℕ) → (D.told self.now.journal.disk).image ≡ Some file →
            (c : List ℕ) → (D.told self.now.journal.disk).may_leave c →
            ForOk (history_of self.now.part c) (λ other. letter_of self.now.part other peer.0 step ≡ letter_of self.now.part self.now.past peer.0 step) }
    {
        let _stands = &self.journal;
        let _made = self.replica.history();
        let update = self.sending(peer, step)?;
        encode(self.alloc, &update)
    }
}

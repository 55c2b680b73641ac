//! What the expressions of a step read.
ghost use Rattle.std.specs.Prelude.{◌≡◌, slice_index};
ghost use Rattle.wf_model.specs.Bits.{bit};

use wf_expr::Snapshot;
use wf_model::{ActId, StateId, Val, VarId};

/// What a step sees: for each state whether it is in as the step begins, and, once its entries came, the value of each
/// variable, and for each activity how many of its items are open and whether one of them was completed.
#[derive(Drop)]
pub struct StepSnapshot<'a> {
    pub active: &'a [bool],
    pub store: &'a [Val],
    pub counts: &'a [u32],
    pub dones: &'a [bool],
}

impl Snapshot for StepSnapshot<'_> {
    ghost use Rattle.wf_central.specs.Sight.{seen_by};

    ghost seen = { λ s. seen_by s.active.now s.store.now s.counts.now s.dones.now };

    fn is_in(&self, s: StateId) -> bool {
        is_set(self.active, s.0 as usize)
    }

    fn var(&self, v: VarId) -> Val {
        self.store[v.0 as usize]
    }

    fn count(&self, a: ActId) -> u32 {
        number_at(self.counts, a.0 as usize)
    }

    fn done(&self, a: ActId) -> bool {
        is_set(self.dones, a.0 as usize)
    }
}

/// Whether the list has `true` at this place.
pub fn is_set(bits: &[bool], at: usize) -> bool
    ensures { result ≡ bit bits.now at }
{
    match bits.get(at) {
        Some(is_set) => *is_set,
        None => false,
    }
}

// The number at this place, and 0 past the end.
fn number_at(numbers: &[u32], at: usize) -> u32
    ensures { result ≡ slice_index numbers.now at }
{
    match numbers.get(at) {
        Some(number) => *number,
        None => 0,
    }
}

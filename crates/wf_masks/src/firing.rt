//! Which transitions fire.
ghost use Rattle.std.specs.Prelude.{◌≡◌, ◌*◌, ◌<◌, ◌≤◌, ◌&&◌, not, nat_lt, length, map};
ghost use Rattle.std.specs.List.{range_with_len};
ghost use Rattle.wf_model.specs.Bits.{bit};
ghost use Rattle.wf_masks.specs.Masks.{fires_of, meet};

use crate::Bits;

// Whether a transition is enabled and none of its blockers is.
fn is_unblocked<const W: usize>(enabled: &Bits<W>, trans: u32, blockers: &Bits<W>) -> bool
    requires { trans < 64 * W }
    ensures { result ≡ (bit enabled.now trans && not (meet enabled.now blockers.now)) }
{
    enabled.has(trans) && !enabled.meets(blockers)
}

/// The transitions that fire, by number: those that are enabled and of whose blockers none is. Row t has the blockers of transition
/// t, and those past the rows don't fire. Takes no memory, and time linear in the rows times the words.
pub fn fires<const W: usize>(enabled: &Bits<W>, blockers: &[Bits<W>]) -> Bits<W>
    requires some { 1 ≤ W }
    requires few { W ≤ 64 }
    requires rows { length blockers.now ≤ 64 * W }
    ensures { result ≡ map (λ t. nat_lt t (length blockers.now) && fires_of enabled.now blockers.now t) (range_with_len 0 (64 * W)) }
{
    let mut firing = Bits::new();
    for (t, row) in blockers.iter().enumerate() {
        if is_unblocked(enabled, t as u32, row) {
            firing.set(t as u32);
        }
    }
    firing
}

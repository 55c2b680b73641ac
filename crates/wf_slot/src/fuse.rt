//! What a world knows of a disk that is armed.
ghost use Rattle.std.specs.Prelude.{◌≡◌, ◌<◌, IfSome};
ghost use Rattle.wf_machine.specs.Strokes.{strokes, Done};
ghost use Rattle.wf_slot.specs.Fuses.{fuse_of};

use wf_disk::Arm;

/// An arm that is set on a unit's disk, and which of the strokes to come it counts, from 1.
#[derive(Clone, Copy)]
pub struct Fuse {
    pub left: u32,
    pub what: Arm,
}

/// The fuse after so many strokes, all of which were done. Takes no memory.
#[tactic(auto, unfolding(wf_machine::specs::Strokes::strokes))]
pub fn fuse_after(fuse: Option<Fuse>, done: u32) -> Option<Fuse>
    requires { IfSome fuse (λ f. done < f.left) }
    ensures { strokes done (fuse_of fuse) ≡ Done (fuse_of result) }
{
    match fuse {
        Some(Fuse { left, what }) => Some(Fuse {
            left: left - done,
            what,
        }),
        None => None,
    }
}

//! What an expression reads.
ghost use Rattle.std.specs.Prelude.{◌≡◌, IsSome, Some};
ghost use Rattle.wf_model.specs.Seen.{Seen};

use wf_model::{ActId, StateId, Val, VarId};

/// The values that stand as a step begins, for the numbers that there are. Takes no memory.
pub trait Snapshot {
    /// The values by numbers, with `None` for a number that there isn't.
    ghost seen: { Self → Seen };

    /// Whether the state is in.
    fn is_in(&self, s: StateId) -> bool
        requires { IsSome ((seen self.now).state s.0) }
        ensures { (seen self.now).state s.0 ≡ Some result };

    /// The value of the variable.
    fn var(&self, v: VarId) -> Val
        requires { IsSome ((seen self.now).var v.0) }
        ensures { (seen self.now).var v.0 ≡ Some result };

    /// How many items of the activity are open.
    fn count(&self, a: ActId) -> u32
        requires { IsSome ((seen self.now).count a.0) }
        ensures { (seen self.now).count a.0 ≡ Some result };

    /// Whether an item of the activity is completed in this step.
    fn done(&self, a: ActId) -> bool
        requires { IsSome ((seen self.now).done a.0) }
        ensures { (seen self.now).done a.0 ≡ Some result };
}

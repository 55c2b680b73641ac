//! Why a chart is refused.
ghost use Rattle.std.specs.Prelude.{◌≡◌};
ghost use Rattle.wf_check.specs.declared.fault.CheckFault.TheVariants.{NoMemory};

use wf_model::{ActId, StateId, TransId, VarId};

/// A kind of part of a chart, in the order in which kinds are looked at.
#[derive(Clone, Copy)]
pub enum What {
    Units,
    Events,
    Vars,
    Activities,
    States,
    Transitions,
    /// The actions of a transition.
    Actions,
    /// The outputs of an activity.
    Outputs,
    /// The nodes of an expression.
    Nodes,
    /// The chart itself, for its name.
    Chart,
}

/// Where a value hasn't the sort that is wanted.
#[derive(Clone, Copy)]
pub enum TypePlace {
    /// The first value of the variable.
    Var(VarId),
    /// The guard of the transition, which has to be a bool.
    Guard(TransId),
    /// What an action of the transition assigns. Its actions count from 0.
    Act(TransId, u8),
}

/// Why a chart is refused: the first rule that it breaks.
#[derive(Clone, Copy)]
pub enum CheckFault {
    /// There are more of these than the limit allows.
    TooMany { what: What },
    /// This part names a part that isn't there, or stands out of place: event 0 is `fault`, without unit, and the
    /// parent of each state but the first is the state before it, or an ancestor of that.
    BadId { what: What, at: u32 },
    /// The name of this part isn't one, or was used before.
    BadName { what: What, at: u32 },
    /// There is no state.
    NoRoot,
    /// State 0 is no Or state.
    RootNotOr,
    /// This state is deeper than the limit.
    TooDeep { state: StateId },
    /// This Or state has no children.
    EmptyOr { state: StateId },
    /// This And state has no children.
    EmptyAnd { state: StateId },
    /// This basic state has children.
    BasicWithChildren { state: StateId },
    /// The value at this place hasn't the sort that is wanted.
    BadType { place: TypePlace },
    /// A variable stands twice among the outputs of this activity.
    BadOutput { act: ActId },
    /// The source of this transition is the root.
    SourceRoot { t: TransId },
    /// The target of this transition is the root.
    TargetRoot { t: TransId },
    /// Memory ran out. The chart may be accepted.
    NoMemory,
}

impl From<wf_model::NoMemory> for CheckFault {
    ghost from_gives = { λ _ fault. fault ≡ NoMemory };

    fn from(_e: wf_model::NoMemory) -> CheckFault {
        CheckFault::NoMemory
    }
}

//! What a node answers.
use thiserror::Error;
use wf_journal::{AppendFault, ReadFault, StartFault};
use wf_model::{NoMemory, Outer, OuterFault, UnitSet, Update};
use wf_steps::{HeadNames, RecoverFault};

/// The number of an admission, counted from 1: a new one, or one that was there.
#[derive(Clone, Copy, Debug, PartialEq, Eq)]
pub enum Admitted {
    New(u64),
    Again(u64),
}

/// Why a request isn't admitted.
#[derive(Debug, Drop, Error)]
pub enum AdmitFault {
    /// A disk call of `admit` or `turn` failed since the start.
    #[error("an earlier call of the disk failed")]
    Reopen,
    /// The request was admitted with another outer.
    #[error("request {number} was used")]
    RequestReused { number: u64, kept: Outer },
    /// The event or activity isn't at the unit.
    #[error("the event or activity is not at the unit")]
    WrongUnit,
    /// The unit has no item of this number and activity.
    #[error("there is no such item")]
    NoItem,
    /// An admission completes the item.
    #[error("the item is done already")]
    AlreadyDone,
    /// The outputs aren't those of the activity, in order and sort.
    #[error("the outputs are not those of the activity")]
    WrongOutput,
    /// The journal's file would grow past its limit.
    #[error("the journal is full")]
    JournalFull,
    /// Memory ran out.
    #[error("out of memory")]
    NoMemory,
    /// The disk failed. Its count of faults rose, and the admission may stand or not.
    #[error("the disk failed")]
    DiskFailed,
}

/// What became of an update that came.
#[derive(Clone, Copy, Debug, PartialEq, Eq)]
pub enum Received {
    /// Its step was taken.
    Old,
    /// An equal one is held.
    Same,
    /// It is held from now on.
    Fresh,
}

/// Why an update isn't taken in.
#[derive(Debug, Drop, Error)]
pub enum ReceiveFault {
    /// No other unit of the chart sent it.
    #[error("not from a peer")]
    NotPeer,
    /// Its step is more than two past the last one taken.
    #[error("step {step} is too far ahead")]
    TooFar { step: u32 },
    /// Another update of its sender and step is held. This one is given back.
    #[error("another update of this step is held")]
    Clash { given: Update },
    /// It is outside the ranges of its bytes, or the part says that its sender can't have sent it.
    #[error("the update doesn't fit")]
    Unfit,
}

/// A step that was taken.
#[derive(Clone, Copy, Debug, PartialEq, Eq)]
pub enum Turn {
    Took(u32),
}

/// Why no step is taken.
#[derive(Clone, Copy, Debug, PartialEq, Eq, Error)]
pub enum TurnFault {
    /// A disk call of `admit` or `turn` failed since the start.
    #[error("an earlier call of the disk failed")]
    Reopen,
    /// The updates of these peers didn't come.
    #[error("updates of the next step are missing")]
    Waiting(UnitSet),
    /// 20,000 steps were taken.
    #[error("no step is left")]
    StepLimit,
    /// The journal's file would grow past its limit.
    #[error("the journal is full")]
    JournalFull,
    /// Memory ran out.
    #[error("out of memory")]
    NoMemory,
    /// The disk failed. Its count of faults rose, and the step may stand or not.
    #[error("the disk failed")]
    DiskFailed,
}

/// Why no node is started.
#[derive(Debug, Drop, Error)]
pub enum NodeFault {
    /// The journal is that of another chart or unit.
    #[error("the journal is of another unit")]
    Foreign { kept: HeadNames, wanted: HeadNames },
    /// The first record that is none, or doesn't follow those before it, begins at this place, with this byte.
    #[error("the record at byte {at} doesn't follow")]
    BadRecord { at: u64, first: u8 },
    /// An open gate stands at this place, but no whole frame and gate behind it.
    #[error("the frame at byte {at} is not whole")]
    BadFrame { at: u64 },
    /// Memory ran out.
    #[error("out of memory")]
    NoMemory,
    /// The disk failed. Its count of faults rose.
    #[error("the disk failed")]
    DiskFailed,
}

impl From<NoMemory> for AdmitFault {
    ghost use Rattle.std.specs.Prelude.{◌≡◌};
    ghost use Rattle.wf_server.specs.declared.fault.AdmitFault.TheVariants as admits;

    ghost from_gives = { λ _ fault. fault ≡ admits.NoMemory };

    fn from(_: NoMemory) -> AdmitFault {
        AdmitFault::NoMemory
    }
}

impl From<OuterFault> for AdmitFault {
    ghost use Rattle.std.specs.Prelude.{◌≡◌};
    ghost use Rattle.wf_server.specs.Answers.{refused_by_part};

    ghost from_gives = { λ refusal fault. fault ≡ refused_by_part refusal };

    fn from(refusal: OuterFault) -> AdmitFault {
        match refusal {
            OuterFault::WrongUnit => AdmitFault::WrongUnit,
            OuterFault::NoItem => AdmitFault::NoItem,
            OuterFault::AlreadyDone => AdmitFault::AlreadyDone,
            OuterFault::WrongOutput => AdmitFault::WrongOutput,
        }
    }
}

// A body is never too long: the longest record has 612,424 bytes.
impl From<AppendFault> for AdmitFault {
    ghost use Rattle.std.specs.Prelude.{◌≡◌};
    ghost use Rattle.wf_server.specs.Answers.{unadmitted_by};

    ghost from_gives = { λ refusal fault. fault ≡ unadmitted_by refusal };

    fn from(refusal: AppendFault) -> AdmitFault {
        match refusal {
            AppendFault::Reopen => AdmitFault::Reopen,
            AppendFault::TooLong | AppendFault::Full => AdmitFault::JournalFull,
            AppendFault::NoMemory => AdmitFault::NoMemory,
            AppendFault::DiskFailed => AdmitFault::DiskFailed,
        }
    }
}

impl From<NoMemory> for TurnFault {
    ghost use Rattle.std.specs.Prelude.{◌≡◌};
    ghost use Rattle.wf_server.specs.declared.fault.TurnFault.TheVariants as turns;

    ghost from_gives = { λ _ fault. fault ≡ turns.NoMemory };

    fn from(_: NoMemory) -> TurnFault {
        TurnFault::NoMemory
    }
}

impl From<AppendFault> for TurnFault {
    ghost use Rattle.std.specs.Prelude.{◌≡◌};
    ghost use Rattle.wf_server.specs.Answers.{untaken_by};

    ghost from_gives = { λ refusal fault. fault ≡ untaken_by refusal };

    fn from(refusal: AppendFault) -> TurnFault {
        match refusal {
            AppendFault::Reopen => TurnFault::Reopen,
            AppendFault::TooLong | AppendFault::Full => TurnFault::JournalFull,
            AppendFault::NoMemory => TurnFault::NoMemory,
            AppendFault::DiskFailed => TurnFault::DiskFailed,
        }
    }
}

impl From<StartFault> for NodeFault {
    ghost use Rattle.std.specs.Prelude.{◌≡◌};
    ghost use Rattle.wf_server.specs.Starting.{unstarted_by};

    ghost from_gives = { λ refusal fault. fault ≡ unstarted_by refusal };

    fn from(refusal: StartFault) -> NodeFault {
        match refusal {
            StartFault::BadFrame { at } => NodeFault::BadFrame { at },
            StartFault::DiskFailed => NodeFault::DiskFailed,
            StartFault::NoMemory => NodeFault::NoMemory,
        }
    }
}

impl From<RecoverFault> for NodeFault {
    ghost use Rattle.std.specs.Prelude.{◌≡◌};
    ghost use Rattle.wf_server.specs.Starting.{unrecovered_by};

    ghost from_gives = { λ refusal fault. fault ≡ unrecovered_by refusal };

    fn from(refusal: RecoverFault) -> NodeFault {
        match refusal {
            RecoverFault::Foreign { kept, wanted } => NodeFault::Foreign { kept, wanted },
            RecoverFault::BadRecord { at, first } => NodeFault::BadRecord { at, first },
            RecoverFault::DiskFailed => NodeFault::DiskFailed,
            RecoverFault::NoMemory => NodeFault::NoMemory,
        }
    }
}

//! Why a journal refuses.
ghost use Rattle.std.specs.Prelude.{◌≡◌};
ghost use Rattle.wf_journal.specs.Faults.{start_fault};
ghost use Rattle.wf_journal.specs.declared.fault.ReadFault.TheVariants as read;
ghost use Rattle.wf_journal.specs.declared.fault.StartFault.TheVariants as start;

use std::alloc::AllocError;
use thiserror::Error;
use wf_disk::WriteRefused;
use wf_model::Failed;

/// Why a journal doesn't start.
#[derive(Clone, Copy, Debug, PartialEq, Eq, Error)]
pub enum StartFault {
    /// An open gate stands at this place, but no whole frame and gate behind it.
    #[error("the frame at byte {at} is not whole")]
    BadFrame { at: u64 },
    /// The disk failed. Its count of faults rose.
    #[error("the disk failed")]
    DiskFailed,
    /// Memory ran out.
    #[error("out of memory")]
    NoMemory,
}

/// Why a body isn't appended.
#[derive(Clone, Copy, Debug, PartialEq, Eq, Error)]
pub enum AppendFault {
    /// A disk call of an earlier append failed.
    #[error("an earlier append failed")]
    Reopen,
    /// The body is empty, or longer than a body may be.
    #[error("the body is empty or too long")]
    TooLong,
    /// The file would grow past its limit.
    #[error("the journal is full")]
    Full,
    /// Memory ran out. The bodies are as before.
    #[error("out of memory")]
    NoMemory,
    /// The disk failed. Its count of faults rose, and the body may stand or not.
    #[error("the disk failed")]
    DiskFailed,
}

/// Why a body isn't read.
#[derive(Clone, Copy, Debug, Error)]
pub enum ReadFault {
    /// The disk failed. Its count of faults rose.
    #[error("the disk failed")]
    DiskFailed,
    /// Memory ran out.
    #[error("out of memory")]
    NoMemory,
}

impl From<Failed> for StartFault {
    ghost from_gives = { λ _ fault. fault ≡ start.DiskFailed };

    fn from(_: Failed) -> StartFault {
        StartFault::DiskFailed
    }
}

impl From<WriteRefused> for StartFault {
    ghost from_gives = { λ refused fault. fault ≡ start_fault refused };

    fn from(refused: WriteRefused) -> StartFault {
        match refused {
            WriteRefused::Failed => StartFault::DiskFailed,
            WriteRefused::NoMemory => StartFault::NoMemory,
        }
    }
}

impl From<Failed> for ReadFault {
    ghost from_gives = { λ _ fault. fault ≡ read.DiskFailed };

    fn from(_: Failed) -> ReadFault {
        ReadFault::DiskFailed
    }
}

impl From<AllocError> for ReadFault {
    ghost from_gives = { λ _ fault. fault ≡ read.NoMemory };

    fn from(_: AllocError) -> ReadFault {
        ReadFault::NoMemory
    }
}

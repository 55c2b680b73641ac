//! Why no history is read.
use wf_journal::ReadFault;
use wf_model::{Name, NoMemory};

/// Whose journal it is.
#[derive(Debug, Drop)]
pub struct HeadNames {
    pub chart: Name,
    pub unit: Name,
}

/// Why no history is read from a journal.
#[derive(Debug, Drop)]
pub enum RecoverFault {
    /// The first record names another chart or unit.
    Foreign { kept: HeadNames, wanted: HeadNames },
    /// The first record that is none, or doesn't follow those before it, begins at this place, with this byte.
    BadRecord { at: u64, first: u8 },
    /// The disk failed. Its count of faults rose.
    DiskFailed,
    /// Memory ran out.
    NoMemory,
}

impl From<ReadFault> for RecoverFault {
    ghost use Rattle.std.specs.Prelude.{◌≡◌};
    ghost use Rattle.wf_steps.specs.Recovering.{fault_of};

    ghost from_gives = { λ fault made. made ≡ fault_of fault };

    fn from(fault: ReadFault) -> RecoverFault {
        match fault {
            ReadFault::DiskFailed => RecoverFault::DiskFailed,
            ReadFault::NoMemory => RecoverFault::NoMemory,
        }
    }
}

impl From<NoMemory> for RecoverFault {
    ghost use Rattle.std.specs.Prelude.{◌≡◌};
    ghost use Rattle.wf_steps.specs.declared.fault.RecoverFault.TheVariants as f;

    ghost from_gives = { λ _ made. made ≡ f.NoMemory };

    fn from(_: NoMemory) -> RecoverFault {
        RecoverFault::NoMemory
    }
}

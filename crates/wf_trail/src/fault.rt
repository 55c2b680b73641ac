//! Why there is no trail.
ghost use Rattle.std.specs.Prelude.{◌≡◌};
ghost use Rattle.wf_trail.specs.Images as spec;

use wf_model::{NoMemory, UnitId};
use wf_steps::{HeadNames, RecoverFault};

/// Why there is no trail.
#[derive(Debug, Drop)]
pub enum TrailFault {
    /// The disk of this unit failed, or the shelf in handing it out or taking it back.
    DiskFailed {
        unit: UnitId,
    },
    /// The first record of this unit's journal names another chart or unit.
    Foreign {
        unit: UnitId,
        kept: HeadNames,
        wanted: HeadNames,
    },
    /// In this unit's journal stands at this place, with this byte, what is no whole frame, no record, or a record that
    /// doesn't follow those before it.
    Bad {
        unit: UnitId,
        at: u64,
        first: u8,
    },
    /// The text has more than `MAX_REPORT` bytes.
    TooLong,
    /// Memory ran out.
    NoMemory,
}

impl From<NoMemory> for TrailFault {
    ghost use Rattle.wf_trail.specs.declared.fault.TrailFault.TheVariants as f;

    ghost from_gives = { λ _ made. made ≡ f.NoMemory };

    fn from(_: NoMemory) -> TrailFault {
        TrailFault::NoMemory
    }
}

/// A fault of a unit's journal, as a trail tells it.
pub fn fault_at(unit: UnitId, fault: RecoverFault) -> TrailFault
    ensures { result ≡ spec.fault_at unit fault }
{
    match fault {
        RecoverFault::Foreign { kept, wanted } => TrailFault::Foreign { unit, kept, wanted },
        RecoverFault::BadRecord { at, first } => TrailFault::Bad { unit, at, first },
        RecoverFault::DiskFailed => TrailFault::DiskFailed { unit },
        RecoverFault::NoMemory => TrailFault::NoMemory,
    }
}

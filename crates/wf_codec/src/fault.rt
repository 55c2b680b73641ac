//! Why bytes are refused.
ghost use Rattle.std.specs.Prelude.{◌≡◌};

use wf_model::NoMemory;

/// Why no update begins the bytes.
#[derive(Clone, Copy)]
pub enum CodecFault {
    /// The bytes end before the last field does, and no field before is wrong.
    Short,
    /// The first byte isn't an update's.
    BadTag,
    /// The first field that is not in its range begins at this byte, counted from 0.
    BadField { at: usize },
    /// Memory ran out.
    NoMemory,
}

/// Why a body is no record.
#[derive(Clone, Copy)]
pub enum RecordFault {
    /// No record has this body.
    NotRecord,
    /// Memory ran out.
    NoMemory,
}

/// What is wrong with bytes: the first fault from the left.
#[derive(Clone, Copy)]
pub enum Misfit {
    /// The bytes end before a field does.
    Short,
    /// A field isn't in its range. So many bytes are left from its first byte on.
    Bad { left: usize },
}

/// Why a field isn't read.
#[derive(Clone, Copy)]
pub enum FieldFault {
    NoMemory,
    Misfit(Misfit),
}

impl From<NoMemory> for FieldFault {
    ghost use Rattle.wf_codec.specs.declared.fault.FieldFault.{FieldFault};

    ghost from_gives = { λ _ fault. fault ≡ FieldFault.NoMemory };

    fn from(_: NoMemory) -> FieldFault {
        FieldFault::NoMemory
    }
}

impl From<FieldFault> for RecordFault {
    ghost use Rattle.wf_codec.specs.Answers.{record_fault};

    ghost from_gives = { λ fault made. made ≡ record_fault fault };

    fn from(fault: FieldFault) -> RecordFault {
        match fault {
            FieldFault::NoMemory => RecordFault::NoMemory,
            FieldFault::Misfit(_) => RecordFault::NotRecord,
        }
    }
}

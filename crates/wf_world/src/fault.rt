//! What keeps a world from going on.
use thiserror::Error;
use wf_model::NoMemory;

/// Why a world can't go on. It is only dropped then.
#[derive(Clone, Copy, Debug, PartialEq, Eq, Error)]
pub enum ActFault {
    /// The bytes of all messages would be more than 256 MiB.
    #[error("too many bytes were sent")]
    SentLimit,
    /// Memory ran out.
    #[error("out of memory")]
    NoMemory,
}

impl From<NoMemory> for ActFault {
    ghost use Rattle.std.specs.Prelude.{◌≡◌};
    ghost use Rattle.wf_world.specs.declared.fault.ActFault.TheVariants as faults;

    ghost from_gives = { λ _ fault. fault ≡ faults.NoMemory };

    fn from(_: NoMemory) -> ActFault {
        ActFault::NoMemory
    }
}

//! Why a unit stops in a round.
use wf_model::NoMemory;

/// Why a unit does no more in a round, and the host gives up after it.
#[derive(Clone, Copy, Debug, PartialEq, Eq)]
pub enum Stop {
    /// Its disk failed. The disk's count of faults rose.
    DiskFailed,
    /// Its journal would grow past its limit.
    JournalFull,
    /// It took as many steps as a run may have.
    StepLimit,
    /// Memory ran out.
    NoMemory,
}

impl From<NoMemory> for Stop {
    ghost use Rattle.std.specs.Prelude.{◌≡◌};
    ghost use Rattle.wf_actors.specs.declared.stop.Stop.TheVariants as stops;

    ghost from_gives = { λ _ stop. stop ≡ stops.NoMemory };

    fn from(_: NoMemory) -> Stop {
        Stop::NoMemory
    }
}

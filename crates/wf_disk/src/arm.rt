//! What a disk in memory does at the stroke for which it is armed.
ghost use Rattle.std.specs.Prelude.{◌≡◌, ◌+◌, ◌==◌, Option};
ghost use Rattle.wf_disk.specs.Arms.{is_counted, fate_at, fate_by};

/// What a crash does to what wasn't synced.
#[derive(Clone, Copy)]
pub enum Outcome {
    /// What was written stays.
    Keep,
    /// What was synced last is there again.
    Lose,
    /// What was synced last is there again, with each range that was written since then full of 0xFF.
    Torn,
}

/// What the counted stroke does.
#[derive(Clone, Copy)]
pub enum Arm {
    /// It fails, and leaves the bytes as they were.
    Fail,
    /// It is done, where it is a write. It fails, and the disk stops until it is revived with this outcome.
    Crash(Outcome),
}

/// An arm that was set: which stroke is the counted one, and what it does.
#[derive(Clone, Copy)]
pub struct Armed {
    /// The clock as the arm was set.
    pub after: u64,
    /// The number of the counted stroke from then on, counted from 1. A 0 counts none.
    pub stroke: u32,
    /// What the counted stroke does.
    pub what: Arm,
}

/// What a stroke does.
#[derive(Clone, Copy)]
pub enum Fate {
    /// It is done.
    Done,
    /// It fails, and leaves the bytes as they were.
    Fails,
    /// It is done, where it is a write. It fails, and the disk stops.
    Stops(Outcome),
}

impl Armed {
    /// Whether the stroke that moves the clock to this number is the counted one.
    fn counts(&self, number: u64) -> bool
        ensures { result ≡ is_counted self.now number }
    {
        self.after <= number && number - self.after == u64::from(self.stroke)
    }

    /// What the counted stroke does.
    fn fate(&self) -> Fate
        ensures { result ≡ fate_by self.now.what }
    {
        match self.what {
            Arm::Fail => Fate::Fails,
            Arm::Crash(outcome) => Fate::Stops(outcome),
        }
    }
}

/// What the stroke that moves the clock to this number does.
pub fn fate_at(arm: Option<Armed>, number: u64) -> Fate
    ensures { result ≡ fate_at arm number }
{
    match arm {
        Some(arm) => {
            if arm.counts(number) {
                arm.fate()
            } else {
                Fate::Done
            }
        }
        None => Fate::Done,
    }
}

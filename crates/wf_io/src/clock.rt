//! What the time is asked of.
ghost use Rattle.std.specs.Prelude.{◌≡◌, ◌<◌, ℤ, Option, None, Some, length};

use std::marker::Model;
use wf_model::List;

/// A clock, which never fails. A moment is a number of seconds since 1970 began, in UTC.
pub trait Clock {
    /// The moment that it gave last, or none before the first.
    ghost last: { Self → Option ℤ };

    /// The moment that it is.
    fn now(&mut self) -> i64
        ensures { last self.new ≡ Some result };
}

/// A clock that gives the moments of a list in order, and then the last one again and again.
#[derive(Drop)]
pub struct ScriptClock {
    moments: List<i64>,
    at: usize,
    last: Option<i64>,
}

impl Model for ScriptClock {
    ghost use Rattle.std.specs.Prelude.{◌<◌, drop, length};
    ghost use Rattle.wf_io.specs.Script.{Script};

    ghost Value = { Script };

    ghost view = { λ clock. record { coming = drop clock.at clock.moments; last = clock.last } };

    ghost invariant = { λ clock. clock.at < length clock.moments };
}

impl ScriptClock {
    /// A clock that has given no moment yet, and gives these in order. There is at least one.
    pub fn new(moments: List<i64>) -> ScriptClock
        requires { 0 < length moments }
        ensures coming { result.coming ≡ moments }
        ensures last { result.last ≡ None }
    {
        ScriptClock {
            moments,
            at: 0,
            last: None,
        }
    }
}

impl Clock for ScriptClock {
    ghost use Rattle.wf_io.specs.Script.{GivesNext};

    ghost last = { λ clock. clock.last };

    fn now(&mut self) -> i64
        ensures last { self.new.last ≡ Some result }
        ensures next { GivesNext self.old self.new result }
    {
        let moment = self.moments.as_slice()[self.at];
        if self.at + 1 < self.moments.len() {
            self.at += 1;
        }
        self.last = Some(moment);
        moment
    }
}

//! Where bytes come from and go to.
ghost use Rattle.std.specs.Prelude.{ℕ, List, Option, ◌<◌, length, IfOk};
ghost use Rattle.std.specs.Io.{ReadsAtMost, WritesAtMost};
ghost use Rattle.std.specs.Io.KnownBytes.{ReadConsumes, WriteAppends};
ghost use Rattle.wf_io.specs.Causes.{HasCause};

use wf_model::Failed;

/// What bytes are read from.
pub trait Source {
    /// The bytes that are left, where it tells.
    ghost left: { Self → Option (List ℕ) };

    /// How often it has failed. The count stops at the greatest `u64`.
    ghost faults: { Self → ℕ };

    /// Reads bytes into the front of `into`, and gives how many. `Ok(0)`, where `into` isn't empty, is the end.
    /// It fails only where its count of faults rises, and has then read nothing.
    fn read(&mut self, into: &mut [u8]) -> Result<usize, Failed>
        ensures bound { ReadsAtMost result into.new }
        ensures bytes { ReadConsumes (left self.old) (left self.new) result into.new }
        ensures cause { HasCause (faults self.old) (faults self.new) result };
}

/// What bytes are written to.
pub trait Sink {
    /// The bytes that it holds, where it tells.
    ghost held: { Self → Option (List ℕ) };

    /// How often it has failed. The count stops at the greatest `u64`.
    ghost faults: { Self → ℕ };

    /// Writes the front of `bytes`, and gives how many: at least one, where there is one.
    /// It fails only where its count of faults rises, and has then written nothing.
    fn write(&mut self, bytes: &[u8]) -> Result<usize, Failed>
        ensures bound { WritesAtMost result bytes.now }
        ensures some { IfOk result (λ n. 0 < length bytes.now → 0 < n) }
        ensures bytes { WriteAppends (held self.old) (held self.new) result bytes.now }
        ensures cause { HasCause (faults self.old) (faults self.new) result };
}

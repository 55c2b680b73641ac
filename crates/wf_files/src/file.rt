//! What a disk asks of an open file.
ghost use Rattle.std.specs.Prelude.{◌≡◌, ℕ, List, Option, None, length, take, IfOk, IsErr, IfSome};
ghost use Rattle.std.specs.Io.{ReadsAtMost, WritesAtMost};
ghost use Rattle.wf_files.specs.Bytes.{IsRead, IsPut};

use std::fs::File;
use std::io;
use std::os::unix::fs::FileExt;

/// An open file. A call may do less than it is asked, and then says how much it did. It may fail with `Interrupted`,
/// and is then to be made again.
pub trait ByteFile {
    /// The bytes that it holds, where it tells them.
    ghost held: { Self → Option (List ℕ) };

    /// How many bytes it has.
    fn size(&mut self) -> io::Result<u64>
        ensures value { IfOk result (λ n. IfSome (held self.old) (λ file. n ≡ length file)) }
        ensures same { held self.new ≡ held self.old };

    /// Reads bytes from `at` on into the front of `into`, and gives how many. 0, where `into` isn't empty, is the end.
    fn read_some(&mut self, at: u64, into: &mut [u8]) -> io::Result<usize>
        ensures bound { ReadsAtMost result into.new }
        ensures bytes { IfOk result (λ n. IsRead (held self.old) at n into.new) }
        ensures same { held self.new ≡ held self.old };

    /// Writes the front of `bytes`, over what is there from `at` on, and gives how many. A failure writes none.
    fn write_some(&mut self, at: u64, bytes: &[u8]) -> io::Result<usize>
        ensures bound { WritesAtMost result bytes.now }
        ensures bytes { IfOk result (λ n. IsPut (held self.old) (held self.new) at (take n bytes.now)) }
        ensures none { IsErr result → held self.new ≡ held self.old };

    /// After it the system keeps what was written.
    fn sync(&mut self) -> io::Result<()>
        ensures same { held self.new ≡ held self.old };
}

/// A file of the system tells nothing of what it holds.
impl ByteFile for File {
    ghost held = { λ _. None };

    fn size(&mut self) -> io::Result<u64> {
        Ok(self.metadata()?.len())
    }

    fn read_some(&mut self, at: u64, into: &mut [u8]) -> io::Result<usize> {
        self.read_at(into, at)
    }

    fn write_some(&mut self, at: u64, bytes: &[u8]) -> io::Result<usize> {
        self.write_at(bytes, at)
    }

    fn sync(&mut self) -> io::Result<()> {
        self.sync_data()
    }
}

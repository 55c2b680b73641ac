//! Reads and writes of whole ranges, made again where a signal cut them short, and gone on with after a piece.
ghost use Rattle.std.specs.Prelude.{◌≡◌, ◌≢◌, ◌<◌, ◌+◌, ◌^◌, length, take, IfOk, IfErr, OnOk};
ghost use Rattle.std.specs.Io.{ReadsAtMost, WritesAtMost};
ghost use Rattle.std.specs.IoError.{error_kind};
ghost use Rattle.wf_files.specs.Bytes.{IsRead, IsPut};

use crate::ByteFile;
use std::io;
use std::io::ErrorKind;

/// One read, made again where a signal interrupts it.
fn read_again<F: ByteFile>(file: &mut F, at: u64, into: &mut [u8]) -> io::Result<usize>
    ensures bound { ReadsAtMost result into.new }
    ensures bytes { IfOk result (λ n. IsRead (F.held file.old) at n into.new) }
    ensures same { F.held file.new ≡ F.held file.old }
    ensures retried { IfErr result (λ e. error_kind e ≢ ErrorKind.Interrupted) }
{
    'reads: for _ in 0..u64::MAX {
        match file.read_some(at, into) {
            Err(error) if error.kind() == ErrorKind::Interrupted => {}
            result => return result,
        }
    }
    Err(io::Error::from(ErrorKind::TimedOut))
}

/// One write, made again where a signal interrupts it.
fn write_again<F: ByteFile>(file: &mut F, at: u64, bytes: &[u8]) -> io::Result<usize>
    ensures bound { WritesAtMost result bytes.now }
    ensures bytes { IfOk result (λ n. IsPut (F.held file.old) (F.held file.new) at (take n bytes.now)) }
    ensures retried { IfErr result (λ e. error_kind e ≢ ErrorKind.Interrupted) }
{
    'writes: for _ in 0..u64::MAX {
        match file.write_some(at, bytes) {
            Err(error) if error.kind() == ErrorKind::Interrupted => {}
            result => return result,
        }
    }
    Err(io::Error::from(ErrorKind::TimedOut))
}

/// Fills `into` with the bytes from `at` on. It fails at the end of the file.
pub fn read_whole<F: ByteFile>(file: &mut F, at: u64, into: &mut [u8]) -> io::Result<()>
    ensures bytes { OnOk result (IsRead (F.held file.old) at (length into.old) into.new) }
    ensures same { F.held file.new ≡ F.held file.old }
{
    let mut done = 0;
    'pieces: while done < into.len() {
        let Some(place) = at.checked_add(done as u64) else {
            return Err(io::Error::from(ErrorKind::InvalidInput));
        };
        let count = read_again(file, place, &mut into[done..])?;
        if count == 0 {
            return Err(io::Error::from(ErrorKind::UnexpectedEof));
        }
        done += count;
    }
    Ok(())
}

/// Writes all bytes, over what is there from `at` on.
pub fn write_whole<F: ByteFile>(file: &mut F, at: u64, bytes: &[u8]) -> io::Result<()>
    requires { at + length bytes.now < 2 ^ 63 }
    ensures { OnOk result (IsPut (F.held file.old) (F.held file.new) at bytes.now) }
{
    let mut done = 0;
    'pieces: while done < bytes.len() {
        let count = write_again(file, at + done as u64, &bytes[done..])?;
        if count == 0 {
            return Err(io::Error::from(ErrorKind::WriteZero));
        }
        done += count;
    }
    Ok(())
}

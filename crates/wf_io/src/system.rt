//! The adapters over std's readers and writers, and over the system's clock.
ghost use Rattle.std.specs.Prelude.{◌≡◌, ◌≢◌, ◌≤ℤ◌, negsuc, ℤ, IfErr, None, Option, Some};
ghost use Rattle.std.specs.Io.{ReadsAtMost, WritesAtMost};
ghost use Rattle.std.specs.IoError.{error_kind};
ghost use Rattle.std.specs.Io.KnownBytes.{ReadConsumes, WriteAppends};

use crate::{Clock, Sink, Source};
use std::io::{ErrorKind, Read, Write};
use std::marker::Model;
use std::{io, time};
use wf_model::Failed;

// One read, made again where a signal interrupts it.
fn read_again<R: Read>(reader: &mut R, into: &mut [u8]) -> io::Result<usize>
    ensures bound { ReadsAtMost result into.new }
    ensures bytes { ReadConsumes (R.remaining reader.old) (R.remaining reader.new) result into.new }
    ensures retried { IfErr result (λ e. error_kind e ≢ ErrorKind.Interrupted) }
{
    'reads: for _ in 0..u64::MAX {
        match reader.read(into) {
            Err(e) if e.kind() == ErrorKind::Interrupted => {}
            result => return result,
        }
    }
    Err(io::Error::from(ErrorKind::TimedOut))
}

// One write, made again where a signal interrupts it.
fn write_again<W: Write>(writer: &mut W, bytes: &[u8]) -> io::Result<usize>
    ensures bound { WritesAtMost result bytes.now }
    ensures bytes { WriteAppends (W.contents writer.old) (W.contents writer.new) result bytes.now }
    ensures retried { IfErr result (λ e. error_kind e ≢ ErrorKind.Interrupted) }
{
    'writes: for _ in 0..u64::MAX {
        match writer.write(bytes) {
            Err(e) if e.kind() == ErrorKind::Interrupted => {}
            result => return result,
        }
    }
    Err(io::Error::from(ErrorKind::TimedOut))
}

/// Any reader of std. A read that a signal interrupts is made again.
#[derive(Drop)]
pub struct StdSource<R: Read> {
    inner: R,
    faults: u64,
}

impl<R: Read> Model for StdSource<R> {
    ghost use Rattle.wf_io.specs.Told.{Told};

    ghost Value = { Told };

    ghost view = { λ s. record { bytes = R.remaining s.inner; faults = s.faults } };
}

impl<R: Read> StdSource<R> {
    /// A source of what the reader gives.
    pub fn new(inner: R) -> StdSource<R>
        ensures left { result.bytes ≡ R.remaining inner }
        ensures faults { result.faults ≡ 0 }
    {
        StdSource { inner, faults: 0 }
    }
}

impl<R: Read> Source for StdSource<R> {
    ghost left = { λ s. s.bytes };

    ghost faults = { λ s. s.faults };

    fn read(&mut self, into: &mut [u8]) -> Result<usize, Failed> {
        match read_again(&mut self.inner, into) {
            Ok(count) => Ok(count),
            Err(_) => {
                self.faults = self.faults.saturating_add(1);
                Err(Failed)
            }
        }
    }
}

/// Any writer of std. A write that a signal interrupts is made again. Where the writer takes nothing of a piece with
/// bytes, that is a fault.
#[derive(Drop)]
pub struct StdSink<W: Write> {
    inner: W,
    faults: u64,
}

impl<W: Write> Model for StdSink<W> {
    ghost use Rattle.wf_io.specs.Told.{Told};

    ghost Value = { Told };

    ghost view = { λ s. record { bytes = W.contents s.inner; faults = s.faults } };
}

impl<W: Write> StdSink<W> {
    /// A sink that passes on to the writer.
    pub fn new(inner: W) -> StdSink<W>
        ensures held { result.bytes ≡ W.contents inner }
        ensures faults { result.faults ≡ 0 }
    {
        StdSink { inner, faults: 0 }
    }
}

impl<W: Write> Sink for StdSink<W> {
    ghost held = { λ s. s.bytes };

    ghost faults = { λ s. s.faults };

    fn write(&mut self, bytes: &[u8]) -> Result<usize, Failed> {
        match write_again(&mut self.inner, bytes) {
            Ok(count) if count > 0 || bytes.is_empty() => Ok(count),
            _ => {
                self.faults = self.faults.saturating_add(1);
                Err(Failed)
            }
        }
    }
}

/// The system's clock. It gives -1 where the system gives no moment, or one before 1970.
#[derive(Drop)]
pub struct StdClock<C: time::Clock> {
    system: C,
    last: Option<i64>,
}

impl<C: time::Clock> Model for StdClock<C> {
    ghost Value = { Option ℤ };

    ghost view = { λ clock. clock.last };
}

impl<C: time::Clock> StdClock<C> {
    /// The clock of a runtime, that has given no moment yet.
    pub fn new(system: C) -> StdClock<C>
        ensures { result ≡ None }
    {
        StdClock { system, last: None }
    }
}

impl<C: time::Clock> Clock for StdClock<C> {
    ghost last = { λ clock. clock };

    fn now(&mut self) -> i64
        ensures last { self.new ≡ Some result }
        ensures least { negsuc 0 ≤ℤ result }
    {
        let moment = match self.system.since_1970() {
            Ok(time) => i64::try_from(time.as_secs()).unwrap_or(-1),
            Err(_) => -1,
        };
        self.last = Some(moment);
        moment
    }
}

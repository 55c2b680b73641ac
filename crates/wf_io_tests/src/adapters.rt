//! A reader, a writer and clocks over which the adapters stand.
ghost use Rattle.std.specs.Prelude.{◌≡◌, IfOk};

use std::io::{ErrorKind, Read, Write};
use std::test::Fail;
use std::time::Duration;
use std::{io, time};
use wf_io::{Clock, Sink, Source, StdClock, StdSink, StdSource, read_all, write_all};

/// A signal interrupts its first call and each other one. The others fail if it is broken; else it is at its end, and
/// takes what is written.
#[derive(Drop)]
struct Interrupted {
    calls: u8,
    is_broken: bool,
}

impl Interrupted {
    fn call(&mut self, count: usize) -> io::Result<usize>
        ensures { IfOk result (λ n. n ≡ count) }
    {
        self.calls ^= 1;
        if self.calls == 1 {
            Err(io::Error::from(ErrorKind::Interrupted))
        } else if self.is_broken {
            Err(io::Error::from(ErrorKind::BrokenPipe))
        } else {
            Ok(count)
        }
    }
}

impl Read for Interrupted {
    fn read(&mut self, _into: &mut [u8]) -> io::Result<usize> {
        self.call(0)
    }
}

impl Write for Interrupted {
    fn write(&mut self, bytes: &[u8]) -> io::Result<usize> {
        self.call(bytes.len())
    }

    fn flush(&mut self) -> io::Result<()> {
        Ok(())
    }
}

#[test]
fn interrupted_calls_are_made_again(rt: HostRuntime) {
    for is_broken in [false, true] {
        let mut source = StdSource::new(Interrupted {
            calls: 0,
            is_broken,
        });
        let mut sink = StdSink::new(Interrupted {
            calls: 0,
            is_broken,
        });
        let fail = (source.read(&mut [0]).is_err(), sink.write(b"x").is_err());
        assert!(rt; fail == (is_broken, is_broken), "broken {is_broken}");
    }
}

#[test]
fn bytes_come_and_go(rt: HostRuntime) -> Result<(), Fail> {
    let alloc = rt.alloc();
    let mut source = StdSource::new(b"passed on".as_slice());
    let bytes = read_all(alloc, &mut source, 9)?;
    let mut written = Vec::new(alloc);
    write_all(&mut StdSink::new(&mut written), bytes.as_slice())?;
    assert!(rt; written.as_slice() == b"passed on".as_slice());
    Ok(())
}

/// A system whose clock shows so many seconds, or can't be read.
#[derive(Drop)]
struct Fixed(Option<u64>);

impl time::Clock for Fixed {
    fn monotonic(&self) -> io::Result<Duration> {
        self.since_1970()
    }

    fn since_1970(&self) -> io::Result<Duration> {
        match self.0 {
            Some(seconds) => Ok(Duration::from_secs(seconds)),
            None => Err(io::Error::from(ErrorKind::Unsupported)),
        }
    }
}

#[test]
fn clocks(rt: HostRuntime) {
    let rows = [
        (None, -1),
        (Some(0), 0),
        (Some(1_764_000_000), 1_764_000_000),
        (Some(u64::MAX), -1),
    ];
    for (seconds, wanted) in rows {
        assert!(rt;
            StdClock::new(Fixed(seconds)).now() == wanted,
            "at {wanted}"
        );
    }
    assert!(rt; StdClock::new(&rt).now() > 0);
}

//! A source and a sink in memory, which fail at the calls that they are told.
ghost use Rattle.std.specs.Prelude.{◌≡◌, ◌<◌, ◌≤◌, ◌↔◌, [], ◌++◌, drop, take, min, Some, length, Contains, IsTrue, IsErr, IfOk, MatchResult};
ghost use Rattle.std.specs.Io.{ReadsAtMost, WritesAtMost};
ghost use Rattle.std.specs.Io.KnownBytes.{ReadConsumes, WriteAppends};
ghost use Rattle.wf_io.specs.Causes.{HasCause};
ghost use Rattle.wf_io.specs.Memory.{unused, IsToFail, after_fault, after_success};

use crate::{Sink, Source};
use std::alloc::Global;
use std::marker::Model;
use wf_model::{Bytes, Failed, List};

/// Bytes in memory to be read, of which each call gives at most a piece.
#[derive(Drop)]
pub struct MemSource {
    bytes: Bytes,
    at: usize,
    piece: u32,
    fail_at: List<u32>,
    calls: u64,
    faults: u64,
}

impl Model for MemSource {
    ghost use Rattle.std.specs.Prelude.{◌<◌, ◌≤◌, drop, length};
    ghost use Rattle.wf_io.specs.Memory.{InMemory};

    ghost Value = { InMemory };

    ghost view = { λ s. record { bytes = drop s.at s.bytes; piece = s.piece; fail_at = s.fail_at; calls = s.calls; faults = s.faults } };

    ghost invariant = { λ s. (s.at ≤ length s.bytes) × (0 < s.piece) };
}

impl MemSource {
    /// A source of these bytes, of which each call gives at most `piece`, which is at least 1. The calls listed in
    /// `fail_at`, counted from 1, fail.
    pub fn new(bytes: Bytes, piece: u32, fail_at: List<u32>) -> MemSource
        requires { 0 < piece }
        ensures { result ≡ unused bytes piece fail_at }
    {
        MemSource {
            bytes,
            at: 0,
            piece,
            fail_at,
            calls: 0,
            faults: 0,
        }
    }
}

/// Whether a call stands in a list of calls. In linear time.
fn is_listed(calls: &[u32], call: u64) -> bool
    ensures { IsTrue result ↔ Contains calls.now call }
{
    calls.iter().any(|listed| u64::from(*listed) == call)
}

/// Copies the front of `rest`: as much as `piece`, `rest` and `into` allow.
fn give(rest: &[u8], piece: u32, into: &mut [u8]) -> usize
    requires { 0 < piece }
    ensures count { result ≡ min piece (min (length rest.now) (length into.new)) }
    ensures given { rest.now ≡ take result into.new ++ drop result rest.now }
    ensures end { result ≡ 0 → 0 < length into.new → rest.now ≡ [] }
{
    let count = rest.len().min(piece as usize).min(into.len());
    into[..count].copy_from_slice(&rest[..count]);
    count
}

impl Source for MemSource {
    ghost left = { λ s. Some s.bytes };

    ghost faults = { λ s. s.faults };

    /// Gives the smallest of a piece, what is left and the room.
    fn read(&mut self, into: &mut [u8]) -> Result<usize, Failed>
        ensures bound { ReadsAtMost result into.new }
        ensures bytes { ReadConsumes (Some self.old.bytes) (Some self.new.bytes) result into.new }
        ensures cause { HasCause self.old.faults self.new.faults result }

        ensures fails { IsErr result ↔ IsToFail self.old }
        ensures count { IfOk result (λ n. n ≡ min self.old.piece (min (length self.old.bytes) (length into.new))) }
        ensures next { MatchResult result (λ n. self.new ≡ after_success self.old (drop n self.old.bytes)) (λ _. self.new ≡ after_fault self.old) }
    {
        self.calls = self.calls.saturating_add(1);
        if is_listed(self.fail_at.as_slice(), self.calls) {
            self.faults = self.faults.saturating_add(1);
            return Err(Failed);
        }
        let count = give(&self.bytes.as_slice()[self.at..], self.piece, into);
        self.at += count;
        Ok(count)
    }
}

/// Bytes in memory that were written, of which each call took at most a piece.
#[derive(Drop)]
pub struct MemSink {
    bytes: Bytes,
    piece: u32,
    fail_at: List<u32>,
    calls: u64,
    faults: u64,
}

impl Model for MemSink {
    ghost use Rattle.std.specs.Prelude.{◌<◌};
    ghost use Rattle.wf_io.specs.Memory.{InMemory};

    ghost Value = { InMemory };

    ghost view = { λ s. record { bytes = s.bytes; piece = s.piece; fail_at = s.fail_at; calls = s.calls; faults = s.faults } };

    ghost invariant = { λ s. 0 < s.piece };
}

impl MemSink {
    /// An empty sink, of which each call takes at most `piece` bytes, which is at least 1. The calls listed in
    /// `fail_at`, counted from 1, fail, and so does one for which it finds no memory.
    pub fn new(alloc: Global, piece: u32, fail_at: List<u32>) -> MemSink
        requires { 0 < piece }
        ensures { result ≡ unused [] piece fail_at }
    {
        MemSink {
            bytes: List::new(alloc),
            piece,
            fail_at,
            calls: 0,
            faults: 0,
        }
    }

    /// The bytes that were written.
    pub fn bytes(&self) -> &[u8]
        ensures { result.now ≡ self.now.bytes }
    {
        self.bytes.as_slice()
    }
}

impl Sink for MemSink {
    ghost held = { λ s. Some s.bytes };

    ghost faults = { λ s. s.faults };

    /// Takes the smaller of a piece and what there is.
    fn write(&mut self, bytes: &[u8]) -> Result<usize, Failed>
        ensures bound { WritesAtMost result bytes.now }
        ensures some { IfOk result (λ n. 0 < length bytes.now → 0 < n) }
        ensures bytes { WriteAppends (Some self.old.bytes) (Some self.new.bytes) result bytes.now }
        ensures cause { HasCause self.old.faults self.new.faults result }

        ensures fails { IsToFail self.old → IsErr result }
        ensures count { IfOk result (λ n. n ≡ min self.old.piece (length bytes.now)) }
        ensures next { MatchResult result (λ n. self.new ≡ after_success self.old (self.old.bytes ++ take n bytes.now)) (λ _. self.new ≡ after_fault self.old) }
    {
        self.calls = self.calls.saturating_add(1);
        let count = bytes.len().min(self.piece as usize);
        if is_listed(self.fail_at.as_slice(), self.calls)
            || self.bytes.append(&bytes[..count]).is_err()
        {
            self.faults = self.faults.saturating_add(1);
            return Err(Failed);
        }
        Ok(count)
    }
}

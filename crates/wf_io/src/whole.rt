//! Reading up to the end, and writing all.
ghost use Rattle.std.specs.Prelude.{◌≡◌, ◌<◌, ◌≤◌, ℕ, List, length, take, IfOk, IfSome, OnOk, OnErr, IsErrOf};
ghost use Rattle.std.specs.Io.KnownBytes.{Consumes, IsAtEnd, Appends};
ghost use Rattle.wf_io.specs.Causes.{HasCause};
ghost use Rattle.wf_model.specs.Faults.{Rose};

use crate::{Sink, Source};
use std::alloc::Global;
use thiserror::Error;
use wf_model::{Bytes, Failed, List, NoMemory};

/// How many bytes are asked for in one read.
const PIECE: usize = 4096;

/// Why not all bytes were read.
#[derive(Clone, Copy, Debug, Error)]
pub enum InFault {
    /// The source failed.
    #[error("the source failed")]
    ReadFailed,
    /// There are more bytes than the limit.
    #[error("too many bytes")]
    TooLong,
    /// Memory ran out.
    #[error("out of memory")]
    NoMemory,
}

impl From<Failed> for InFault {
    ghost use Rattle.wf_io.specs.declared.whole.InFault.TheVariants.{ReadFailed};

    ghost from_gives = { λ _ fault. fault ≡ ReadFailed };

    fn from(_: Failed) -> InFault {
        InFault::ReadFailed
    }
}

impl From<NoMemory> for InFault {
    ghost use Rattle.wf_io.specs.declared.whole.InFault.TheVariants.{NoMemory as no_memory};

    ghost from_gives = { λ _ fault. fault ≡ no_memory };

    fn from(_: NoMemory) -> InFault {
        InFault::NoMemory
    }
}

/// All bytes up to the end, where there are at most `limit`. In linear time.
///
/// `ReadFailed` comes only where the source's count of faults rose in this call, and at every other answer no read
/// failed. `TooLong` comes only where there are more than `limit` bytes, and there `Ok` never does; of a source that
/// doesn't tell its bytes nothing is said of `TooLong`. After an error some bytes at the front were read and are lost.
pub fn read_all<S: Source>(alloc: Global, source: &mut S, limit: u32) -> Result<Bytes, InFault>
    ensures all { IfOk result (λ bytes. Consumes (S.left source.old) (S.left source.new) bytes) }
    ensures end { OnOk result (IsAtEnd (S.left source.new)) }
    ensures within { IfOk result (λ bytes. length bytes ≤ limit) }

    ensures front { OnErr result ((given : List ℕ) × Consumes (S.left source.old) (S.left source.new) given) }
    ensures too_long { IsErrOf result InFault.TooLong → IfSome (S.left source.old) (λ bytes. limit < length bytes) }

    ensures later { S.faults source.old ≤ S.faults source.new }
    ensures failed { IsErrOf result InFault.ReadFailed → Rose (S.faults source.old) (S.faults source.new) }
    ensures kept { ¬ IsErrOf result InFault.ReadFailed → S.faults source.new ≡ S.faults source.old }
{
    let mut bytes: Bytes = List::new(alloc);
    let mut piece = [0; PIECE];
    while bytes.len() <= limit as usize {
        let count = source.read(&mut piece)?;
        if count == 0 {
            return Ok(bytes);
        }
        bytes.append(&piece[..count])?;
    }
    Err(InFault::TooLong)
}

/// Writes all bytes, or a prefix of them where the sink fails. In linear time, and takes no memory.
///
/// `Failed` comes only where the sink's count of faults rose in this call.
pub fn write_all<K: Sink>(sink: &mut K, bytes: &[u8]) -> Result<(), Failed>
    ensures all { OnOk result (Appends (K.held sink.old) (K.held sink.new) bytes.now) }
    ensures prefix { OnErr result ((n : ℕ) × (n ≤ length bytes.now) × Appends (K.held sink.old) (K.held sink.new) (take n bytes.now)) }
    ensures cause { HasCause (K.faults sink.old) (K.faults sink.new) result }
{
    let mut done = 0;
    while done < bytes.len() {
        done += sink.write(&bytes[done..])?;
    }
    Ok(())
}

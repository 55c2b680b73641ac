//! The bytes of a frame.
ghost use Rattle.std.specs.Prelude.{◌≡◌, ◌+◌, ◌≤◌, ◌++◌, ◌∷◌, [], ◌==◌, OnOk, IsOk, length, vec_capacity};
ghost use Rattle.wf_journal.specs.Frames.{open_gate, closed_gate, header, packed};
ghost use Rattle.wf_journal.specs.StepAt.{fits_in};
ghost use Rattle.wf_model.specs.Limits.{max_body};

use std::alloc::AllocError;
use wf_model::limits::MAX_BODY;

/// The gate in front of a whole frame.
pub const OPEN: u8 = 1;

/// The gate that is written where no frame follows. Any byte but `OPEN` is closed.
pub const CLOSED: u8 = 0;

/// Bytes of a frame in front of its body: its gate and its length.
pub const HEADER: u64 = 5;

/// Makes of `frame` what stands behind a frame's gate: the length, the body and a closed gate. Takes memory where `frame`
/// has no room for `HEADER` bytes and the body. In linear time in the body.
pub fn pack(frame: &mut Vec<u8>, body: &[u8]) -> Result<(), AllocError>
    requires { length body.now ≤ max_body }
    ensures ok { OnOk result (frame.new.items ≡ packed body.now ++ closed_gate ∷ []) }
    ensures succeeds { header + length body.now ≤ vec_capacity frame.old → IsOk result }
    ensures capacity { vec_capacity frame.old ≤ vec_capacity frame.new }
{
    frame.clear();
    frame.reserve(HEADER as usize + body.len())?;
    frame.extend_from_slice(&(body.len() as u32).to_be_bytes())?;
    frame.extend_from_slice(body)?;
    frame.extend_from_slice(&[CLOSED])?;
    Ok(())
}

/// Whether a body of `len` bytes, and the gate behind it, stand in so much space.
pub fn is_fit(len: u64, space: u64) -> bool
    ensures { result ≡ fits_in len space }
{
    1 <= len && len <= MAX_BODY && len < space
}

/// Whether a gate is open.
pub fn is_open(gate: u8) -> bool
    ensures { result ≡ (gate == open_gate) }
{
    gate == OPEN
}

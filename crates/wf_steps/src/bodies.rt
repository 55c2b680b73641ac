//! How long the bodies of records are. Each function has nothing to do: what it tells holds of any bytes that are a record's body.
ghost use Rattle.std.specs.Prelude.{◌≤◌, ◌+◌, ◌*◌, length};
ghost use Rattle.wf_codec.specs.Bodies.{IsBodyOf};
ghost use Rattle.wf_codec.specs.declared.record.JournalRecord.TheVariants.{Admit, Turn};
ghost use Rattle.wf_worlds.specs.Ends.{IsShort};

use wf_model::{Outer, Update};

/// The outer of an admission.
pub fn outer_is_short(body: &[u8], request: u64, outer: &Outer)
    requires { IsBodyOf (Admit request outer.now) body.now }
    ensures { IsShort outer.now }
{}

/// The Turn that took in these updates.
pub fn turn_is_short(body: &[u8], step: u32, inputs: &[Update], sealed: u32)
    requires { IsBodyOf (Turn step inputs.now sealed) body.now }
    ensures { length body.now ≤ 8 + 87488 * length inputs.now }
{}

//! The bodies of records, made of parts that are lent.
ghost use Rattle.std.specs.Prelude.{◌≡◌, ◌<◌, ◌^◌, IfOk};
ghost use Rattle.std.specs.List.{AllByRecursion};
ghost use Rattle.wf_codec.specs.Ranges.{any_numbers, Ascend, IsOuter, IsInRange};
ghost use Rattle.wf_codec.specs.Records.{IsHeadName, IsRecordInRange};
ghost use Rattle.wf_codec.specs.Bodies.{IsBodyOf};
ghost use Rattle.wf_codec.specs.declared.record.JournalRecord.TheVariants.{Head, Admit, Turn};

use crate::record::JournalRecord;
use crate::room::{outer_room, updates_room};
use crate::spelled_record::{spell_admission, spell_head, spell_turn};
use std::alloc::Global;
use wf_model::{Bytes, List, Name, NoMemory, Outer, Update};

/// The version of the journals that heads are written for.
const VERSION: u8 = 1;

/// The body of a head. It refuses only if memory runs out. Linear in the names.
pub fn encode_head(alloc: Global, chart: &Name, unit: &Name) -> Result<Bytes, NoMemory>
    requires chart { IsHeadName chart.now }
    requires unit { IsHeadName unit.now }
    ensures { IfOk result (IsBodyOf (Head 1 chart.now unit.now)) }
{
    let room = 4 + chart.as_bytes().len() + unit.as_bytes().len();
    let mut bytes = Vec::with_capacity(alloc, room)?;
    spell_head(VERSION, chart, unit, &mut bytes)?;
    Ok(List::from_vec(bytes))
}

/// The body of an admission. It refuses only if memory runs out. Linear in the outer.
pub fn encode_admit(alloc: Global, request: u64, outer: &Outer) -> Result<Bytes, NoMemory>
    requires { IsOuter any_numbers outer.now }
    ensures { IfOk result (IsBodyOf (Admit request outer.now)) }
{
    let room = 9 + outer_room(outer);
    let mut bytes = Vec::with_capacity(alloc, room)?;
    spell_admission(request, outer, &mut bytes)?;
    Ok(List::from_vec(bytes))
}

/// The body of a turn that took in these updates, which are of different units, in their order. It refuses only if memory runs out.
/// Linear in the updates.
#[tactic(auto, using(crate::proofs::Fits::inputs_few))]
pub fn encode_turn(
    alloc: Global,
    step: u32,
    inputs: &[Update],
    sealed: u32,
) -> Result<Bytes, NoMemory>
    requires each { AllByRecursion IsInRange inputs.now }
    requires ascend { Ascend (λ u. u.from.0) inputs.now }
    requires sealed { sealed < 2 ^ 16 }
    ensures { IfOk result (IsBodyOf (Turn step inputs.now sealed)) }
{
    let room = 8 + updates_room(inputs);
    let mut bytes = Vec::with_capacity(alloc, room)?;
    spell_turn(step, inputs, sealed, &mut bytes)?;
    Ok(List::from_vec(bytes))
}

/// The body of a record whose fields are in their ranges. It refuses only if memory runs out. Linear in the body.
pub fn encode_record(alloc: Global, entry: &JournalRecord) -> Result<Bytes, NoMemory>
    requires { IsRecordInRange entry.now }
    ensures { IfOk result (IsBodyOf entry.now) }
{
    match entry {
        JournalRecord::Head { chart, unit, .. } => encode_head(alloc, chart, unit),
        JournalRecord::Admit { request, outer } => encode_admit(alloc, *request, outer),
        JournalRecord::Turn {
            step,
            inputs,
            sealed,
        } => encode_turn(alloc, *step, inputs.as_slice(), *sealed),
    }
}

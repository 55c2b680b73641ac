//! Records of a journal, and how they are read.
ghost use Rattle.std.specs.Prelude.{◌≡◌, Some, IfOk, IsErrOf};
ghost use Rattle.wf_codec.specs.Reading.{Reads};
ghost use Rattle.wf_codec.specs.Records.{record_spelling, head_at, admit_at, turn_at, record_at, record_of, IsRecord};
ghost use Rattle.wf_codec.specs.Answers.{AnswersRecord};
ghost use Rattle.wf_codec.specs.declared.record.JournalRecord.{JournalRecord as RecordValue};

use crate::fault::{FieldFault, Misfit, RecordFault};
use crate::field::{
    ANY_NUMBER, ANY_NUMBERS, CHART_NUMBERS, bad_field, u8_in, u16_in, u32_in, u64_of,
};
use crate::head::head_name_of;
use crate::item::{Read, items_of};
use std::alloc::Global;
use wf_model::{List, Name, NoMemory, Outer, Update};

/// The first byte of a head.
pub const HEAD: u8 = b'H';

/// The first byte of an admission.
pub const ADMIT: u8 = b'A';

/// The first byte of a turn.
pub const TURN: u8 = b'T';

/// One record of a journal.
#[derive(Drop)]
pub enum JournalRecord {
    /// Whose journal it is.
    Head {
        version: u8,
        chart: Name,
        unit: Name,
    },
    /// What was admitted, by which request.
    Admit {
        request: u64,
        outer: Outer,
    },
    /// A step that was taken, with the updates that it took in, in the order of their units, and how many admissions it sealed.
    Turn {
        step: u32,
        inputs: List<Update>,
        sealed: u32,
    },
}

/// The record that has this body, the whole of it. Linear in the body.
///
/// `NotRecord` comes exactly where no record has it.
pub fn decode_record(alloc: Global, body: &[u8]) -> Result<JournalRecord, RecordFault>
    // What is read has this body.
    ensures found { IfOk result (λ r. IsRecord r × (body.now ≡ record_spelling r)) }
    // What has this body is read, unless memory runs out.
    ensures only { (r : RecordValue) → IsRecord r → body.now ≡ record_spelling r → AnswersRecord result (Some r) }
    // Which answer it is.
    ensures exact { AnswersRecord result (record_of body.now) }
{
    whole_record(alloc, body)
}

/// The record that is the whole body. Linear in the body.
#[tactic(auto, unfolding(crate::specs::Records::record_of))]
fn whole_record(alloc: Global, body: &[u8]) -> Result<JournalRecord, RecordFault>
    ensures { AnswersRecord result (record_of body.now) }
{
    let (entry, rest) = first_record(alloc, body)?;
    if rest.is_empty() {
        Ok(entry)
    } else {
        Err(RecordFault::NotRecord)
    }
}

/// A record, by its first byte.
#[tactic(auto, unfolding(crate::specs::Records::record_at))]
fn first_record(alloc: Global, bytes: &[u8]) -> Result<(JournalRecord, &[u8]), FieldFault>
    ensures { Reads result (record_at bytes.now) }
{
    match bytes {
        [] => Err(FieldFault::Misfit(Misfit::Short)),
        [HEAD, rest @ ..] => head_of(alloc, rest),
        [ADMIT, rest @ ..] => admit_of(alloc, rest),
        [TURN, rest @ ..] => turn_of(alloc, rest),
        [_, ..] => Err(bad_field(bytes)),
    }
}

/// A head behind its first byte.
#[tactic(auto, unfolding(crate::specs::Records::head_at))]
fn head_of(alloc: Global, bytes: &[u8]) -> Result<(JournalRecord, &[u8]), FieldFault>
    ensures { Reads result (head_at bytes.now) }
{
    let (version, rest) = u8_in(bytes, 1, 2)?;
    let (chart, rest) = head_name_of(alloc, rest)?;
    let (unit, rest) = head_name_of(alloc, rest)?;
    Ok((
        JournalRecord::Head {
            version,
            chart,
            unit,
        },
        rest,
    ))
}

/// An admission behind its first byte.
#[tactic(auto, unfolding(crate::specs::Records::admit_at))]
fn admit_of(alloc: Global, bytes: &[u8]) -> Result<(JournalRecord, &[u8]), FieldFault>
    ensures { Reads result (admit_at bytes.now) }
{
    let (request, rest) = u64_of(bytes)?;
    let (outer, rest) = Outer::read(alloc, ANY_NUMBERS, None, rest)?;
    Ok((JournalRecord::Admit { request, outer }, rest))
}

/// A turn behind its first byte.
#[tactic(auto, unfolding(crate::specs::Records::turn_at))]
fn turn_of(alloc: Global, bytes: &[u8]) -> Result<(JournalRecord, &[u8]), FieldFault>
    ensures { Reads result (turn_at bytes.now) }
{
    let (step, rest) = u32_in(bytes, 0, 1 << 32)?;
    let (count, rest) = u8_in(rest, 0, 256)?;
    let (inputs, rest) = items_of(alloc, CHART_NUMBERS, u32::from(count), rest)?;
    let (sealed, rest) = u16_in(rest, 0, u64::from(ANY_NUMBER))?;
    Ok((
        JournalRecord::Turn {
            step,
            inputs,
            sealed,
        },
        rest,
    ))
}

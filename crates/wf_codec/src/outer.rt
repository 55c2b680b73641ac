//! Outers, and the outputs of completions.
ghost use Rattle.wf_codec.specs.Reading.{Reads};
ghost use Rattle.wf_codec.specs.Fields.{happening_at, completion_at};

use crate::fault::FieldFault;
use crate::field::{Numbers, u8_in, u16_in, u32_in};
use crate::item::{Read, items_of};
use crate::value::value_of;
use std::alloc::Global;
use wf_model::limits::MAX_OUTPUTS;
use wf_model::{ActId, EventId, Outer, Output, VarId};

/// The kind of an outer that happens, its first byte.
pub const HAPPEN: u8 = 0;

/// The kind of an outer that completes an item.
pub const COMPLETE: u8 = 1;

impl Read for Output {
    ghost use Rattle.wf_codec.specs.Fields.{output_at};

    ghost reading = { output_at };

    #[tactic(auto, unfolding(crate::specs::Fields::output_at))]
    fn read<'a>(
        _alloc: Global,
        numbers: Numbers,
        _before: Option<&Output>,
        bytes: &'a [u8],
    ) -> Result<(Output, &'a [u8]), FieldFault> {
        let (var, rest) = u16_in(bytes, 0, u64::from(numbers.vars))?;
        let var = VarId(var);
        // Not by `?`, which has no proof yet at a text beside a slice.
        match value_of(rest) {
            Ok((val, rest)) => Ok((Output { var, val }, rest)),
            Err(fault) => Err(fault),
        }
    }
}

/// An event that happens, behind its kind.
#[tactic(auto, unfolding(crate::specs::Fields::happening_at))]
fn happening_of(numbers: Numbers, bytes: &[u8]) -> Result<(Outer, &[u8]), FieldFault>
    ensures { Reads result (happening_at numbers bytes.now) }
{
    let (event, rest) = u16_in(bytes, 0, u64::from(numbers.events))?;
    Ok((Outer::Happen(EventId(event)), rest))
}

/// An item that is completed, behind its kind.
#[tactic(auto, unfolding(crate::specs::Fields::completion_at))]
fn completion_of(
    alloc: Global,
    numbers: Numbers,
    bytes: &[u8],
) -> Result<(Outer, &[u8]), FieldFault>
    ensures { Reads result (completion_at numbers bytes.now) }
{
    let (item, rest) = u32_in(bytes, 1, 1 << 32)?;
    let (act, rest) = u16_in(rest, 0, u64::from(numbers.acts))?;
    let (count, rest) = u8_in(rest, 0, MAX_OUTPUTS as u64 + 1)?;
    let (outputs, rest) = items_of(alloc, numbers, u32::from(count), rest)?;
    let act = ActId(act);
    Ok((Outer::Complete { item, act, outputs }, rest))
}

impl Read for Outer {
    ghost use Rattle.wf_codec.specs.Fields.{outer_at};

    ghost reading = { outer_at };

    #[tactic(auto, unfolding(crate::specs::Fields::outer_at))]
    fn read<'a>(
        alloc: Global,
        numbers: Numbers,
        _before: Option<&Outer>,
        bytes: &'a [u8],
    ) -> Result<(Outer, &'a [u8]), FieldFault> {
        let (kind, rest) = u8_in(bytes, u64::from(HAPPEN), u64::from(COMPLETE) + 1)?;
        if kind == HAPPEN {
            happening_of(numbers, rest)
        } else {
            completion_of(alloc, numbers, rest)
        }
    }
}

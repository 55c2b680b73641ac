//! The entries of an update's lists.
ghost use Rattle.std.specs.Prelude.{◌≡◌, option_copied};
ghost use Rattle.std.specs.Int.{w16};
ghost use Rattle.wf_codec.specs.Reading.{Reads, number_in, least_after as least_number};
ghost use Rattle.wf_codec.specs.Fields as spec;

use crate::fault::FieldFault;
use crate::field::{Numbers, least_after, u8_in, u16_in};
use crate::item::Read;
use crate::value::value_of;
use std::alloc::Global;
use wf_model::limits::{MAX_ACTIONS, MAX_STATES, MAX_TRANSITIONS};
use wf_model::{ActId, EventId, StartAt, StateId, TransId, VarId, Write};

/// A number of two bytes over the one before it, if there is one, and below `limit`.
fn number_after(before: Option<u32>, limit: u32, bytes: &[u8]) -> Result<(u32, &[u8]), FieldFault>
    ensures { Reads result (number_in w16 (least_number (λ n. n) before) limit bytes.now) }
{
    u16_in(bytes, least_after(before), u64::from(limit))
}

impl Read for StateId {
    ghost use Rattle.wf_codec.specs.Fields.{state_at};

    ghost reading = { λ _. state_at };

    #[tactic(auto, unfolding(crate::specs::Fields::state_at))]
    fn read<'a>(
        _alloc: Global,
        _numbers: Numbers,
        before: Option<&StateId>,
        bytes: &'a [u8],
    ) -> Result<(StateId, &'a [u8]), FieldFault> {
        let (number, rest) = number_after(before.map(|state| state.0), MAX_STATES as u32, bytes)?;
        Ok((StateId(number), rest))
    }
}

impl Read for EventId {
    ghost use Rattle.wf_codec.specs.Fields.{event_at};

    ghost reading = { event_at };

    #[tactic(auto, unfolding(crate::specs::Fields::event_at))]
    fn read<'a>(
        _alloc: Global,
        numbers: Numbers,
        before: Option<&EventId>,
        bytes: &'a [u8],
    ) -> Result<(EventId, &'a [u8]), FieldFault> {
        let (number, rest) = number_after(before.map(|event| event.0), numbers.events, bytes)?;
        Ok((EventId(number), rest))
    }
}

impl Read for TransId {
    ghost use Rattle.wf_codec.specs.Fields.{trans_at};

    ghost reading = { λ _. trans_at };

    #[tactic(auto, unfolding(crate::specs::Fields::trans_at))]
    fn read<'a>(
        _alloc: Global,
        _numbers: Numbers,
        before: Option<&TransId>,
        bytes: &'a [u8],
    ) -> Result<(TransId, &'a [u8]), FieldFault> {
        let (number, rest) = number_after(
            before.map(|trans| trans.0),
            MAX_TRANSITIONS as u32,
            bytes,
        )?;
        Ok((TransId(number), rest))
    }
}

impl Read for Write {
    ghost use Rattle.wf_codec.specs.Fields.{write_at};

    ghost reading = { write_at };

    #[tactic(auto, unfolding(crate::specs::Fields::write_at))]
    fn read<'a>(
        _alloc: Global,
        numbers: Numbers,
        before: Option<&Write>,
        bytes: &'a [u8],
    ) -> Result<(Write, &'a [u8]), FieldFault> {
        let (var, rest) = number_after(before.map(|write| write.var.0), numbers.vars, bytes)?;
        let (trans, rest) = u16_in(rest, 0, MAX_TRANSITIONS as u64)?;
        let var = VarId(var);
        let trans = TransId(trans);
        // Not by `?`, which has no proof yet at a text beside a slice.
        match value_of(rest) {
            Ok((val, rest)) => Ok((Write { var, trans, val }, rest)),
            Err(fault) => Err(fault),
        }
    }
}

/// The least transition of a start that may follow.
fn least_trans(before: Option<&StartAt>) -> u64
    ensures { result ≡ spec.least_trans (option_copied before.entry) }
{
    match before {
        None => 0,
        Some(start) => u64::from(start.trans.0),
    }
}

/// The least place of a start that may follow, where it is of this transition.
fn least_place(before: Option<&StartAt>, trans: u32) -> u64
    ensures { result ≡ spec.least_place (option_copied before.entry) trans }
{
    match before {
        Some(start) if start.trans.0 == trans => u64::from(start.place) + 1,
        _ => 0,
    }
}

impl Read for StartAt {
    ghost use Rattle.wf_codec.specs.Fields.{start_at};

    ghost reading = { start_at };

    #[tactic(auto, unfolding(crate::specs::Fields::start_at))]
    fn read<'a>(
        _alloc: Global,
        numbers: Numbers,
        before: Option<&StartAt>,
        bytes: &'a [u8],
    ) -> Result<(StartAt, &'a [u8]), FieldFault> {
        let (act, rest) = u16_in(bytes, 0, u64::from(numbers.acts))?;
        let (trans, rest) = u16_in(rest, least_trans(before), MAX_TRANSITIONS as u64)?;
        let (place, rest) = u8_in(rest, least_place(before, trans), MAX_ACTIONS as u64)?;
        let act = ActId(act);
        let trans = TransId(trans);
        Ok((StartAt { act, trans, place }, rest))
    }
}

//! Fields of numbers. Each is `Short` where the bytes end before it does, and `Bad` where it isn't in its range.
ghost use Rattle.std.specs.Prelude.{◌≡◌, length};
ghost use Rattle.std.specs.Int.{w16, w32};
ghost use Rattle.wf_codec.specs.Reading.{Reads, byte_in, number_in, eight_at};
ghost use Rattle.wf_codec.specs.Reading as spec;
ghost use Rattle.wf_codec.specs.declared.fault.Misfit.TheVariants.{Bad};
ghost use Rattle.wf_codec.specs.declared.fault.FieldFault.TheVariants as fault;

use crate::fault::{FieldFault, Misfit};
use wf_model::limits::{MAX_ACTS, MAX_EVENTS, MAX_VARS};

/// Above each number that two bytes can spell.
pub const ANY_NUMBER: u32 = 1 << 16;

/// What the numbers of events, of activities and of variables are below.
#[derive(Clone, Copy)]
pub struct Numbers {
    pub events: u32,
    pub acts: u32,
    pub vars: u32,
}

/// Those of a chart.
pub const CHART_NUMBERS: Numbers = Numbers {
    events: MAX_EVENTS as u32,
    acts: MAX_ACTS as u32,
    vars: MAX_VARS as u32,
};

/// Any that two bytes can spell.
pub const ANY_NUMBERS: Numbers = Numbers {
    events: ANY_NUMBER,
    acts: ANY_NUMBER,
    vars: ANY_NUMBER,
};

/// The fault of a field that begins these bytes and isn't in its range.
pub fn bad_field(bytes: &[u8]) -> FieldFault
    ensures { result ≡ fault.Misfit (Bad (length bytes.now)) }
{
    FieldFault::Misfit(Misfit::Bad { left: bytes.len() })
}

/// The least number that may follow, where numbers ascend.
pub fn least_after(before: Option<u32>) -> u64
    ensures { result ≡ spec.least_after (λ n. n) before }
{
    match before {
        None => 0,
        Some(number) => u64::from(number) + 1,
    }
}

/// One byte, from `least` on and below `limit`.
#[tactic(auto, unfolding(crate::specs::Reading::byte_in, crate::specs::Reading::byte_that))]
pub fn u8_in(bytes: &[u8], least: u64, limit: u64) -> Result<(u8, &[u8]), FieldFault>
    ensures { Reads result (byte_in least limit bytes.now) }
{
    match bytes {
        [] => Err(FieldFault::Misfit(Misfit::Short)),
        [byte, rest @ ..] => {
            let number = u64::from(*byte);
            if least <= number && number < limit {
                Ok((*byte, rest))
            } else {
                Err(bad_field(bytes))
            }
        }
    }
}

/// A number of two bytes, from `least` on and below `limit`.
#[tactic(auto, unfolding(crate::specs::Reading::number_in))]
pub fn u16_in(bytes: &[u8], least: u64, limit: u64) -> Result<(u32, &[u8]), FieldFault>
    ensures { Reads result (number_in w16 least limit bytes.now) }
{
    if bytes.len() < 2 {
        return Err(FieldFault::Misfit(Misfit::Short));
    }
    let (front, rest) = bytes.split_at(2);
    let number = u16::from_be_bytes([front[0], front[1]]);
    let wide = u64::from(number);
    if least <= wide && wide < limit {
        Ok((u32::from(number), rest))
    } else {
        Err(bad_field(bytes))
    }
}

/// A number of four bytes, from `least` on and below `limit`.
#[tactic(auto, unfolding(crate::specs::Reading::number_in))]
pub fn u32_in(bytes: &[u8], least: u64, limit: u64) -> Result<(u32, &[u8]), FieldFault>
    ensures { Reads result (number_in w32 least limit bytes.now) }
{
    if bytes.len() < 4 {
        return Err(FieldFault::Misfit(Misfit::Short));
    }
    let (front, rest) = bytes.split_at(4);
    let number = u32::from_be_bytes([front[0], front[1], front[2], front[3]]);
    let wide = u64::from(number);
    if least <= wide && wide < limit {
        Ok((number, rest))
    } else {
        Err(bad_field(bytes))
    }
}

/// A number of eight bytes.
#[tactic(auto, unfolding(crate::specs::Reading::eight_at))]
pub fn u64_of(bytes: &[u8]) -> Result<(u64, &[u8]), FieldFault>
    ensures { Reads result (eight_at bytes.now) }
{
    if bytes.len() < 8 {
        return Err(FieldFault::Misfit(Misfit::Short));
    }
    let (front, rest) = bytes.split_at(8);
    let number = u64::from_be_bytes([
        front[0], front[1], front[2], front[3], front[4], front[5], front[6], front[7],
    ]);
    Ok((number, rest))
}

//! Updates as bytes.
ghost use Rattle.std.specs.Prelude.{◌≡◌, ◌++◌, ℕ, List, IfOk, Ok, length};
ghost use Rattle.wf_codec.specs.Spelling.{spelling_of};
ghost use Rattle.wf_codec.specs.Ranges.{IsInRange, IsUpdate};
ghost use Rattle.wf_codec.specs.Fields.{decoded};
ghost use Rattle.wf_codec.specs.Answers.{Answers};
ghost use Rattle.wf_model.specs.declared.update.Update.{Update as UpdateValue};

use crate::fault::{CodecFault, FieldFault, Misfit};
use crate::field::{ANY_NUMBER, CHART_NUMBERS, Numbers, least_after, u8_in, u32_in};
use crate::item::{Read, list_of};
use crate::room::update_room;
use crate::spelling::spell_whole;
use std::alloc::Global;
use wf_model::limits::{MAX_FIRED, MAX_SEALED, MAX_STARTS, MAX_STATES, MAX_STEPS, MAX_UNITS};
use wf_model::{Bytes, NoMemory, UnitId, Update};

/// The first byte of an update.
pub const TAG: u8 = 0x55;

/// The one spelling of an update whose fields are in their ranges. Linear in its bytes.
pub fn encode(alloc: Global, update: &Update) -> Result<Bytes, NoMemory>
    requires { IsInRange update.now }
    ensures { IfOk result (λ bytes. bytes ≡ spelling_of update.now) }
{
    spell_whole(alloc, update_room(update), update)
}

/// The update that begins the bytes, and how many of them spell it. Bytes may follow it. Linear in the bytes that spell it, and no memory
/// is taken for entries that aren't there.
///
/// `BadTag` comes exactly where the first byte is there and isn't an update's; `BadField` at the first field that is whole and not in its
/// range; `Short` where neither comes and the bytes end before the last field does.
pub fn decode(alloc: Global, bytes: &[u8]) -> Result<(Update, usize), CodecFault>
    // What is read begins the bytes.
    ensures found { IfOk result (λ x. IsUpdate x.0 × (x.1 ≡ length (spelling_of x.0)) × (rest : List ℕ) × (bytes.now ≡ spelling_of x.0 ++ rest)) }
    // What begins the bytes is read, unless memory runs out.
    ensures only { (update : UpdateValue) (rest : List ℕ) → IsUpdate update → bytes.now ≡ spelling_of update ++ rest → Answers result (Ok (update, length (spelling_of update))) }
    // Which answer it is.
    ensures exact { Answers result (decoded bytes.now) }
{
    first_update(alloc, bytes)
}

/// The update that begins the bytes, and its length. Linear in the length.
#[tactic(auto, unfolding(crate::specs::Fields::decoded))]
fn first_update(alloc: Global, bytes: &[u8]) -> Result<(Update, usize), CodecFault>
    ensures { Answers result (decoded bytes.now) }
{
    match bytes {
        [] => Err(CodecFault::Short),
        [TAG, ..] => match Update::read(alloc, CHART_NUMBERS, None, bytes) {
            Ok((update, rest)) => Ok((update, bytes.len() - rest.len())),
            Err(FieldFault::NoMemory) => Err(CodecFault::NoMemory),
            Err(FieldFault::Misfit(Misfit::Short)) => Err(CodecFault::Short),
            Err(FieldFault::Misfit(Misfit::Bad { left })) => Err(CodecFault::BadField {
                at: bytes.len() - left,
            }),
        },
        [_, ..] => Err(CodecFault::BadTag),
    }
}

impl Read for Update {
    ghost use Rattle.wf_codec.specs.Fields.{update_at};

    ghost reading = { update_at };

    #[tactic(auto, unfolding(crate::specs::Fields::update_at))]
    fn read<'a>(
        alloc: Global,
        numbers: Numbers,
        before: Option<&Update>,
        bytes: &'a [u8],
    ) -> Result<(Update, &'a [u8]), FieldFault> {
        let (_, rest) = u8_in(bytes, u64::from(TAG), u64::from(TAG) + 1)?;
        let least = least_after(before.map(|update| update.from.0));
        let (from, rest) = u8_in(rest, least, MAX_UNITS as u64)?;
        let (step, rest) = u32_in(rest, 1, u64::from(MAX_STEPS) + 2)?;
        let (flips, rest) = list_of(alloc, numbers, MAX_STATES as u32 + 1, rest)?;
        let (writes, rest) = list_of(alloc, numbers, ANY_NUMBER, rest)?;
        let (raised, rest) = list_of(alloc, numbers, ANY_NUMBER, rest)?;
        let (starts, rest) = list_of(alloc, numbers, MAX_STARTS as u32 + 1, rest)?;
        let (fired, rest) = list_of(alloc, numbers, MAX_FIRED as u32 + 1, rest)?;
        let (outer, rest) = list_of(alloc, numbers, MAX_SEALED as u32 + 1, rest)?;
        let update = Update {
            from: UnitId(u32::from(from)),
            step,
            flips,
            writes,
            raised,
            starts,
            fired,
            outer,
        };
        Ok((update, rest))
    }
}

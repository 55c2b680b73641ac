//! Lists: items that are read one after another.
ghost use Rattle.std.specs.Prelude.{ℕ, List as Listed, Option, None, Result, option_copied};
ghost use Rattle.wf_codec.specs.declared.fault.Misfit.{Misfit as MisfitValue};
ghost use Rattle.wf_codec.specs.declared.field.Numbers.{Numbers as NumbersValue};
ghost use Rattle.wf_codec.specs.Reading.{Reads, items_at};
ghost use Rattle.wf_codec.specs.Fields.{list_at};

use crate::fault::FieldFault;
use crate::field::{Numbers, u16_in};
use std::alloc::Global;
use wf_model::List;

/// What lists are made of.
pub trait Read: Drop {
    /// What reading gives, behind an item or none, where numbers are to be below these.
    ghost reading: { NumbersValue → Option Self → Listed ℕ → Result (Self × Listed ℕ) MisfitValue };

    /// The item at the front of the bytes, and the bytes behind it. `before` is the item before it in its list, if there is one.
    fn read<'a>(
        alloc: Global,
        numbers: Numbers,
        before: Option<&Self>,
        bytes: &'a [u8],
    ) -> Result<(Self, &'a [u8]), FieldFault>
        ensures { Reads result (reading numbers (option_copied before.entry) bytes.now) };
}

/// So many items. Room is taken only for items that are there. Linear in the bytes that are read.
pub fn items_of<'a, T: Read>(
    alloc: Global,
    numbers: Numbers,
    count: u32,
    bytes: &'a [u8],
) -> Result<(List<T>, &'a [u8]), FieldFault>
    ensures { Reads result (items_at (T.reading numbers) count None bytes.now) }
{
    let mut items = List::new(alloc);
    let mut rest = bytes;
    for _ in 0..count {
        let (item, after) = T::read(alloc, numbers, items.as_slice().last(), rest)?;
        items.push(item)?;
        rest = after;
    }
    Ok((items, rest))
}

/// A list behind its count, which is below `bound`. Linear in the bytes that are read.
#[tactic(auto, unfolding(crate::specs::Fields::list_at))]
pub fn list_of<'a, T: Read>(
    alloc: Global,
    numbers: Numbers,
    bound: u32,
    bytes: &'a [u8],
) -> Result<(List<T>, &'a [u8]), FieldFault>
    ensures { Reads result (list_at (T.reading numbers) bound bytes.now) }
{
    let (count, rest) = u16_in(bytes, 0, u64::from(bound))?;
    items_of(alloc, numbers, count, rest)
}

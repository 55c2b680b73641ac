//! What is spelled, and lists of it.
ghost use Rattle.std.specs.Prelude.{◌≡◌, ◌++◌, ◌<◌, ◌^◌, ℕ, List as Listed, IfOk, OnOk, length};
ghost use Rattle.std.specs.List.{flat_map, AllByRecursion};
ghost use Rattle.wf_codec.specs.Spelling.{listed};

use crate::number::spell_two;
use std::alloc::Global;
use wf_model::{Bytes, List, NoMemory};

/// What has a spelling.
pub trait Spell: Drop {
    /// Its bytes.
    ghost spelling: { Self → Listed ℕ };

    /// Its numbers fit their fields.
    ghost fits: { Self → Type 0 };

    /// Adds its spelling.
    fn spell(&self, bytes: &mut Vec<u8>) -> Result<(), NoMemory>
        requires { fits self.now }
        ensures { OnOk result (bytes.new.items ≡ bytes.old.items ++ spelling self.now) };
}

/// Adds the bytes of each item.
pub fn spell_items<T: Spell>(items: &[T], bytes: &mut Vec<u8>) -> Result<(), NoMemory>
    requires { AllByRecursion T.fits items.now }
    ensures { OnOk result (bytes.new.items ≡ bytes.old.items ++ flat_map T.spelling items.now) }
{
    for item in items {
        item.spell(bytes)?;
    }
    Ok(())
}

/// Adds the count of the items, and the bytes of each.
pub fn spell_list<T: Spell>(items: &[T], bytes: &mut Vec<u8>) -> Result<(), NoMemory>
    requires count { length items.now < 2 ^ 16 }
    requires each { AllByRecursion T.fits items.now }
    ensures { OnOk result (bytes.new.items ≡ bytes.old.items ++ listed T.spelling items.now) }
{
    spell_two(items.len() as u32, bytes)?;
    spell_items(items, bytes)
}

/// The bytes of one item alone. So much room is taken at first, in bytes.
pub fn spell_whole<T: Spell>(alloc: Global, room: usize, item: &T) -> Result<Bytes, NoMemory>
    requires { T.fits item.now }
    ensures { IfOk result (λ bytes. bytes ≡ T.spelling item.now) }
{
    let mut bytes = Vec::with_capacity(alloc, room)?;
    item.spell(&mut bytes)?;
    Ok(List::from_vec(bytes))
}

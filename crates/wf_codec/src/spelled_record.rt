//! What the parts of a record are spelled as.
ghost use Rattle.std.specs.Prelude.{◌≡◌, ◌++◌, ◌∷◌, [], ◌<◌, ◌≤◌, ◌^◌, OnOk, length};
ghost use Rattle.std.specs.List.{flat_map, AllByRecursion};
ghost use Rattle.wf_model.specs.Limits.{max_name, max_units};
ghost use Rattle.wf_codec.specs.Spelling.{two, four, eight, outer_spelling, spelling_of};
ghost use Rattle.wf_codec.specs.Ranges.{any_numbers, IsOuter, IsInRange};
ghost use Rattle.wf_codec.specs.Records.{named};

use crate::number::{spell_eight, spell_four, spell_two};
use crate::record::{ADMIT, HEAD, TURN};
use crate::spelling::{Spell, spell_items};
use wf_model::{Name, NoMemory, Outer, Update};

/// Adds a name behind its length.
fn spell_name(name: &Name, bytes: &mut Vec<u8>) -> Result<(), NoMemory>
    requires { length name.now ≤ max_name }
    ensures { OnOk result (bytes.new.items ≡ bytes.old.items ++ named name.now) }
{
    let name = name.as_bytes();
    bytes.push(name.len() as u8)?;
    bytes.extend_from_slice(name)?;
    Ok(())
}

/// Adds a head.
pub fn spell_head(
    version: u8,
    chart: &Name,
    unit: &Name,
    bytes: &mut Vec<u8>,
) -> Result<(), NoMemory>
    requires chart { length chart.now ≤ max_name }
    requires unit { length unit.now ≤ max_name }
    ensures { OnOk result (bytes.new.items ≡ bytes.old.items ++ HEAD ∷ version ∷ named chart.now ++ named unit.now) }
{
    bytes.extend_from_slice(&[HEAD, version])?;
    spell_name(chart, bytes)?;
    spell_name(unit, bytes)
}

/// Adds an admission.
pub fn spell_admission(request: u64, outer: &Outer, bytes: &mut Vec<u8>) -> Result<(), NoMemory>
    requires { IsOuter any_numbers outer.now }
    ensures { OnOk result (bytes.new.items ≡ bytes.old.items ++ ADMIT ∷ eight request ++ outer_spelling outer.now) }
{
    bytes.push(ADMIT)?;
    spell_eight(request, bytes)?;
    outer.spell(bytes)
}

/// Adds a turn.
pub fn spell_turn(
    step: u32,
    inputs: &[Update],
    sealed: u32,
    bytes: &mut Vec<u8>,
) -> Result<(), NoMemory>
    requires count { length inputs.now ≤ max_units }
    requires each { AllByRecursion IsInRange inputs.now }
    requires sealed { sealed < 2 ^ 16 }
    ensures { OnOk result (bytes.new.items ≡ bytes.old.items ++ TURN ∷ four step ++ (length inputs.now ∷ flat_map spelling_of inputs.now ++ two sealed)) }
{
    bytes.push(TURN)?;
    spell_four(step, bytes)?;
    bytes.push(inputs.len() as u8)?;
    spell_items(inputs, bytes)?;
    spell_two(sealed, bytes)
}

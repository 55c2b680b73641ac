//! Numbers as bytes, the high one first.
ghost use Rattle.std.specs.Prelude.{◌≡◌, ◌++◌, ◌<◌, ◌^◌, OnOk};
ghost use Rattle.wf_codec.specs.Spelling.{two, four, eight};

use wf_model::NoMemory;

/// Adds a number in two bytes.
pub fn spell_two(number: u32, bytes: &mut Vec<u8>) -> Result<(), NoMemory>
    requires { number < 2 ^ 16 }
    ensures { OnOk result (bytes.new.items ≡ bytes.old.items ++ two number) }
{
    bytes.extend_from_slice(&(number as u16).to_be_bytes())?;
    Ok(())
}

/// Adds a number in four bytes.
pub fn spell_four(number: u32, bytes: &mut Vec<u8>) -> Result<(), NoMemory>
    ensures { OnOk result (bytes.new.items ≡ bytes.old.items ++ four number) }
{
    bytes.extend_from_slice(&number.to_be_bytes())?;
    Ok(())
}

/// Adds a number in eight bytes.
pub fn spell_eight(number: u64, bytes: &mut Vec<u8>) -> Result<(), NoMemory>
    ensures { OnOk result (bytes.new.items ≡ bytes.old.items ++ eight number) }
{
    bytes.extend_from_slice(&number.to_be_bytes())?;
    Ok(())
}

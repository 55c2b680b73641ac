//! The longest update: each of its lists is as long as it may be, and so is each text.
use std::alloc::Global;
use std::test::Fail;
use wf_codec::{MAX_SPELLING, decode, encode};
use wf_model::NoMemory;
use wf_model::limits::{
    MAX_ACTIONS, MAX_ACTS, MAX_EVENTS, MAX_FIRED, MAX_OUTPUTS, MAX_SEALED, MAX_STARTS, MAX_STATES,
    MAX_STEPS, MAX_TEXT, MAX_TRANSITIONS, MAX_UNITS, MAX_VARS,
};

/// The number of the greatest activity.
const LAST_ACT: u16 = MAX_ACTS as u16 - 1;

/// The number of the greatest transition.
const LAST_TRANSITION: u16 = MAX_TRANSITIONS as u16 - 1;

/// Adds a number in two bytes.
fn add(bytes: &mut Vec<u8>, number: u16) -> Result<(), NoMemory> {
    bytes.extend_from_slice(&number.to_be_bytes())?;
    Ok(())
}

/// Adds a list of so many numbers, from 0 on.
fn add_numbers(bytes: &mut Vec<u8>, count: u16) -> Result<(), NoMemory> {
    add(bytes, count)?;
    for number in 0..count {
        add(bytes, number)?;
    }
    Ok(())
}

/// Adds a text of as many characters as it may have.
fn add_text(bytes: &mut Vec<u8>) -> Result<(), NoMemory> {
    bytes.extend_from_slice(&[2, MAX_TEXT as u8])?;
    for _ in 0..MAX_TEXT {
        bytes.push(b'~')?;
    }
    Ok(())
}

/// Adds a write of each variable.
fn add_writes(bytes: &mut Vec<u8>) -> Result<(), NoMemory> {
    add(bytes, MAX_VARS as u16)?;
    for var in 0..MAX_VARS as u16 {
        add(bytes, var)?;
        add(bytes, LAST_TRANSITION)?;
        add_text(bytes)?;
    }
    Ok(())
}

/// Adds a start by each action of a transition.
fn add_starts_of(bytes: &mut Vec<u8>, trans: u16) -> Result<(), NoMemory> {
    for place in 0..MAX_ACTIONS as u8 {
        add(bytes, LAST_ACT)?;
        add(bytes, trans)?;
        bytes.push(place)?;
    }
    Ok(())
}

/// Adds the starts by as many transitions as may fire.
fn add_starts(bytes: &mut Vec<u8>) -> Result<(), NoMemory> {
    add(bytes, MAX_STARTS as u16)?;
    for trans in 0..MAX_FIRED as u16 {
        add_starts_of(bytes, trans)?;
    }
    Ok(())
}

/// Adds a completion with as many outputs as it may have.
fn add_completion(bytes: &mut Vec<u8>, item: u32) -> Result<(), NoMemory> {
    bytes.push(1)?;
    bytes.extend_from_slice(&item.to_be_bytes())?;
    add(bytes, LAST_ACT)?;
    bytes.push(MAX_OUTPUTS as u8)?;
    for var in 0..MAX_OUTPUTS as u16 {
        add(bytes, var)?;
        add_text(bytes)?;
    }
    Ok(())
}

/// Adds as many outers as a turn may seal.
fn add_outers(bytes: &mut Vec<u8>) -> Result<(), NoMemory> {
    add(bytes, MAX_SEALED as u16)?;
    for item in 0..MAX_SEALED as u32 {
        add_completion(bytes, item + 1)?;
    }
    Ok(())
}

/// The longest spelling of an update.
fn longest_spelling(alloc: Global) -> Result<Vec<u8>, NoMemory> {
    let mut bytes = Vec::new(alloc);
    bytes.extend_from_slice(&[0x55, MAX_UNITS as u8 - 1])?;
    bytes.extend_from_slice(&(MAX_STEPS + 1).to_be_bytes())?;
    add_numbers(&mut bytes, MAX_STATES as u16)?;
    add_writes(&mut bytes)?;
    add_numbers(&mut bytes, MAX_EVENTS as u16)?;
    add_starts(&mut bytes)?;
    add_numbers(&mut bytes, MAX_FIRED as u16)?;
    add_outers(&mut bytes)?;
    Ok(bytes)
}

#[test]
fn the_longest_update_is_read_and_spelled(rt: HostRuntime) -> Result<(), Fail> {
    let bytes = longest_spelling(rt.alloc())?;
    assert_eq!(rt; bytes.len(), 87_488);
    let Ok((update, len)) = decode(rt.alloc(), &bytes) else {
        return Err(Fail::new("it is an update"));
    };
    assert_eq!(rt; len, MAX_SPELLING);
    let again = encode(rt.alloc(), &update)?;
    assert!(rt; again.as_slice() == bytes.as_slice());
    Ok(())
}

//! Records, and bodies that are none.
use crate::digits::bytes_of;
use std::test::Fail;
use wf_codec::{JournalRecord, decode_record, encode_record};
use wf_model::Name;

const HEAD: &str = "48 01 03 74776f 01 61";

const ADMIT: &str = "41 0000000000000007 00 0001";

const TURN: &str = "54 00000001 01 55 01 00000001 0000 0000 0000 0000 0000 0000 0001";

#[test]
fn a_head_is_spelled(rt: HostRuntime) -> Result<(), Fail> {
    let head = JournalRecord::Head {
        version: 1,
        chart: Name::new(rt.alloc(), b"two")?,
        unit: Name::new(rt.alloc(), b"a")?,
    };
    let wanted = bytes_of(&rt, HEAD)?;
    assert!(rt; encode_record(rt.alloc(), &head)?.as_slice() == wanted.as_slice());
    Ok(())
}

// Whether a record has this body, and is spelled so again.
fn is_spelled_again(rt: &HostRuntime, text: &str) -> Result<bool, Fail> {
    let body = bytes_of(rt, text)?;
    let Ok(read) = decode_record(rt.alloc(), &body) else {
        return Ok(false);
    };
    let spelled = encode_record(rt.alloc(), &read)?;
    Ok(spelled.as_slice() == body.as_slice())
}

#[test]
fn records_are_read(rt: HostRuntime) -> Result<(), Fail> {
    for text in [
        HEAD,
        ADMIT,
        TURN,
        // a hyphen and a digit in the names
        "48 01 02 2d61 02 5f39",
        // an event of any number
        "41 ffffffffffffffff 00 ffff",
        "41 0000000000000000 01 00000001 ffff 01 ffff 02 01 41",
        // outputs of each sort
        "41 0102030405060708 01 00000009 0002 03 0003 00 01 0004 01 fffffffffffffffe 0005 02 02 6162",
        // no peer, and any step
        "54 ffffffff 00 ffff",
    ] {
        assert!(rt; is_spelled_again(&rt, text)?, "{text}");
    }
    Ok(())
}

#[test]
fn other_bodies(rt: HostRuntime) -> Result<(), Fail> {
    for text in [
        "",
        "5a",
        "48",
        // another version, a name that is empty or has a blank, a name too short
        "48 02 03 74776f 01 61",
        "48 01 00 01 61",
        "48 01 03 74206f 01 61",
        "48 01 03 74776f 02 61",
        // a byte more
        "48 01 03 74776f 01 61 00",
        "41 0000000000000007 00 0001 00",
        "41 0000000000000007 02 0001",
        "41 0000000000000007 00 00",
        "41 0000000000000007 01 00000000 0001 00",
        "54 00000001 01 55 01 00000001 0000 0000 0000 0000 0000 0000 0001 00",
        // an update that is none
        "54 00000001 01 56 01 00000001 0000 0000 0000 0000 0000 0000 0001",
        // two updates of one unit
        "54 00000001 02 55 01 00000001 0000 0000 0000 0000 0000 0000 55 01 00000001 0000 0000 0000 0000 0000 0000 0001",
    ] {
        assert!(rt; !is_spelled_again(&rt, text)?, "{text}");
    }
    Ok(())
}

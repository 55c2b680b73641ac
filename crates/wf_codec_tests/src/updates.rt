//! Updates: their bytes, each range's ends, and what is read of bytes that are changed.
use crate::digits::bytes_of;
use std::test::Fail;
use wf_codec::{CodecFault, decode, encode, is_in_range};
use wf_model::{
    ActId, EventId, List, Outer, StartAt, StateId, TransId, UnitId, Update, Val, VarId, Write,
};

const THIRD: &str = "55 00 00000003 0001 0001 0000 0000 0000 0001 0000 0000";

// What is read of bytes.
#[derive(Clone, Copy)]
enum Answer {
    // An update of so many bytes.
    Reads(usize),
    OtherTag,
    TooShort,
    // A field isn't in its range.
    BadAt(usize),
}

// Whether this is read of the bytes.
fn answers(rt: &HostRuntime, bytes: &[u8], wanted: &Answer) -> bool {
    match (decode(rt.alloc(), bytes), wanted) {
        (Ok((_, len)), Answer::Reads(wanted)) => len == *wanted,
        (Err(CodecFault::BadTag), Answer::OtherTag) => true,
        (Err(CodecFault::Short), Answer::TooShort) => true,
        (Err(CodecFault::BadField { at }), Answer::BadAt(wanted)) => at == *wanted,
        _ => false,
    }
}

// Whether all of these bytes are read as an update, which is in range and is spelled so again.
fn passes(rt: &HostRuntime, text: &str) -> Result<bool, Fail> {
    let bytes = bytes_of(rt, text)?;
    let Ok((update, len)) = decode(rt.alloc(), &bytes) else {
        return Ok(false);
    };
    if len != bytes.len() || !is_in_range(&update) {
        return Ok(false);
    }
    let again = encode(rt.alloc(), &update)?;
    Ok(again.as_slice() == bytes.as_slice())
}

#[test]
fn ends_of_ranges(rt: HostRuntime) -> Result<(), Fail> {
    for text in [
        THIRD,
        // the unit and the step
        "55 07 00000001 0000 0000 0000 0000 0000 0000",
        "55 00 00004e21 0000 0000 0000 0000 0000 0000",
        // flips
        "55 00 00000001 0002 0000 01ff 0000 0000 0000 0000 0000",
        // writes
        "55 00 00000001 0000 0002 0000 0000 00 00 007f 03ff 00 01 0000 0000 0000 0000",
        "55 00 00000001 0000 0001 0000 0000 01 ffffffffffffffff 0000 0000 0000 0000",
        "55 00 00000001 0000 0001 0000 0000 02 00 0000 0000 0000 0000",
        "55 00 00000001 0000 0001 0000 0000 02 06 20 21 23 5b 5d 7e 0000 0000 0000 0000",
        // raised
        "55 00 00000001 0000 0000 0002 0000 007f 0000 0000 0000",
        // starts: of one transition at two places, and of a later one
        "55 00 00000001 0000 0000 0000 0003 007f 0000 00 0000 0000 0f 0001 03ff 00 0000 0000",
        // fired
        "55 00 00000001 0000 0000 0000 0000 0002 0000 03ff 0000",
        // outers
        "55 00 00000001 0000 0000 0000 0000 0000 0002 00 0000 00 007f",
        "55 00 00000001 0000 0000 0000 0000 0000 0001 01 00000001 007f 00",
        "55 00 00000001 0000 0000 0000 0000 0000 0001 01 ffffffff 0000 02 007f 00 00 0000 00 01",
    ] {
        assert!(rt; passes(&rt, text)?, "{text}");
    }
    Ok(())
}

#[test]
fn past_the_ends(rt: HostRuntime) -> Result<(), Fail> {
    for (text, at) in [
        ("55 08", 1),
        ("55 00 00000000", 2),
        ("55 00 00004e22", 2),
        ("55 00 00000001 0201", 6),
        ("55 00 00000001 0001 0200", 8),
        ("55 00 00000001 0002 0001 0001", 10),
        ("55 00 00000001 0000 0001 0080", 10),
        ("55 00 00000001 0000 0001 0000 0400", 12),
        ("55 00 00000001 0000 0001 0000 0000 03", 14),
        ("55 00 00000001 0000 0001 0000 0000 00 02", 15),
        ("55 00 00000001 0000 0001 0000 0000 02 41", 15),
        ("55 00 00000001 0000 0001 0000 0000 02 01 1f", 16),
        ("55 00 00000001 0000 0001 0000 0000 02 01 22", 16),
        ("55 00 00000001 0000 0001 0000 0000 02 02 20 5c", 17),
        ("55 00 00000001 0000 0001 0000 0000 02 40 20 7f", 17),
        ("55 00 00000001 0000 0002 0001 0000 00 00 0001", 16),
        ("55 00 00000001 0000 0000 0001 0080", 12),
        ("55 00 00000001 0000 0000 0002 0001 0000", 14),
        ("55 00 00000001 0000 0000 0000 1ff1", 12),
        ("55 00 00000001 0000 0000 0000 0001 0080", 14),
        ("55 00 00000001 0000 0000 0000 0001 0000 0400", 16),
        ("55 00 00000001 0000 0000 0000 0001 0000 0000 10", 18),
        (
            "55 00 00000001 0000 0000 0000 0002 0000 0001 01 0000 0000",
            21,
        ),
        (
            "55 00 00000001 0000 0000 0000 0002 0000 0001 01 0000 0001 01",
            23,
        ),
        ("55 00 00000001 0000 0000 0000 0000 0200", 14),
        ("55 00 00000001 0000 0000 0000 0000 0001 0400", 16),
        ("55 00 00000001 0000 0000 0000 0000 0002 0001 0001", 18),
        ("55 00 00000001 0000 0000 0000 0000 0000 0041", 16),
        ("55 00 00000001 0000 0000 0000 0000 0000 0001 02", 18),
        ("55 00 00000001 0000 0000 0000 0000 0000 0001 00 0080", 19),
        (
            "55 00 00000001 0000 0000 0000 0000 0000 0001 01 00000000",
            19,
        ),
        (
            "55 00 00000001 0000 0000 0000 0000 0000 0001 01 00000001 0080",
            23,
        ),
        (
            "55 00 00000001 0000 0000 0000 0000 0000 0001 01 00000001 0000 09",
            25,
        ),
        (
            "55 00 00000001 0000 0000 0000 0000 0000 0001 01 00000001 0000 01 0080",
            26,
        ),
    ] {
        let bytes = bytes_of(&rt, text)?;
        assert!(rt; answers(&rt, &bytes, &Answer::BadAt(at)), "{text}");
    }
    // A list that breaks off, though no state that could follow is greater.
    let bytes = bytes_of(&rt, "55 00 00000001 0002 01ff")?;
    assert!(rt; answers(&rt, &bytes, &Answer::TooShort), "breaks off");
    Ok(())
}

#[test]
fn each_byte_is_changed(rt: HostRuntime) -> Result<(), Fail> {
    for (at, wanted) in [
        (0, Answer::OtherTag),
        (1, Answer::BadAt(1)),
        (2, Answer::BadAt(2)),
        (3, Answer::BadAt(2)),
        (4, Answer::BadAt(2)),
        // step 255
        (5, Answer::Reads(22)),
        (6, Answer::BadAt(6)),
        // 255 flips, the second of which is 0
        (7, Answer::BadAt(10)),
        (8, Answer::BadAt(8)),
        // state 255
        (9, Answer::Reads(22)),
        // writes, the second of which is of variable 0 again
        (10, Answer::BadAt(18)),
        (11, Answer::BadAt(18)),
        // raised events 0, 1, 0
        (12, Answer::BadAt(18)),
        (13, Answer::BadAt(18)),
        (14, Answer::BadAt(14)),
        // 255 starts, the second of which isn't whole
        (15, Answer::TooShort),
        (16, Answer::BadAt(16)),
        // 255 transitions, 0 twice
        (17, Answer::BadAt(20)),
        (18, Answer::BadAt(18)),
        // transition 255
        (19, Answer::Reads(22)),
        (20, Answer::BadAt(20)),
        (21, Answer::BadAt(20)),
    ] {
        let mut bytes = bytes_of(&rt, THIRD)?;
        if let Some(byte) = bytes.get_mut(at) {
            *byte = 0xFF;
        }
        assert!(rt; answers(&rt, &bytes, &wanted), "at {at}");
    }
    Ok(())
}

// A list of one item.
fn list_of_one<T: Drop>(rt: &HostRuntime, item: T) -> Result<List<T>, Fail> {
    let mut items = List::new(rt.alloc());
    items.push(item)?;
    Ok(items)
}

#[test]
fn an_update_is_spelled(rt: HostRuntime) -> Result<(), Fail> {
    let write = Write {
        var: VarId(1),
        trans: TransId(0x0102),
        val: Val::Bool(false),
    };
    let start = StartAt {
        act: ActId(4),
        trans: TransId(0x0102),
        place: 15,
    };
    let mut update = Update {
        from: UnitId(7),
        step: 20_001,
        flips: list_of_one(&rt, StateId(1))?,
        writes: list_of_one(&rt, write)?,
        raised: list_of_one(&rt, EventId(3))?,
        starts: list_of_one(&rt, start)?,
        fired: list_of_one(&rt, TransId(0x0102))?,
        outer: list_of_one(&rt, Outer::Happen(EventId(1)))?,
    };
    let wanted = bytes_of(
        &rt,
        "55 07 00004e21 0001 0001 0001 0001 0102 00 00 0001 0003 0001 0004 0102 0f 0001 0102 0001 00 0001",
    )?;
    if !is_in_range(&update) {
        return Err(Fail::new("it is in range"));
    }
    assert!(rt; encode(rt.alloc(), &update)?.as_slice() == wanted.as_slice());
    update.from = UnitId(8);
    assert!(rt; !is_in_range(&update));
    Ok(())
}

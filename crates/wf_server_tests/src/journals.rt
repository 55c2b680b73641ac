//! The journals on which a server starts, and those that it refuses.
use crate::charts::{JOBS, TWO, checked_of};
use crate::journals::Rest::{Cut, Torn};
use crate::servers::Refusal::{self, BadFrame, BadRecord, Foreign};
use crate::servers::{Started, server_on};
use std::alloc::Global;
use wf_model::Checked;

/// The journal of unit a of two: its head, an admission, and a Turn that takes in an update of unit b.
pub const JOURNAL: [u8; 62] = [
    1, 0, 0, 0, 8, 0x48, 1, 3, 0x74, 0x77, 0x6F, 1, 0x61, //
    1, 0, 0, 0, 12, 0x41, 0, 0, 0, 0, 0, 0, 0, 7, 0, 0, 1, //
    1, 0, 0, 0, 26, 0x54, 0, 0, 0, 1, 1, //
    0x55, 1, 0, 0, 0, 1, 0, 0, 0, 0, 0, 0, 0, 0, 0, 0, 0, 0, //
    0, 1, 0,
];

/// What its server writes at its start, and as it admits an event by request 7.
pub const WRITTEN: [u8; 31] = [
    1, 0, 0, 0, 8, 0x48, 1, 3, 0x74, 0x77, 0x6F, 1, 0x61, //
    1, 0, 0, 0, 12, 0x41, 0, 0, 0, 0, 0, 0, 0, 7, 0, 0, 1, 0,
];

// The journal of a unit whose second step starts an activity: its head, an admission, two Turns, and a completion that gives 9.
const WITH_ITEM: [u8; 91] = [
    1, 0, 0, 0, 9, 0x48, 1, 4, 0x6A, 0x6F, 0x62, 0x73, 1, 0x61, //
    1, 0, 0, 0, 12, 0x41, 0, 0, 0, 0, 0, 0, 0, 7, 0, 0, 1, //
    1, 0, 0, 0, 8, 0x54, 0, 0, 0, 1, 0, 0, 1, //
    1, 0, 0, 0, 8, 0x54, 0, 0, 0, 2, 0, 0, 0, //
    1, 0, 0, 0, 28, 0x41, 0, 0, 0, 0, 0, 0, 0, 8, //
    1, 0, 0, 0, 1, 0, 0, 1, 0, 0, 1, 0, 0, 0, 0, 0, 0, 0, 9, //
    0,
];

// How many admissions and Turns there are behind a start, or why there is no server.
type Start = Result<(u64, u32), Refusal>;

// What became of a start.
fn start_of(server: &Started) -> Start {
    match server {
        Ok(node) => Ok((node.admitted(), node.taken())),
        Err(refusal) => Err(*refusal),
    }
}

// What becomes of a start of unit a's server on these bytes.
fn start_over(alloc: Global, checked: &Checked, image: &[u8]) -> Start {
    let server = server_on(alloc, checked, 0, image);
    let start = start_of(&server);
    drop(server);
    start
}

// What is behind the first bytes of a journal: nothing, or 0xFF in place of each byte that was there.
#[derive(Clone, Copy)]
enum Rest {
    Cut,
    Torn,
}

// A journal with another byte at a place.
fn with_byte(alloc: Global, journal: &[u8], place: usize, byte: u8) -> Option<Vec<u8>> {
    let mut image = Vec::from_slice(alloc, journal).ok()?;
    *image.get_mut(place)? = byte;
    Some(image)
}

// A journal of which only the first bytes are left.
fn first_bytes(alloc: Global, journal: &[u8], size: usize, rest: Rest) -> Option<Vec<u8>> {
    let mut image = Vec::from_slice(alloc, journal).ok()?;
    image.truncate(size);
    if matches!(rest, Torn) {
        image.resize(journal.len(), 0xFF).ok()?;
    }
    Some(image)
}

// Which byte is at which place, and what becomes of a start then.
type OtherByte = (usize, u8, Start);

// What is behind the first bytes, from how many of them on and below how many the same becomes of a start, and what.
type FirstBytes = (Rest, usize, usize, Start);

const CHANGED: &[OtherByte] = &[
    // a closed gate in place of an open one, or an open one at the end
    (0, 0, Ok((0, 0))),
    (13, 0, Ok((0, 0))),
    (30, 0, Ok((1, 0))),
    (61, 1, Err(BadFrame(61))),
    // another length
    (1, 1, Err(BadFrame(0))),
    (4, 9, Err(BadRecord(5, 0x48))),
    (4, 7, Err(BadRecord(5, 0x48))),
    (17, 13, Err(BadRecord(18, 0x41))),
    (17, 11, Err(BadFrame(29))),
    (34, 27, Err(BadFrame(30))),
    (34, 25, Err(BadFrame(60))),
    // the head: its tag, its version, its names
    (5, 0x41, Err(BadRecord(5, 0x41))),
    (5, 0x54, Err(BadRecord(5, 0x54))),
    (5, 0, Err(BadRecord(5, 0))),
    (6, 0, Err(BadRecord(5, 0x48))),
    (6, 2, Err(BadRecord(5, 0x48))),
    (7, 2, Err(BadRecord(5, 0x48))),
    (7, 4, Err(BadRecord(5, 0x48))),
    (8, 0x54, Err(Foreign)),
    (8, 0x20, Err(BadRecord(5, 0x48))),
    (11, 0, Err(BadRecord(5, 0x48))),
    (12, 0x62, Err(Foreign)),
    (12, 0, Err(BadRecord(5, 0x48))),
    // the admission: its tag, its request, its outer
    (18, 0x48, Err(BadRecord(18, 0x48))),
    (18, 0x54, Err(BadRecord(18, 0x54))),
    (18, 0, Err(BadRecord(18, 0))),
    (19, 1, Ok((1, 1))),
    (26, 8, Ok((1, 1))),
    (27, 1, Err(BadRecord(18, 0x41))),
    (27, 2, Err(BadRecord(18, 0x41))),
    (28, 1, Err(BadRecord(18, 0x41))),
    (29, 0, Err(BadRecord(18, 0x41))),
    (29, 2, Err(BadRecord(18, 0x41))),
    // the Turn: its tag, its step, how many updates it takes in
    (35, 0x48, Err(BadRecord(35, 0x48))),
    (35, 0x41, Err(BadRecord(35, 0x41))),
    (36, 1, Err(BadRecord(35, 0x54))),
    (39, 0, Err(BadRecord(35, 0x54))),
    (39, 2, Err(BadRecord(35, 0x54))),
    (40, 0, Err(BadRecord(35, 0x54))),
    (40, 2, Err(BadRecord(35, 0x54))),
    // the update: its tag, its sender, its step, its lists
    (41, 0x56, Err(BadRecord(35, 0x54))),
    (42, 0, Err(BadRecord(35, 0x54))),
    (42, 2, Err(BadRecord(35, 0x54))),
    (42, 8, Err(BadRecord(35, 0x54))),
    (46, 0, Err(BadRecord(35, 0x54))),
    (46, 2, Err(BadRecord(35, 0x54))),
    (48, 1, Err(BadRecord(35, 0x54))),
    (50, 1, Err(BadRecord(35, 0x54))),
    (52, 1, Err(BadRecord(35, 0x54))),
    (54, 1, Err(BadRecord(35, 0x54))),
    (56, 1, Err(BadRecord(35, 0x54))),
    (58, 1, Err(BadRecord(35, 0x54))),
    // how many admissions it seals
    (60, 0, Err(BadRecord(35, 0x54))),
    (60, 2, Err(BadRecord(35, 0x54))),
];

const CHANGED_WITH_ITEM: &[OtherByte] = &[
    // closed gates, and an open one
    (14, 0, Ok((0, 0))),
    (31, 0, Ok((1, 0))),
    (44, 0, Ok((1, 1))),
    (57, 0, Ok((1, 2))),
    (90, 1, Err(BadFrame(90))),
    // lengths
    (35, 7, Err(BadFrame(43))),
    (61, 27, Err(BadRecord(62, 0x41))),
    (61, 29, Err(BadFrame(57))),
    // the first Turn: its step, how many updates it takes in, how many admissions it seals
    (40, 2, Err(BadRecord(36, 0x54))),
    (41, 1, Err(BadRecord(36, 0x54))),
    (42, 1, Err(BadRecord(36, 0x54))),
    (43, 0, Err(BadRecord(36, 0x54))),
    (43, 2, Err(BadRecord(36, 0x54))),
    // the second one
    (50, 1, Err(BadRecord(49, 0x54))),
    (53, 1, Err(BadRecord(49, 0x54))),
    (53, 3, Err(BadRecord(49, 0x54))),
    (54, 1, Err(BadRecord(49, 0x54))),
    (56, 1, Err(BadRecord(49, 0x54))),
    // the requests
    (27, 8, Err(BadRecord(62, 0x41))),
    (70, 7, Err(BadRecord(62, 0x41))),
    (70, 9, Ok((2, 2))),
    // the completion: its tag, its item, its activity
    (71, 0, Err(BadRecord(62, 0x41))),
    (71, 2, Err(BadRecord(62, 0x41))),
    (72, 1, Err(BadRecord(62, 0x41))),
    (75, 0, Err(BadRecord(62, 0x41))),
    (75, 2, Err(BadRecord(62, 0x41))),
    (76, 1, Err(BadRecord(62, 0x41))),
    (77, 1, Err(BadRecord(62, 0x41))),
    // how many values it gives, to which variable, of which sort
    (78, 0, Err(BadRecord(62, 0x41))),
    (78, 2, Err(BadRecord(62, 0x41))),
    (78, 9, Err(BadRecord(62, 0x41))),
    (79, 1, Err(BadRecord(62, 0x41))),
    (80, 1, Err(BadRecord(62, 0x41))),
    (81, 0, Err(BadRecord(62, 0x41))),
    (81, 2, Err(BadRecord(62, 0x41))),
    (81, 3, Err(BadRecord(62, 0x41))),
    // another value
    (82, 0x80, Ok((2, 2))),
    (89, 8, Ok((2, 2))),
];

const LEFT: &[FirstBytes] = &[
    (Cut, 0, 2, Ok((0, 0))),
    (Cut, 2, 14, Err(BadFrame(0))),
    (Cut, 14, 31, Err(BadFrame(13))),
    (Cut, 31, 62, Err(BadFrame(30))),
    (Cut, 62, 63, Ok((1, 1))),
    // of the head: the gate, the length, the first byte, the others
    (Torn, 0, 1, Ok((0, 0))),
    (Torn, 1, 5, Err(BadFrame(0))),
    (Torn, 5, 6, Err(BadRecord(5, 0xFF))),
    (Torn, 6, 13, Err(BadRecord(5, 0x48))),
    // of the admission
    (Torn, 13, 14, Ok((0, 0))),
    (Torn, 14, 18, Err(BadFrame(13))),
    (Torn, 18, 19, Err(BadRecord(18, 0xFF))),
    (Torn, 19, 30, Err(BadRecord(18, 0x41))),
    // of the Turn
    (Torn, 30, 31, Ok((1, 0))),
    (Torn, 31, 35, Err(BadFrame(30))),
    (Torn, 35, 36, Err(BadRecord(35, 0xFF))),
    (Torn, 36, 61, Err(BadRecord(35, 0x54))),
    // the gate behind them
    (Torn, 61, 63, Ok((1, 1))),
];

const LEFT_WITH_ITEM: &[FirstBytes] = &[
    (Cut, 0, 2, Ok((0, 0))),
    (Cut, 2, 15, Err(BadFrame(0))),
    (Cut, 15, 32, Err(BadFrame(14))),
    (Cut, 32, 45, Err(BadFrame(31))),
    (Cut, 45, 58, Err(BadFrame(44))),
    (Cut, 58, 91, Err(BadFrame(57))),
    (Cut, 91, 92, Ok((2, 2))),
];

// What becomes of a start on bytes that there may be.
fn start_if_made(alloc: Global, checked: &Checked, image: Option<Vec<u8>>) -> Option<Start> {
    let image = image?;
    Some(start_over(alloc, checked, image.as_slice()))
}

// How many rows there are before the first at which something else becomes of a start.
fn right_changed(alloc: Global, checked: &Checked, journal: &[u8], rows: &[OtherByte]) -> usize {
    for (at, (place, byte, wanted)) in rows.iter().enumerate() {
        let image = with_byte(alloc, journal, *place, *byte);
        if start_if_made(alloc, checked, image) != Some(*wanted) {
            return at;
        }
    }
    rows.len()
}

// Whether the same becomes of all starts of a row.
fn is_right(alloc: Global, checked: &Checked, journal: &[u8], row: &FirstBytes) -> bool {
    let (rest, first, end, wanted) = *row;
    for size in first..end {
        let image = first_bytes(alloc, journal, size, rest);
        if start_if_made(alloc, checked, image) != Some(wanted) {
            return false;
        }
    }
    true
}

// How many rows there are before the first that is wrong.
fn right_left(alloc: Global, checked: &Checked, journal: &[u8], rows: &[FirstBytes]) -> usize {
    for (at, row) in rows.iter().enumerate() {
        if !is_right(alloc, checked, journal, row) {
            return at;
        }
    }
    rows.len()
}

// How many rows are right of changed bytes, and of first bytes.
fn right_starts(
    alloc: Global,
    text: &str,
    journal: &[u8],
    changed: &[OtherByte],
    left: &[FirstBytes],
) -> Option<(usize, usize)> {
    let checked = checked_of(alloc, text)?;
    let changed = right_changed(alloc, &checked, journal, changed);
    Some((changed, right_left(alloc, &checked, journal, left)))
}

#[test]
fn journals_that_are_harmed(rt: HostRuntime) {
    assert!(rt; right_starts(rt.alloc(), TWO, &JOURNAL, CHANGED, LEFT) == Some((54, 18)));
}

#[test]
fn journals_with_a_completion_that_are_harmed(rt: HostRuntime) {
    let right = right_starts(
        rt.alloc(),
        JOBS,
        &WITH_ITEM,
        CHANGED_WITH_ITEM,
        LEFT_WITH_ITEM,
    );
    assert!(rt; right == Some((38, 7)));
}

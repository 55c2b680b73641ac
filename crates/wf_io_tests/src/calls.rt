//! The calls that no command makes yet.
use std::test::Fail;
use wf_actions::{merge_writes, raised, starts};
use wf_activities::Items;
use wf_io::{Clock, ScriptClock};
use wf_model::{ActId, EventId, List, Same, StartAt, TransId, UnitId, Val, VarId, Write};

#[test]
fn moments(rt: HostRuntime) -> Result<(), Fail> {
    let moments = List::from_slice(rt.alloc(), &[5, -1, 9])?;
    assert!(rt; !moments.is_empty());
    let mut clock = ScriptClock::new(moments);
    for wanted in [5, -1, 9, 9] {
        assert!(rt; clock.now() == wanted, "at {wanted}");
    }
    Ok(())
}

fn write(var: u32, trans: u32, val: i64) -> Write {
    Write {
        var: VarId(var),
        trans: TransId(trans),
        val: Val::Int(val),
    }
}

#[test]
fn writes(rt: HostRuntime) -> Result<(), Fail> {
    let alloc = rt.alloc();
    let mut into = List::from_slice(alloc, &[write(0, 2, 3), write(3, 7, 1)])?;
    merge_writes(alloc, &mut into, &[write(3, 5, 4), write(1, 9, 5)])?;
    let wanted = List::from_slice(alloc, &[write(0, 2, 3), write(1, 9, 5), write(3, 7, 1)])?;
    assert!(rt; into.is_same(&wanted));
    Ok(())
}

#[test]
fn events(rt: HostRuntime) -> Result<(), Fail> {
    let alloc = rt.alloc();
    let mut lists = Vec::new(alloc);
    lists.push(List::from_slice(alloc, &[EventId(4), EventId(1)])?)?;
    lists.push(List::from_slice(alloc, &[EventId(0), EventId(4)])?)?;
    let events = raised(alloc, lists.as_slice())?;
    assert!(rt; events.as_slice() == [EventId(0), EventId(1), EventId(4)].as_slice());
    Ok(())
}

fn start(act: u32, trans: u32, place: u8) -> StartAt {
    StartAt {
        act: ActId(act),
        trans: TransId(trans),
        place,
    }
}

#[test]
fn items(rt: HostRuntime) -> Result<(), Fail> {
    let alloc = rt.alloc();
    let mut lists = Vec::new(alloc);
    lists.push(List::from_slice(alloc, &[start(0, 2, 1), start(1, 2, 0)])?)?;
    lists.push(List::from_slice(alloc, &[start(2, 1, 3)])?)?;
    let all = starts(alloc, lists.as_slice())?;
    let ordered = [start(2, 1, 3), start(1, 2, 0), start(0, 2, 1)];
    assert!(rt; all.as_slice() == ordered.as_slice());
    let mut items = Items::new(alloc, UnitId(0));
    items.grow(&[ActId(1), ActId(2)], 4, &ordered)?;
    let copy = items.copy(alloc)?;
    assert!(rt; copy.started() == [(ActId(2), 4), (ActId(1), 4)].as_slice());
    Ok(())
}

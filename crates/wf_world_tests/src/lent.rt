//! What a world lends.
use crate::plays::world_after_play;
use std::process::Abort;
use std::test::Fail;
use wf_model::UnitId;
use wf_world::World;

// Sender, receiver and step of each message that the play sent.
const SENT: [(u32, u32, u32); 5] = [(1, 0, 1), (0, 1, 1), (0, 1, 2), (1, 0, 2), (1, 0, 3)];

// Unit a's update of step 2, which tells unit b that the event came.
const TOLD: [u8; 21] = [
    0x55, 0, 0, 0, 0, 2, //
    0, 0, 0, 0, 0, 0, 0, 0, 0, 0, //
    0, 1, 0, 0, 1,
];

fn lends_messages(rt: &impl Abort, world: &World) -> Result<(), Fail> {
    let messages = world.messages();
    assert!(rt; messages.len() == SENT.len());
    for (message, (sender, receiver, step)) in messages.iter().zip(&SENT) {
        assert!(rt; message.sender == UnitId(*sender));
        assert!(rt; message.receiver == UnitId(*receiver));
        assert!(rt; message.step == *step);
    }
    let told = messages.get(2).ok_or("no third message")?;
    assert!(rt; told.bytes.as_slice() == TOLD.as_slice());
    Ok(())
}

fn lends_histories(rt: &impl Abort, world: &World) -> Result<(), Fail> {
    for (unit, admissions, turns) in [(0, 1, 3), (1, 0, 2)] {
        let history = world.history(UnitId(unit)).ok_or("no unit")?;
        assert!(rt; history.admissions().len() == admissions);
        assert!(rt; history.turns().len() == turns);
    }
    assert!(rt; world.history(UnitId(2)).is_none());
    assert!(rt; world.acted() == 14);
    Ok(())
}

fn lends_all(rt: &impl Abort, world: &World) -> Result<(), Fail> {
    lends_messages(rt, world)?;
    lends_histories(rt, world)
}

// It owns a world, whose drop is proved at each way out: so it has one.
#[test]
fn messages_and_histories_are_lent(rt: HostRuntime) -> Result<(), Fail> {
    let world = world_after_play(&rt)?;
    lends_all(&rt, &world)
}

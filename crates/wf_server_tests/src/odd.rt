//! Updates that tell a few things.
use std::alloc::Global;
use wf_model::{
    ActId, EventId, List, NoMemory, Outer, Output, StartAt, StateId, TransId, UnitId, Update, Val,
    VarId, Write,
};

/// A value: 9, or true.
#[derive(Clone, Copy)]
pub enum Told {
    Nine,
    Yes,
}

/// One thing that an update tells.
#[derive(Clone, Copy)]
pub enum Odd {
    /// A state.
    Flip(u32),
    /// A variable, a transition and a value.
    Write(u32, u32, Told),
    /// An event.
    Raise(u32),
    /// An activity, a transition and a place.
    Start(u32, u32, u8),
    /// A transition.
    Fire(u32),
    /// An event that was let in.
    Event(u32),
    /// A completion: its item and its activity, and the variables that it gives a value.
    Done(u32, u32, &'static [(u32, Told)]),
}

/// An update that tells nothing.
pub fn quiet(alloc: Global, from: u32, step: u32) -> Update {
    Update {
        from: UnitId(from),
        step,
        flips: List::new(alloc),
        writes: List::new(alloc),
        raised: List::new(alloc),
        starts: List::new(alloc),
        fired: List::new(alloc),
        outer: List::new(alloc),
    }
}

fn value_of(told: Told) -> Val {
    match told {
        Told::Nine => Val::Int(9),
        Told::Yes => Val::Bool(true),
    }
}

fn start_of(act: u32, trans: u32, place: u8) -> StartAt {
    StartAt {
        act: ActId(act),
        trans: TransId(trans),
        place,
    }
}

fn outputs_of(alloc: Global, given: &[(u32, Told)]) -> Result<List<Output>, NoMemory> {
    let mut outputs = List::new(alloc);
    for (var, told) in given {
        outputs.push(Output {
            var: VarId(*var),
            val: value_of(*told),
        })?;
    }
    Ok(outputs)
}

// Lets an update write a variable.
fn tell_write(update: &mut Update, var: u32, trans: u32, told: Told) -> Result<(), NoMemory> {
    let val = value_of(told);
    update.writes.push(Write {
        var: VarId(var),
        trans: TransId(trans),
        val,
    })
}

// Lets an update start an activity.
fn tell_start(update: &mut Update, act: u32, trans: u32, place: u8) -> Result<(), NoMemory> {
    update.starts.push(start_of(act, trans, place))
}

// Lets an update let a completion in.
fn tell_done(
    alloc: Global,
    update: &mut Update,
    item: u32,
    act: u32,
    given: &[(u32, Told)],
) -> Result<(), NoMemory> {
    let outputs = outputs_of(alloc, given)?;
    let act = ActId(act);
    update.outer.push(Outer::Complete { item, act, outputs })
}

// Lets an update tell one thing more.
fn tell(alloc: Global, update: &mut Update, odd: Odd) -> Result<(), NoMemory> {
    match odd {
        Odd::Flip(state) => update.flips.push(StateId(state)),
        Odd::Write(var, trans, told) => tell_write(update, var, trans, told),
        Odd::Raise(event) => update.raised.push(EventId(event)),
        Odd::Start(act, trans, place) => tell_start(update, act, trans, place),
        Odd::Fire(trans) => update.fired.push(TransId(trans)),
        Odd::Event(event) => update.outer.push(Outer::Happen(EventId(event))),
        Odd::Done(item, act, given) => tell_done(alloc, update, item, act, given),
    }
}

// Lets an update tell these things.
fn tell_all(alloc: Global, update: &mut Update, told: &[Odd]) -> Result<(), NoMemory> {
    for odd in told {
        tell(alloc, update, *odd)?;
    }
    Ok(())
}

/// An update that tells these things.
pub fn update_of(alloc: Global, from: u32, step: u32, told: &[Odd]) -> Result<Update, NoMemory> {
    let mut update = quiet(alloc, from, step);
    tell_all(alloc, &mut update, told)?;
    Ok(update)
}

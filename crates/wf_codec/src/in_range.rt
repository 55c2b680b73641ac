//! Whether an update has a spelling: each field in its range, each list in its order.
ghost use Rattle.std.specs.Prelude.{◌≡◌, ◌↔◌, Bool, IsTrue};
ghost use Rattle.std.specs.List.{list_all};
ghost use Rattle.wf_codec.specs.Ranges.{IsInRange};
ghost use Rattle.wf_codec.specs.Deciding as spec;

use wf_model::limits::{
    MAX_ACTIONS, MAX_ACTS, MAX_EVENTS, MAX_FIRED, MAX_OUTPUTS, MAX_SEALED, MAX_STARTS, MAX_STATES,
    MAX_STEPS, MAX_TRANSITIONS, MAX_UNITS, MAX_VARS,
};
use wf_model::{EventId, List, Outer, Output, StartAt, StateId, TransId, Update, Write};

/// What stands in an order in the lists of an update.
trait Ordered: Drop {
    /// Whether the first may stand before the other.
    ghost before: { Self → Self → Bool };

    /// Whether it may stand before the other.
    fn is_before(&self, other: &Self) -> bool
        ensures { result ≡ before self.now other.now };
}

impl Ordered for StateId {
    ghost use Rattle.std.specs.Prelude.{nat_lt};

    ghost before = { λ a b. nat_lt a.0 b.0 };

    fn is_before(&self, other: &StateId) -> bool {
        self.0 < other.0
    }
}

impl Ordered for EventId {
    ghost use Rattle.std.specs.Prelude.{nat_lt};

    ghost before = { λ a b. nat_lt a.0 b.0 };

    fn is_before(&self, other: &EventId) -> bool {
        self.0 < other.0
    }
}

impl Ordered for TransId {
    ghost use Rattle.std.specs.Prelude.{nat_lt};

    ghost before = { λ a b. nat_lt a.0 b.0 };

    fn is_before(&self, other: &TransId) -> bool {
        self.0 < other.0
    }
}

impl Ordered for Write {
    ghost use Rattle.std.specs.Prelude.{nat_lt};

    ghost before = { λ a b. nat_lt a.var.0 b.var.0 };

    fn is_before(&self, other: &Write) -> bool {
        self.var.0 < other.var.0
    }
}

impl Ordered for StartAt {
    ghost use Rattle.wf_codec.specs.Deciding.{is_earlier};

    ghost before = { is_earlier };

    fn is_before(&self, other: &StartAt) -> bool {
        self.trans.0 < other.trans.0 || self.trans.0 == other.trans.0 && self.place < other.place
    }
}

// Whether each item may stand before the next. Linear in them.
fn are_in_order<T: Ordered>(items: &[T]) -> bool
    ensures { result ≡ spec.are_in_order T.before items.now }
{
    for at in 1..items.len() {
        if !items[at - 1].is_before(&items[at]) {
            return false;
        }
    }
    true
}

fn is_state(state: &StateId) -> bool
    ensures { result ≡ spec.is_state state.now }
{
    state.0 < MAX_STATES as u32
}

fn is_event(event: &EventId) -> bool
    ensures { result ≡ spec.is_event event.now }
{
    event.0 < MAX_EVENTS as u32
}

fn is_transition(trans: &TransId) -> bool
    ensures { result ≡ spec.is_transition trans.now }
{
    trans.0 < MAX_TRANSITIONS as u32
}

fn is_write(write: &Write) -> bool
    ensures { result ≡ spec.is_write write.now }
{
    write.var.0 < MAX_VARS as u32 && write.trans.0 < MAX_TRANSITIONS as u32
}

fn is_start(start: &StartAt) -> bool
    ensures { result ≡ spec.is_start start.now }
{
    start.act.0 < MAX_ACTS as u32
        && start.trans.0 < MAX_TRANSITIONS as u32
        && usize::from(start.place) < MAX_ACTIONS
}

fn is_output(output: &Output) -> bool
    ensures { result ≡ spec.is_output output.now }
{
    output.var.0 < MAX_VARS as u32
}

// Whether each output is in range.
fn are_outputs(outputs: &List<Output>) -> bool
    ensures { result ≡ list_all spec.is_output outputs.now }
{
    outputs.iter().all(is_output)
}

fn is_outer(outer: &Outer) -> bool
    ensures { result ≡ spec.is_outer outer.now }
{
    match outer {
        Outer::Happen(event) => event.0 < MAX_EVENTS as u32,
        Outer::Complete { item, act, outputs } => {
            1 <= *item
                && act.0 < MAX_ACTS as u32
                && outputs.len() <= MAX_OUTPUTS
                && are_outputs(outputs)
        }
    }
}

// Who sent the update, and of which step.
fn is_sent(update: &Update) -> bool
    ensures { result ≡ spec.is_sent update.now }
{
    update.from.0 < MAX_UNITS as u32 && 1 <= update.step && update.step <= MAX_STEPS + 1
}

// Whether each state is in range.
fn are_states(states: &List<StateId>) -> bool
    ensures { result ≡ list_all spec.is_state states.now }
{
    states.iter().all(is_state)
}

// Whether each event is in range.
fn are_events(events: &List<EventId>) -> bool
    ensures { result ≡ list_all spec.is_event events.now }
{
    events.iter().all(is_event)
}

// Whether each transition is in range.
fn are_transitions(transitions: &List<TransId>) -> bool
    ensures { result ≡ list_all spec.is_transition transitions.now }
{
    transitions.iter().all(is_transition)
}

// Whether each write is in range.
fn are_writes(writes: &List<Write>) -> bool
    ensures { result ≡ list_all spec.is_write writes.now }
{
    writes.iter().all(is_write)
}

// Whether each start is in range.
fn are_starts(starts: &List<StartAt>) -> bool
    ensures { result ≡ list_all spec.is_start starts.now }
{
    starts.iter().all(is_start)
}

// Whether each outer is in range.
fn are_outers(outers: &List<Outer>) -> bool
    ensures { result ≡ list_all spec.is_outer outers.now }
{
    outers.iter().all(is_outer)
}

// The states.
fn flips_in(update: &Update) -> bool
    ensures { result ≡ spec.flips_in update.now }
{
    are_states(&update.flips) && are_in_order(update.flips.as_slice())
}

// The writes.
fn writes_in(update: &Update) -> bool
    ensures { result ≡ spec.writes_in update.now }
{
    are_writes(&update.writes) && are_in_order(update.writes.as_slice())
}

// The events.
fn raised_in(update: &Update) -> bool
    ensures { result ≡ spec.raised_in update.now }
{
    are_events(&update.raised) && are_in_order(update.raised.as_slice())
}

// The starts.
fn starts_in(update: &Update) -> bool
    ensures { result ≡ spec.starts_in update.now }
{
    are_starts(&update.starts)
        && are_in_order(update.starts.as_slice())
        && update.starts.len() <= MAX_STARTS
}

// What fired.
fn fired_in(update: &Update) -> bool
    ensures { result ≡ spec.fired_in update.now }
{
    are_transitions(&update.fired)
        && are_in_order(update.fired.as_slice())
        && update.fired.len() <= MAX_FIRED
}

// The outers.
fn outer_in(update: &Update) -> bool
    ensures { result ≡ spec.outer_in update.now }
{
    are_outers(&update.outer) && update.outer.len() <= MAX_SEALED
}

// The states, the variables and the events.
fn are_changes(update: &Update) -> bool
    ensures { result ≡ spec.are_changes update.now }
{
    flips_in(update) && writes_in(update) && raised_in(update)
}

// The starts, what fired, and the outers.
fn are_rest(update: &Update) -> bool
    ensures { result ≡ spec.are_rest update.now }
{
    starts_in(update) && fired_in(update) && outer_in(update)
}

// The whole update.
fn is_whole(update: &Update) -> bool
    ensures { result ≡ spec.is_whole update.now }
{
    is_sent(update) && are_changes(update) && are_rest(update)
}

/// Whether each field of an update is in its range, and each list in its order: just then it has a spelling. Linear in its lists. Takes no
/// memory.
pub fn is_in_range(update: &Update) -> bool
    ensures { IsTrue result ↔ IsInRange update.now }
{
    is_whole(update)
}

//! How many bytes a spelling takes, so that their room is reserved at once.
ghost use Rattle.std.specs.Prelude.{◌≡◌, ◌*◌, ◌≤◌, length};
ghost use Rattle.std.specs.List.{flat_map, AllByRecursion};
ghost use Rattle.wf_model.specs.Limits.{max_sealed, max_vars, max_outputs, max_units};
ghost use Rattle.wf_codec.specs.Spelling.{value_spelling, output_spelling, outer_spelling, write_spelling, spelling_of};
ghost use Rattle.wf_codec.specs.Ranges.{any_numbers, IsOuter, IsInRange, IsHeldValue, IsHeldOuter, IsHeld};

use wf_model::limits::{MAX_OUTPUTS, MAX_TEXT};
use wf_model::{Outer, Output, Update, Val, Write};

/// Bytes of a value, at most: its sort, a length and the characters.
const VALUE: usize = 2 + MAX_TEXT;

/// Bytes of an output, at most.
const OUTPUT: usize = 2 + VALUE;

/// Bytes of an outer, at most: its kind, an item, an activity, a count and the outputs.
const OUTER: usize = 8 + OUTPUT * MAX_OUTPUTS;

/// Bytes of a write, at most.
const WRITE: usize = 4 + VALUE;

/// Bytes of a start.
const START: usize = 5;

/// Bytes of a number of a state, an event or a transition.
const NUMBER: usize = 2;

/// Bytes of an update's tag, its unit, its step and six counts.
const FRAME: usize = 18;

/// Bytes of the spelling of an update, at most.
pub const MAX_SPELLING: usize = 87_488;

/// Bytes of a value.
#[tactic(auto, unfolding(crate::specs::Spelling::value_spelling))]
fn value_room(value: &Val) -> usize
    ensures exact { result ≡ length (value_spelling value.now) }
    ensures bound { result ≤ VALUE }
    ensures held { IsHeldValue value.now }
{
    match value {
        Val::Bool(_) => 2,
        Val::Int(number) => 1 + number.to_be_bytes().len(),
        Val::Text(text) => 2 + text.as_slice().len(),
    }
}

/// Bytes of the outputs of a completion.
fn outputs_room(outputs: &[Output]) -> usize
    requires { length outputs.now ≤ max_outputs }
    ensures exact { result ≡ length (flat_map output_spelling outputs.now) }
    ensures bound { result ≤ OUTPUT * length outputs.now }
    ensures held { AllByRecursion (λ o. IsHeldValue o.val) outputs.now }
{
    let mut room = 0;
    for output in outputs {
        room += 2 + value_room(&output.val);
    }
    room
}

/// Bytes of an outer: its kind and an event, or its kind, an item, an activity, a count and the outputs.
#[tactic(auto, unfolding(crate::specs::Spelling::outer_spelling))]
pub fn outer_room(outer: &Outer) -> usize
    requires { IsOuter any_numbers outer.now }
    ensures exact { result ≡ length (outer_spelling outer.now) }
    ensures bound { result ≤ OUTER }
    ensures held { IsHeldOuter outer.now }
{
    match outer {
        Outer::Happen(_) => 3,
        Outer::Complete { item, outputs, .. } => {
            4 + item.to_be_bytes().len() + outputs_room(outputs.as_slice())
        }
    }
}

/// Bytes of the outers of an update.
fn outers_room(outers: &[Outer]) -> usize
    requires few { length outers.now ≤ max_sealed }
    requires each { AllByRecursion (IsOuter any_numbers) outers.now }
    ensures exact { result ≡ length (flat_map outer_spelling outers.now) }
    ensures bound { result ≤ OUTER * length outers.now }
    ensures held { AllByRecursion IsHeldOuter outers.now }
{
    let mut room = 0;
    for outer in outers {
        room += outer_room(outer);
    }
    room
}

/// Bytes of the writes of an update.
fn writes_room(writes: &[Write]) -> usize
    requires { length writes.now ≤ max_vars }
    ensures exact { result ≡ length (flat_map write_spelling writes.now) }
    ensures bound { result ≤ WRITE * length writes.now }
    ensures held { AllByRecursion (λ w. IsHeldValue w.val) writes.now }
{
    let mut room = 0;
    for write in writes {
        room += 4 + value_room(&write.val);
    }
    room
}

/// Bytes of an update: of its tag, its unit, its step and six counts, and of its lists. Linear in its writes and outers.
#[tactic(auto, using(crate::proofs::Fits::flips_few, crate::proofs::Fits::writes_few, crate::proofs::Fits::raised_few, crate::proofs::Fits::outers_fit, crate::proofs::Lengths::spelling_length))]
pub fn update_room(update: &Update) -> usize
    requires { IsInRange update.now }
    ensures exact { result ≡ length (spelling_of update.now) }
    ensures bound { result ≤ MAX_SPELLING }
    ensures held { IsHeld update.now }
{
    let changes = NUMBER * update.flips.len()
        + writes_room(update.writes.as_slice())
        + NUMBER * update.raised.len();
    let rest = START * update.starts.len() + NUMBER * update.fired.len();
    FRAME + changes + rest + outers_room(update.outer.as_slice())
}

/// Bytes of the updates of a turn. Linear in their writes and outers.
pub fn updates_room(updates: &[Update]) -> usize
    requires few { length updates.now ≤ max_units }
    requires each { AllByRecursion IsInRange updates.now }
    ensures exact { result ≡ length (flat_map spelling_of updates.now) }
    ensures bound { result ≤ MAX_SPELLING * length updates.now }
    ensures held { AllByRecursion IsHeld updates.now }
{
    let mut room = 0;
    for update in updates {
        room += update_room(update);
    }
    room
}

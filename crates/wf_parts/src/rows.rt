//! The blockers of a part's transitions, as sets.
ghost use Rattle.std.specs.Prelude.{◌≡◌, ◌*◌, ◌<◌, ◌≤◌, All, IfOk, length, map};
ghost use Rattle.std.specs.List.{range_with_len};
ghost use Rattle.wf_model.specs.Limits.{max_transitions};
ghost use Rattle.wf_parts.specs.Rows.{IsNumbered, AreRows, names, row_of, rows_of};

use crate::PartTransition;
use std::alloc::Global;
use wf_masks::Bits;
use wf_model::{List, NoMemory, TransId};

/// For each transition of a part, in the part's order, the set of the places of those that block it. The sets are as narrow as the
/// part's transitions allow.
#[derive(Drop)]
pub enum Rows {
    /// Of at most 64 transitions.
    One(List<Bits<1>>),
    /// Of at most 256.
    Four(List<Bits<4>>),
    /// Of as many as a chart has.
    Sixteen(List<Bits<16>>),
}

// The set of these transitions, by number.
fn numbers_of(ids: &[TransId]) -> Bits<16>
    requires { All (λ id. id.0 < max_transitions) ids.now }
    ensures { result ≡ map (names ids.now) (range_with_len 0 max_transitions) }
{
    let mut numbers = Bits::new();
    for id in ids {
        numbers.set(id.0);
    }
    numbers
}

// The places of the transitions that block this one.
fn row_of<const W: usize>(transitions: &[PartTransition], trans: &PartTransition) -> Bits<W>
    requires some { 1 ≤ W }
    requires few { W ≤ 64 }
    requires long { length transitions.now ≤ 64 * W }
    requires all { All IsNumbered transitions.now }
    requires this { IsNumbered trans.now }
    ensures { result ≡ row_of (64 * W) transitions.now trans.now }
{
    let blocking = numbers_of(trans.blockers.as_slice());
    let mut row = Bits::new();
    for (at, other) in transitions.iter().enumerate() {
        if blocking.has(other.id.0) {
            row.set(at as u32);
        }
    }
    row
}

// The row of each transition.
fn rows_of<const W: usize>(
    alloc: Global,
    transitions: &[PartTransition],
) -> Result<List<Bits<W>>, NoMemory>
    requires some { 1 ≤ W }
    requires few { W ≤ 64 }
    requires long { length transitions.now ≤ 64 * W }
    requires all { All IsNumbered transitions.now }
    ensures { IfOk result (λ rows. rows ≡ rows_of (64 * W) transitions.now) }
{
    let mut rows = List::new(alloc);
    for trans in transitions {
        rows.push(row_of(transitions, trans))?;
    }
    Ok(rows)
}

impl Rows {
    /// The rows of these transitions. In time that grows with the transitions squared and with their blockers.
    pub(crate) fn of(alloc: Global, transitions: &[PartTransition]) -> Result<Rows, NoMemory>
        requires few { length transitions.now ≤ max_transitions }
        requires all { All IsNumbered transitions.now }
        ensures { IfOk result (AreRows transitions.now) }
    {
        if transitions.len() <= 64 {
            Ok(Rows::One(rows_of(alloc, transitions)?))
        } else if transitions.len() <= 256 {
            Ok(Rows::Four(rows_of(alloc, transitions)?))
        } else {
            Ok(Rows::Sixteen(rows_of(alloc, transitions)?))
        }
    }
}

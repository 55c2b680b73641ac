//! Which transitions of a part fire.
ghost use Rattle.std.specs.Prelude.{◌≡◌, ◌≤◌, ◌*◌, All, Bool, IfOk, IfSome, length, map};
ghost use Rattle.std.specs.List.{list_any};
ghost use Rattle.wf_model.specs.Bits.{bit};
ghost use Rattle.wf_parts.specs.declared.data.PartTransition.{PartTransition as AnyTransition};
ghost use Rattle.wf_parts.specs.Parts.{IsPart};
ghost use Rattle.wf_parts.specs.Rows.{AreRows, places, rows_of};
ghost use Rattle.wf_semantics.specs.Snapshot.{has_event, has_guard};
ghost use Rattle.wf_views.specs.OwnSteps.{is_ready_in, is_fired_in, fires_in};
ghost use Rattle.wf_flat.specs.Firing.{CanRead, CanFire, holds, says_of, is_unblocked};
ghost use Rattle.wf_flat.specs.Sighted.{shown_by};

use crate::sighting::Sighting;
use std::alloc::Global;
use wf_expr::outcome;
use wf_masks::{Bits, fires};
use wf_model::{Bits as BitList, EventId, Expr, List, NoMemory, TransId, Val};
use wf_parts::{PartData, PartTransition, Rows};
use wf_updates::{entry_at, table_of};

/// The transitions of a part that fire: of each by its place whether it does, and the same by number.
#[derive(Drop)]
pub struct Firing {
    pub by_place: Vec<bool>,
    pub by_number: List<Option<bool>>,
}

fn has_event(there: &BitList, event: Option<EventId>) -> bool
    ensures { result ≡ has_event (bit there.now) event }
{
    match event {
        Some(e) => there.has(e.0 as usize),
        None => true,
    }
}

fn has_guard(sight: &Sighting, guard: &Option<Expr>) -> bool
    requires { IfSome guard.now (CanRead (shown_by sight.now).seen) }
    ensures { result ≡ has_guard (shown_by sight.now).seen guard.now }
{
    match guard {
        Some(guard) => matches!(outcome(guard, sight), Ok(Val::Bool(true))),
        None => true,
    }
}

// A guard is looked at only where the source is in and the event there.
fn is_ready(sight: &Sighting, trans: &PartTransition) -> bool
    requires { IfSome trans.now.guard (CanRead (shown_by sight.now).seen) }
    ensures { result ≡ is_ready_in (shown_by sight.now) trans.now }
{
    sight.is_active(trans.source)
        && has_event(&sight.there, trans.event)
        && has_guard(sight, &trans.guard)
}

// The transitions that are ready, by their places.
fn enabled_bits<const W: usize>(sight: &Sighting, transitions: &[PartTransition]) -> Bits<W>
    requires some { 1 ≤ W }
    requires few { W ≤ 64 }
    requires long { length transitions.now ≤ 64 * W }
    requires can { All (CanFire (shown_by sight.now).seen) transitions.now }
    ensures { result ≡ places (64 * W) (is_ready_in (shown_by sight.now)) transitions.now }
{
    let mut ready = Bits::new();
    for (at, trans) in transitions.iter().enumerate() {
        if is_ready(sight, trans) {
            ready.set(at as u32);
        }
    }
    ready
}

// The transitions that fire, by their places: those that are ready and of whose blockers none is.
fn firing_bits<const W: usize>(
    sight: &Sighting,
    transitions: &[PartTransition],
    rows: &[Bits<W>],
) -> Bits<W>
    requires some { 1 ≤ W }
    requires few { W ≤ 64 }
    requires long { length transitions.now ≤ 64 * W }
    requires can { All (CanFire (shown_by sight.now).seen) transitions.now }
    requires rows { rows.now ≡ rows_of (64 * W) transitions.now }
    ensures { result ≡ places (64 * W) (is_unblocked transitions.now (is_ready_in (shown_by sight.now))) transitions.now }
{
    fires(&enabled_bits(sight, transitions), rows)
}

// Of each of these transitions by its place, whether it is among those.
fn flags<const W: usize>(
    alloc: Global,
    transitions: &[PartTransition],
    among: &Bits<W>,
) -> Result<Vec<bool>, NoMemory>
    requires few { W ≤ 64 }
    requires long { length transitions.now ≤ 64 * W }
    ensures { (test : AnyTransition → Bool) → among.now ≡ places (64 * W) test transitions.now → IfOk result (λ flags. flags.items ≡ map test transitions.now) }
{
    let mut flags = Vec::new(alloc);
    for at in 0..transitions.len() {
        flags.push(among.has(at as u32))?;
    }
    Ok(flags)
}

// Of each transition by its place, whether it fires, by sets of so many words.
fn fired_by<const W: usize>(
    alloc: Global,
    sight: &Sighting,
    transitions: &[PartTransition],
    rows: &[Bits<W>],
) -> Result<Vec<bool>, NoMemory>
    requires some { 1 ≤ W }
    requires few { W ≤ 64 }
    requires long { length transitions.now ≤ 64 * W }
    requires can { All (CanFire (shown_by sight.now).seen) transitions.now }
    requires rows { rows.now ≡ rows_of (64 * W) transitions.now }
    ensures { IfOk result (λ flags. flags.items ≡ map (is_unblocked transitions.now (is_ready_in (shown_by sight.now))) transitions.now) }
{
    flags(alloc, transitions, &firing_bits(sight, transitions, rows))
}

// A case for each width of the rows.
macro_rules! by_width {
    ($rows:expr, $alloc:expr, $sight:expr, $transitions:expr; $($width:ident),*) => {
        match $rows {
            $(Rows::$width(rows) => fired_by($alloc, $sight, $transitions, rows.as_slice()),)*
        }
    };
}

// Of each transition by its place, whether it fires, by the rows of the transitions.
fn by_place(
    alloc: Global,
    sight: &Sighting,
    transitions: &[PartTransition],
    rows: &Rows,
) -> Result<Vec<bool>, NoMemory>
    requires can { All (CanFire (shown_by sight.now).seen) transitions.now }
    requires rows { AreRows transitions.now rows.now }
    ensures { IfOk result (λ flags. flags.items ≡ map (is_unblocked transitions.now (is_ready_in (shown_by sight.now))) transitions.now) }
{
    by_width!(rows, alloc, sight, transitions; One, Four, Sixteen)
}

/// The truth at a place, false past the end.
pub fn flag_at(flags: &[bool], at: usize) -> bool
    ensures { result ≡ bit flags.now at }
{
    match flags.get(at) {
        Some(flag) => *flag,
        None => false,
    }
}

// The transitions' numbers with what is said of each by its place.
fn pairs(
    alloc: Global,
    transitions: &[PartTransition],
    flags: &[bool],
) -> Result<Vec<(u32, bool)>, NoMemory>
    ensures { (test : AnyTransition → Bool) → flags.now ≡ map test transitions.now → IfOk result (λ pairs. pairs.items ≡ map (λ trans. (trans.id.0, test trans)) transitions.now) }
{
    let mut pairs = Vec::new(alloc);
    for (at, trans) in transitions.iter().enumerate() {
        pairs.push((trans.id.0, flag_at(flags, at)))?;
    }
    Ok(pairs)
}

// What is said of each transition by its place, as a table by number.
fn by_number(
    alloc: Global,
    transitions: &[PartTransition],
    flags: &[bool],
) -> Result<List<Option<bool>>, NoMemory>
    ensures { (test : AnyTransition → Bool) → flags.now ≡ map test transitions.now → IfOk result (λ table. holds table ≡ says_of test transitions.now) }
{
    let pairs = pairs(alloc, transitions, flags)?;
    table_of(alloc, pairs.as_slice())
}

/// The truth at the number of a transition, false where none stands.
pub fn is_set(table: &List<Option<bool>>, trans: TransId) -> bool
    ensures { result ≡ holds table.now trans.0 }
{
    match entry_at(table, trans.0) {
        Some(flag) => flag,
        None => false,
    }
}

/// Whether one of these transitions is set.
pub fn has_any(table: &List<Option<bool>>, ids: &[TransId]) -> bool
    ensures { result ≡ list_any (λ t. holds table.now t.0) ids.now }
{
    ids.iter().any(|t| is_set(table, *t))
}

impl Firing {
    /// The transitions that fire where the step sees this: those that are ready and of whose blockers none is, by the part's rows. In
    /// linear time in the transitions, the words of their rows and the nodes of the guards that are looked at, and in the greatest number of
    /// a transition.
    pub fn of(
        alloc: Global,
        sight: &Sighting,
        part: &PartData,
        rows: &Rows,
    ) -> Result<Firing, NoMemory>
        requires part { IsPart part.now }
        requires can { All (CanFire (shown_by sight.now).seen) part.now.transitions }
        requires rows { AreRows part.now.transitions rows.now }
        ensures by_place { IfOk result (λ it. it.by_place.items ≡ map (is_fired_in part.now (shown_by sight.now)) part.now.transitions) }
        ensures by_number { IfOk result (λ it. holds it.by_number ≡ fires_in part.now (shown_by sight.now)) }
    {
        let transitions = part.transitions.as_slice();
        let by_place = by_place(alloc, sight, transitions, rows)?;
        let by_number = by_number(alloc, transitions, by_place.as_slice())?;
        Ok(Firing {
            by_place,
            by_number,
        })
    }
}

//! What the peers of a unit know of its updates.
ghost use Rattle.std.specs.Prelude.{◌≡◌, ◌==◌, ◌<◌, ◌^◌, not, map, filter, length, IfOk};
ghost use Rattle.std.specs.List.{range_with_len};
ghost use Rattle.wf_model.specs.Accepted.{IsAccepted};
ghost use Rattle.wf_model.specs.Ids.{state_id, var_id, event_id, act_id};
ghost use Rattle.wf_parts.specs.Peers as spec;
ghost use Rattle.wf_partition.specs.Marked.{are_set, held_bits, unit_bits};

use crate::holding::Held;
use crate::knowing::UnitBits;
use crate::reading::is_set;
use std::alloc::Global;
use wf_model::{ActId, Chart, EventId, List, NoMemory, StateId, UnitId, VarId};
use wf_parts::Known;

// Whether the bit of a number is set in both.
fn are_set(one: &List<bool>, other: &List<bool>, at: usize) -> bool
    ensures { result ≡ are_set one.now other.now at }
{
    is_set(one.as_slice(), at) && is_set(other.as_slice(), at)
}

// The states whose bits are set in both. Grows with the bits.
fn shared_states(
    alloc: Global,
    held: &List<bool>,
    known: &List<bool>,
) -> Result<List<StateId>, NoMemory>
    requires { length held.now < 2 ^ 32 }
    ensures { IfOk result (λ ids. ids ≡ map state_id (filter (are_set held.now known.now) (range_with_len 0 (length held.now)))) }
{
    let mut ids = List::new(alloc);
    for k in 0..held.len() {
        if are_set(held, known, k) {
            ids.push(StateId(k as u32))?;
        }
    }
    Ok(ids)
}

// The variables whose bits are set in both. Grows with the bits.
fn shared_vars(
    alloc: Global,
    held: &List<bool>,
    known: &List<bool>,
) -> Result<List<VarId>, NoMemory>
    requires { length held.now < 2 ^ 32 }
    ensures { IfOk result (λ ids. ids ≡ map var_id (filter (are_set held.now known.now) (range_with_len 0 (length held.now)))) }
{
    let mut ids = List::new(alloc);
    for k in 0..held.len() {
        if are_set(held, known, k) {
            ids.push(VarId(k as u32))?;
        }
    }
    Ok(ids)
}

// The events whose bits are set in both. Grows with the bits.
fn shared_events(
    alloc: Global,
    held: &List<bool>,
    known: &List<bool>,
) -> Result<List<EventId>, NoMemory>
    requires { length held.now < 2 ^ 32 }
    ensures { IfOk result (λ ids. ids ≡ map event_id (filter (are_set held.now known.now) (range_with_len 0 (length held.now)))) }
{
    let mut ids = List::new(alloc);
    for k in 0..held.len() {
        if are_set(held, known, k) {
            ids.push(EventId(k as u32))?;
        }
    }
    Ok(ids)
}

// The activities whose bits are set in both. Grows with the bits.
fn shared_acts(
    alloc: Global,
    held: &List<bool>,
    known: &List<bool>,
) -> Result<List<ActId>, NoMemory>
    requires { length held.now < 2 ^ 32 }
    ensures { IfOk result (λ ids. ids ≡ map act_id (filter (are_set held.now known.now) (range_with_len 0 (length held.now)))) }
{
    let mut ids = List::new(alloc);
    for k in 0..held.len() {
        if are_set(held, known, k) {
            ids.push(ActId(k as u32))?;
        }
    }
    Ok(ids)
}

// What one peer knows of the unit's updates. Grows with the states, variables, events and activities.
fn known_of(
    alloc: Global,
    chart: &Chart,
    held: &Held,
    peer: &UnitBits,
    unit: UnitId,
    v: UnitId,
) -> Result<Known, NoMemory>
    requires accepted { IsAccepted chart.now }
    requires held { held.now ≡ held_bits chart.now unit.0 }
    requires peer { peer.now ≡ unit_bits chart.now v.0 }
    ensures { IfOk result (λ known. known ≡ spec.known_of chart.now unit.0 v.0) }
{
    let states = shared_states(alloc, &held.states, &peer.states)?;
    let vars = shared_vars(alloc, &held.vars, &peer.vars)?;
    let events = shared_events(alloc, &held.events, &peer.events)?;
    let acts = shared_acts(alloc, &held.acts, &peer.acts)?;
    Ok(Known {
        unit: v,
        states,
        vars,
        events,
        acts,
    })
}

// Whether this is another unit.
fn is_peer(unit: UnitId, v: usize) -> bool
    ensures { result ≡ not (v == unit.0) }
{
    v != unit.0 as usize
}

/// What each peer knows of what may stand in the unit's updates, in unit order. Grows with the units times the states, variables, events
/// and activities.
pub fn peers_of(
    alloc: Global,
    chart: &Chart,
    held: &Held,
    all: &[UnitBits],
    unit: UnitId,
) -> Result<List<Known>, NoMemory>
    requires accepted { IsAccepted chart.now }
    requires held { held.now ≡ held_bits chart.now unit.0 }
    requires all { all.now ≡ map (unit_bits chart.now) (range_with_len 0 (length chart.now.units)) }
    ensures { IfOk result (λ peers. peers ≡ spec.peers_of chart.now unit.0) }
{
    let mut peers = List::new(alloc);
    for (v, peer) in all.iter().enumerate() {
        if is_peer(unit, v) {
            let known = known_of(alloc, chart, held, peer, unit, UnitId(v as u32))?;
            peers.push(known)?;
        }
    }
    Ok(peers)
}

//! A chart cut into components.
ghost use Rattle.std.specs.Prelude.{◌≡◌, ◌<◌, map, filter, length, IfOk};
ghost use Rattle.wf_model.specs.Accepted.{IsAccepted};
ghost use Rattle.wf_model.specs.Tree.{all_states, all_transitions};
ghost use Rattle.wf_model.specs.Ids.{trans_id};
ghost use Rattle.wf_semantics.specs.Configuration.{is_in};
ghost use Rattle.wf_semantics.specs.Entry.{default_tree};
ghost use Rattle.wf_semantics.specs.Flat.{blocks};
ghost use Rattle.wf_scopes.specs.Tables.{tables_of};
ghost use Rattle.wf_parts.specs.Components.{enters, leaves, component_of, blocker_ids, flat_of};

use std::alloc::Global;
use wf_model::{Chart, Checked, List, NoMemory, StateId, TransId};
use wf_parts::{Component, Flat};
use wf_scopes::{Scopes, default_bits};

// The transitions that let state `z` in.
fn entering_ids(
    alloc: Global,
    chart: &Chart,
    scopes: &Scopes,
    z: StateId,
) -> Result<List<TransId>, NoMemory>
    requires of { scopes.now ≡ tables_of chart.now }
    requires accepted { IsAccepted chart.now }
    requires in_range { z.0 < length chart.now.states }
    ensures { IfOk result (λ ids. ids ≡ map trans_id (filter (λ t. enters chart.now t z.0) (all_transitions chart.now))) }
{
    let mut ids = List::new(alloc);
    for t in 0..chart.transitions.len() {
        let id = TransId(t as u32);
        if scopes.enters(id, z) {
            ids.push(id)?;
        }
    }
    Ok(ids)
}

// Whether transition `t` lets state `z` out.
fn leaves(chart: &Chart, scopes: &Scopes, t: TransId, z: StateId) -> bool
    requires of { scopes.now ≡ tables_of chart.now }
    requires known { t.0 < length chart.now.transitions }
    requires in_range { z.0 < length chart.now.states }
    ensures { result ≡ leaves chart.now t.0 z.0 }
{
    scopes.above(scopes.scope(t), z) && !scopes.enters(t, z)
}

// The transitions that let state `z` out.
fn leaving_ids(
    alloc: Global,
    chart: &Chart,
    scopes: &Scopes,
    z: StateId,
) -> Result<List<TransId>, NoMemory>
    requires of { scopes.now ≡ tables_of chart.now }
    requires accepted { IsAccepted chart.now }
    requires in_range { z.0 < length chart.now.states }
    ensures { IfOk result (λ ids. ids ≡ map trans_id (filter (λ t. leaves chart.now t z.0) (all_transitions chart.now))) }
{
    let mut ids = List::new(alloc);
    for t in 0..chart.transitions.len() {
        let id = TransId(t as u32);
        if leaves(chart, scopes, id, z) {
            ids.push(id)?;
        }
    }
    Ok(ids)
}

// State `z` by itself, where it is known whether it is in at first.
fn component(
    alloc: Global,
    chart: &Chart,
    scopes: &Scopes,
    z: StateId,
    first: bool,
) -> Result<Component, NoMemory>
    requires of { scopes.now ≡ tables_of chart.now }
    requires accepted { IsAccepted chart.now }
    requires in_range { z.0 < length chart.now.states }
    requires first { first ≡ is_in z.0 (default_tree chart.now 0) }
    ensures { IfOk result (λ component. component ≡ component_of chart.now z.0) }
{
    let enter = entering_ids(alloc, chart, scopes, z)?;
    let leave = leaving_ids(alloc, chart, scopes, z)?;
    Ok(Component {
        state: z,
        first,
        enter,
        leave,
    })
}

fn components(alloc: Global, chart: &Chart, scopes: &Scopes) -> Result<List<Component>, NoMemory>
    requires of { scopes.now ≡ tables_of chart.now }
    requires accepted { IsAccepted chart.now }
    ensures { IfOk result (λ list. list ≡ map (component_of chart.now) (all_states chart.now)) }
{
    let bits = default_bits(alloc, chart)?;
    let mut list = List::new(alloc);
    for (z, first) in bits.as_slice().iter().enumerate() {
        let component = component(alloc, chart, scopes, StateId(z as u32), *first)?;
        list.push(component)?;
    }
    Ok(list)
}

// Whether transition `b` blocks transition `t`: its scope is above, or it has the same scope and the lower number.
fn blocks(chart: &Chart, scopes: &Scopes, b: TransId, t: TransId) -> bool
    requires of { scopes.now ≡ tables_of chart.now }
    requires accepted { IsAccepted chart.now }
    requires blocking { b.0 < length chart.now.transitions }
    requires blocked { t.0 < length chart.now.transitions }
    ensures { result ≡ blocks chart.now b.0 t.0 }
{
    let upper = scopes.scope(b);
    let lower = scopes.scope(t);
    scopes.above(upper, lower) || (upper.0 == lower.0 && b.0 < t.0)
}

// The transitions that block transition `t`.
fn blockers(
    alloc: Global,
    chart: &Chart,
    scopes: &Scopes,
    t: TransId,
) -> Result<List<TransId>, NoMemory>
    requires of { scopes.now ≡ tables_of chart.now }
    requires accepted { IsAccepted chart.now }
    requires known { t.0 < length chart.now.transitions }
    ensures { IfOk result (λ ids. ids ≡ blocker_ids chart.now t.0) }
{
    let mut ids = List::new(alloc);
    for b in 0..chart.transitions.len() {
        let id = TransId(b as u32);
        if blocks(chart, scopes, id, t) {
            ids.push(id)?;
        }
    }
    Ok(ids)
}

fn all_blockers(
    alloc: Global,
    chart: &Chart,
    scopes: &Scopes,
) -> Result<List<List<TransId>>, NoMemory>
    requires of { scopes.now ≡ tables_of chart.now }
    requires accepted { IsAccepted chart.now }
    ensures { IfOk result (λ table. table ≡ map (blocker_ids chart.now) (all_transitions chart.now)) }
{
    let mut table: List<List<TransId>> = List::new(alloc);
    for t in 0..chart.transitions.len() {
        let ids = blockers(alloc, chart, scopes, TransId(t as u32))?;
        table.push(ids)?;
    }
    Ok(table)
}

/// The chart as components, one for each state, with what blocks each transition. Grows with the states and with the transitions,
/// each times the transitions and the depth of states, beside what the tables of the chart take.
#[tactic(auto, unfolding(wf_parts::specs::Components::flat_of))]
pub fn orthogonalise(alloc: Global, checked: &Checked) -> Result<Flat, NoMemory>
    ensures { IfOk result (λ flat. flat ≡ flat_of checked.now) }
{
    let chart = checked.chart();
    let scopes = Scopes::of(alloc, checked)?;
    let components = components(alloc, chart, &scopes)?;
    let blockers = all_blockers(alloc, chart, &scopes)?;
    Ok(Flat {
        components,
        blockers,
    })
}

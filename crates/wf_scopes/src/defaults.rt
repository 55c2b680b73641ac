//! The states that are in by default.
ghost use Rattle.std.specs.Prelude.{◌≡◌, ◌<◌, ◌&&◌, false, slice_index_or, map, length, Some, IfOk};
ghost use Rattle.std.specs.List.{range_with_len};
ghost use Rattle.wf_model.specs.Accepted.{IsAccepted};
ghost use Rattle.wf_model.specs.Tree.{all_states, parent, kind};
ghost use Rattle.wf_semantics.specs.Configuration.{is_in};
ghost use Rattle.wf_semantics.specs.Entry.{default_tree, first_child};
ghost use Rattle.wf_semantics.specs.Picks.{picked_by};

use std::alloc::Global;
use wf_model::{Chart, Kind, List, NoMemory, StateId};

// Whether child `z` of state `p` is in by default where `p` is.
fn is_first(chart: &Chart, p: StateId, z: StateId) -> bool
    requires accepted { IsAccepted chart.now }
    requires child { parent chart.now z.0 ≡ Some p.0 }
    requires later { p.0 < z.0 }
    ensures { result ≡ picked_by (kind chart.now p.0) (first_child chart.now p.0) z.0 }
{
    match chart.kind(p) {
        Kind::Basic => false,
        Kind::And => true,
        Kind::Or => z.0 == p.0 + 1,
    }
}

// Whether child `z` of state `p` is in by default, where the row says whether `p` is.
fn is_child_in(chart: &Chart, row: &[bool], p: StateId, z: StateId) -> bool
    requires accepted { IsAccepted chart.now }
    requires child { parent chart.now z.0 ≡ Some p.0 }
    requires later { p.0 < z.0 }
    requires before { p.0 < length row.now }
    ensures { result ≡ (slice_index_or row.now p.0 false && picked_by (kind chart.now p.0) (first_child chart.now p.0) z.0) }
{
    row[p.0 as usize] && is_first(chart, p, z)
}

// Whether state `z` is in by default, where the row says what of the states before it is.
fn is_default(chart: &Chart, row: &[bool], z: StateId) -> bool
    requires accepted { IsAccepted chart.now }
    requires before { row.now ≡ map (λ s. is_in s (default_tree chart.now 0)) (range_with_len 0 z.0) }
    ensures { result ≡ is_in z.0 (default_tree chart.now 0) }
{
    match chart.parent(z) {
        Some(p) => is_child_in(chart, row, p, z),
        None => z.0 == 0,
    }
}

/// For each state, whether it is in the default tree of the root: what is in before the first step. Grows with the states.
pub fn default_bits(alloc: Global, chart: &Chart) -> Result<List<bool>, NoMemory>
    requires { IsAccepted chart.now }
    ensures { IfOk result (λ bits. bits ≡ map (λ z. is_in z (default_tree chart.now 0)) (all_states chart.now)) }
{
    let mut bits: List<bool> = List::new(alloc);
    for z in 0..chart.states.len() {
        bits.push(is_default(chart, bits.as_slice(), StateId(z as u32)))?;
    }
    Ok(bits)
}

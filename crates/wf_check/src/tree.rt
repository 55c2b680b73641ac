//! Walks up the tree of a chart's states. Each takes at most as many steps as the number of its first state.
ghost use Rattle.std.specs.Prelude.{◌≡◌, length, option_map};
ghost use Rattle.wf_model.specs.Tree as spec;

use wf_model::{Chart, State, StateId};

/// The number of a state's parent, where it has one. In constant time.
pub fn parent(chart: &Chart, s: usize) -> Option<usize>
    ensures { result ≡ spec.parent chart.now s }
{
    match chart.states.get(s) {
        Some(state) => parent_of(state),
        None => None,
    }
}

/// The number of this state's parent, where it has one. In constant time.
pub fn parent_of(state: &State) -> Option<usize>
    ensures { result ≡ spec.parent_of state.now }
{
    match state.parent {
        Some(StateId(p)) => Some(p as usize),
        None => None,
    }
}

/// Whether state `a` is a proper ancestor of state `s`. Linear in the depth of `s` where each parent has a smaller
/// number than its child, and in `s` elsewhere.
#[tactic(auto, using(crate::proofs::Walks::walk_end, crate::proofs::Walks::walk_none, crate::proofs::Walks::walk_some, crate::proofs::Walks::walk_found))]
pub fn is_above(chart: &Chart, a: usize, s: usize) -> bool
    ensures { result ≡ spec.is_above chart.now a s }
{
    let mut at = s;
    for _step in 0..s {
        match parent(chart, at) {
            Some(p) if p == a => return true,
            Some(p) => at = p,
            None => return false,
        }
    }
    false
}

/// How many proper ancestors state `s` has. It grows as `is_above` does.
#[tactic(auto, using(crate::proofs::Walks::walk_end, crate::proofs::Walks::walk_none, crate::proofs::Walks::walk_some))]
pub fn count_ancestors(chart: &Chart, s: usize) -> usize
    ensures { result ≡ length (spec.ancestors chart.now s) }
{
    let mut at = s;
    for count in 0..s {
        match parent(chart, at) {
            Some(p) => at = p,
            None => return count,
        }
    }
    s
}

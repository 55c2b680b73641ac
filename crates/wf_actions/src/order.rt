//! The starts of activities, in the order in which items are numbered.
ghost use Rattle.std.specs.Prelude.{◌≡◌, ℕ, filter, flat_map, IfOk};
ghost use Rattle.std.specs.List.Sorted.{IsSortedByKey};
ghost use Rattle.wf_actions.specs.Order.{place_of, place_cmp, is_at};

use crate::joined::concatenation;
use std::alloc::Global;
use wf_model::{List, NoMemory, StartAt};

/// All starts of the lists, ordered by transition and place. Those of one transition and place stay
/// in the order of the lists. None is left out, also where two are equal.
///
/// In linear-logarithmic time in the number of starts.
pub fn starts(alloc: Global, lists: &[List<StartAt>]) -> Result<List<StartAt>, NoMemory>
    ensures ordered { IfOk result (λ starts. IsSortedByKey place_of place_cmp starts) }
    ensures kept { IfOk result (λ starts. (t place : ℕ) → filter (is_at t place) starts ≡ filter (is_at t place) (flat_map (λ list. list) lists.now)) }
{
    let mut all = concatenation(alloc, lists)?.into_vec();
    all.sort_by_key(|start| (start.trans.0, start.place))?;
    Ok(List::from_vec(all))
}

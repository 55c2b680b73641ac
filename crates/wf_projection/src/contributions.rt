//! What each unit contributes to each step.
ghost use Rattle.std.specs.Prelude.{◌≡◌, ◌≤◌, [], length, map, IfOk, IsTrue};
ghost use Rattle.std.specs.List.{list_all, range_with_len};
ghost use Rattle.wf_model.specs.Limits.{max_steps};
ghost use Rattle.wf_runs.specs.Runs.{IsRun};
ghost use Rattle.wf_parts.specs.Parts.{part_of};
ghost use Rattle.wf_lockstep.specs.Shares.{entries_at, share_of};
ghost use Rattle.wf_lockstep.specs.Ordered.{rises};

use std::alloc::Global;
use wf_flat::lockstep;
use wf_model::{Checked, Entry, List, NoMemory, Update};
use wf_parts::Part;

/// What each unit of the chart contributes to each step of the central run of these lists of entries: its states that go in or out, its
/// writes, the events that it raises, its starts, its transitions that fire, and its outers of the next step. It is worked out by the
/// units' parts, which take in each other's updates. Each entry may come in its place in the central run, the first list is empty,
/// each list is in unit order, and there are no more lists than steps of a run. It refuses only if memory runs out.
///
/// Grows as `lockstep`.
pub fn shares(
    alloc: Global,
    checked: &Checked,
    parts: &[Part],
    outer: &[List<Entry>],
) -> Result<List<List<Update>>, NoMemory>
    requires parts { parts.now ≡ map (part_of checked.now) (range_with_len 0 (length checked.now.units)) }
    requires run { IsRun checked.now outer.now }
    requires first { entries_at outer.now 1 ≡ [] }
    requires order { IsTrue (list_all (rises 0) outer.now) }
    requires steps { length outer.now ≤ max_steps }
    ensures { IfOk result (λ steps. steps ≡ map (λ j. map (λ u. share_of checked.now outer.now u j) (range_with_len 0 (length checked.now.units))) (range_with_len 0 (length outer.now))) }
{
    let chart = checked.chart();
    let holds = parts.len() == chart.units.len();
    prove!(holds);
    lockstep(alloc, parts, outer)
}

//! The numbers of the items that a step starts.
ghost use Rattle.std.specs.Prelude.{◌≡◌, ℕ, ◌+◌, ◌<◌, ◌^◌, length, map, filter, slice_index, IfOk, if◌then◌else◌};
ghost use Rattle.std.specs.Option.{option_map_or};
ghost use Rattle.wf_model.specs.Accepted.{IsAccepted};
ghost use Rattle.wf_semantics.specs.Run.{act_unit, is_at, numbered};
ghost use Rattle.wf_semantics.specs.Admission.{is_act_at};
ghost use Rattle.wf_activities.specs.Stock.{items_in};

use crate::Items;
use std::alloc::Global;
use wf_model::{ActId, Chart, List, NoMemory, StartAt};

// How many items each unit has.
fn lengths(alloc: Global, units: &[Items]) -> Result<Vec<u32>, NoMemory>
    requires { (u : ℕ) → length (items_in units.now u) < 2 ^ 32 }
    ensures { IfOk result (λ counts. counts.items ≡ map (λ i. length i.items) units.now) }
{
    let mut counts = Vec::new(alloc);
    for unit in units {
        counts.push(unit.len() as u32)?;
    }
    Ok(counts)
}

// Counts one item more at the unit of an activity, and gives its number.
fn next_number(chart: &Chart, counts: &mut [u32], act: ActId) -> u32
    requires accepted { IsAccepted chart.now }
    requires units { length counts.old ≡ length chart.now.units }
    requires room { (u : ℕ) → slice_index counts.old u + 1 < 2 ^ 32 }
    ensures number { result ≡ option_map_or (λ u. slice_index counts.old u) (act_unit chart.now act.0) 0 + 1 }
    ensures counted { (u : ℕ) → slice_index counts.new u ≡ (if is_act_at chart.now u act.0 then slice_index counts.old u + 1 else slice_index counts.old u) }
{
    match chart.acts.get(act.0 as usize) {
        Some(activity) => {
            let unit = activity.unit.0 as usize;
            counts[unit] += 1;
            counts[unit]
        }
        None => 1,
    }
}

/// The items that a step starts: each start with the number of its item, and how many items each unit has then.
#[derive(Drop)]
pub struct Numbers {
    pub starts: List<(ActId, u32)>,
    pub lengths: Vec<u32>,
}

/// Numbers the items of these starts. Grows with the units and the starts.
pub fn item_numbers(
    alloc: Global,
    chart: &Chart,
    units: &[Items],
    starts: &[StartAt],
) -> Result<Numbers, NoMemory>
    requires accepted { IsAccepted chart.now }
    requires units { length units.now ≡ length chart.now.units }
    requires room { (u : ℕ) → length (items_in units.now u) + length starts.now < 2 ^ 32 }
    ensures starts { IfOk result (λ n. n.starts ≡ numbered chart.now (λ u. length (items_in units.now u)) starts.now) }
    ensures long { IfOk result (λ n. length n.lengths.items ≡ length units.now) }
    ensures lengths { IfOk result (λ n. (u : ℕ) → slice_index n.lengths.items u ≡ length (items_in units.now u) + length (filter (is_at chart.now u) starts.now)) }
{
    let mut counts = lengths(alloc, units)?;
    let mut numbers = List::new(alloc);
    for start in starts {
        let number = next_number(chart, &mut counts, start.act);
        numbers.push((start.act, number))?;
    }
    Ok(Numbers {
        starts: numbers,
        lengths: counts,
    })
}

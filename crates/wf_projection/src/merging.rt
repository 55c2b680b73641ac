//! The merged list of the units' histories.
ghost use Rattle.std.specs.Prelude.{◌≡◌, ◌+◌, ◌-◌, ◌≤◌, ℕ, All, [], length, map, flat_map, slice_index_or, IfOk};
ghost use Rattle.std.specs.List.{range_with_len};
ghost use Rattle.wf_model.specs.Limits.{max_units};
ghost use Rattle.wf_model.specs.declared.chart.Chart.{Chart};
ghost use Rattle.wf_machine.specs.Machine.{place_of};
ghost use Rattle.wf_histories.specs.Histories.{History as Past};
ghost use Rattle.wf_histories.specs.Agreement.{least_taken};
ghost use Rattle.wf_histories.specs.Laws.{AreLean};
ghost use Rattle.wf_worlds.specs.Growing.{Fits};
ghost use Rattle.wf_projection.specs.Merged.{AreOf, unit_places, AreTurns, merged_places, IsCentralAt};

use std::alloc::Global;
use wf_machine::Place;
use wf_model::{List, NoMemory, UnitId};
use wf_steps::History;

// The least count of Turns, 0 of no unit.
fn least_taken(units: &[List<List<Place>>]) -> usize
    ensures { (h : ℕ → Past) → AreTurns units.now h → result ≡ least_taken (length units.now) h }
{
    let Some(first) = units.first() else {
        return 0;
    };
    let mut least = first.len();
    for turns in units {
        least = least.min(turns.len());
    }
    least
}

// The places of a unit's admissions after so many, up to the last one.
fn places_from(alloc: Global, unit: UnitId, before: u64, last: u64) -> Result<List<Place>, NoMemory>
    requires { before ≤ last }
    ensures { IfOk result (λ places. places ≡ map (place_of unit.0) (range_with_len (before + 1) (last - before))) }
{
    let mut places = List::new(alloc);
    for number in before..last {
        places.push(Place {
            unit,
            number: number + 1,
        })?;
    }
    Ok(places)
}

/// The places of what each Turn of a unit sealed, in order. Its history seals no more than it has. It refuses only if memory runs out.
/// Linear in the admissions and the Turns.
pub fn places_by_turn(
    alloc: Global,
    unit: UnitId,
    history: &History,
) -> Result<List<List<Place>>, NoMemory>
    requires { Fits history.now.past }
    ensures { IfOk result (λ turns. turns ≡ unit_places unit.0 history.now.past) }
{
    let admitted = history.admissions().len() as u64;
    let mut turns = List::new(alloc);
    let mut before = 0;
    for turn in history.turns() {
        let last = before + u64::from(turn.sealed);
        prove!(last <= admitted);
        turns.push(places_from(alloc, unit, before, last)?)?;
        before = last;
    }
    Ok(turns)
}

// The same of each unit.
fn places_by_unit(alloc: Global, histories: &[History]) -> Result<List<List<List<Place>>>, NoMemory>
    requires units { length histories.now ≤ max_units }
    requires fits { All (λ history. Fits history.past) histories.now }
    ensures { (h : ℕ → Past) → AreOf histories.now h → IfOk result (λ units. units ≡ map (λ u. unit_places u (h u)) (range_with_len 0 (length histories.now))) }
{
    let mut units = List::new(alloc);
    for (unit, history) in histories.iter().enumerate() {
        units.push(places_by_turn(alloc, UnitId(unit as u32), history)?)?;
    }
    Ok(units)
}

// What a unit's Turn at this place sealed, nothing where there is none.
fn turn_at(turns: &List<List<Place>>, at: usize) -> &[Place]
    ensures { result.now ≡ slice_index_or turns.now at [] }
{
    match turns.get(at) {
        Some(places) => places.as_slice(),
        None => &[],
    }
}

// What the Turns at this place sealed, in unit order.
fn step_places(
    alloc: Global,
    units: &[List<List<Place>>],
    at: usize,
) -> Result<List<Place>, NoMemory>
    ensures { IfOk result (λ places. places ≡ flat_map (λ turns. slice_index_or turns at []) units.now) }
{
    let mut places = List::new(alloc);
    for turns in units {
        places.append(turn_at(turns, at))?;
    }
    Ok(places)
}

/// The merged list of units, from the places of what each of their Turns sealed, in unit order: for each step, from the first one to two past
/// the least count of Turns, the places of its entries. It refuses only if memory runs out. Linear in the places, and in the steps times the
/// units.
pub fn places_in_order(
    alloc: Global,
    units: &[List<List<Place>>],
) -> Result<List<List<Place>>, NoMemory>
    ensures { (h : ℕ → Past) → AreTurns units.now h → IfOk result (λ steps. steps ≡ merged_places (length units.now) h) }
{
    let mut steps = List::new(alloc);
    steps.push(List::new(alloc))?;
    steps.push(List::new(alloc))?;
    for at in 0..least_taken(units) {
        steps.push(step_places(alloc, units, at)?)?;
    }
    Ok(steps)
}

/// The merged list of the units' histories: for each step, from the first one to two past the least count of steps that a unit has
/// taken, the places of its entries. Those of steps 1 and 2 are none. Those of a step past them are the admissions that each unit's
/// Turn two steps before sealed, in unit order, each with its unit and its number there, counted from 1. There is a history for each
/// unit, in unit order, at most 8, and none seals more than it has, as is so of every history that records made.
///
/// If the histories are those of a chart's units, follow its rules and agree, the entries at these places are a run of the chart, and
/// each unit shows the central state over it. It refuses only if memory runs out.
///
/// Linear in the admissions, and in the steps times the units.
pub fn merged(alloc: Global, histories: &[History]) -> Result<List<List<Place>>, NoMemory>
    requires units { length histories.now ≤ max_units }
    requires fits { All (λ history. Fits history.past) histories.now }
    ensures list { (h : ℕ → Past) → AreOf histories.now h → IfOk result (λ steps. steps ≡ merged_places (length histories.now) h) }
    ensures central { (chart : Chart) (h : ℕ → Past) → AreOf histories.now h → length histories.now ≡ length chart.units → AreLean chart h → IfOk result (IsCentralAt chart h) }
{
    let units = places_by_unit(alloc, histories)?;
    places_in_order(alloc, units.as_slice())
}

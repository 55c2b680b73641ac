//! What was taken in against what was sent.
ghost use Rattle.std.specs.Prelude.{◌≡◌, ◌↔◌, ℕ, All, false, length, map, max, IfOk};
ghost use Rattle.std.specs.Option.{option_map_or};
ghost use Rattle.std.specs.List.{range_with_len};
ghost use Rattle.wf_model.specs.declared.chart.Chart.{Chart};
ghost use Rattle.wf_parts.specs.declared.data.PartData.{PartData};
ghost use Rattle.wf_parts.specs.Parts.{part_of};
ghost use Rattle.wf_histories.specs.Histories.{History as Past, inputs_at};
ghost use Rattle.wf_histories.specs.Agreement.{Agree, lean};
ghost use Rattle.wf_agreement.specs.Same.{same_update};
ghost use Rattle.wf_agreement.specs.Differing.{AreOf, AreMade, read_by, inputs_in, most_taken, sent, first_of, first_difference, told};
ghost use Rattle.wf_agreement.specs.Senders.{HasSender, all_updates, AreSenders};

use crate::Agreement;
use crate::walk::updates_and_next;
use std::alloc::Global;
use wf_model::{Duplicate, List, NoMemory, Same, UnitId, Update};
use wf_parts::Part;
use wf_steps::History;
use wf_updates::relevant;

// The own updates of each unit, that of its next step last.
fn all_updates(
    alloc: Global,
    parts: &[&Part],
    histories: &[&History],
) -> Result<List<List<Update>>, NoMemory>
    requires { AreMade parts.now histories.now }
    ensures same { IfOk result (λ units. length units ≡ length parts.now) }
    ensures units { (part : ℕ → PartData) (h : ℕ → Past) → AreOf parts.now histories.now part h → IfOk result (λ units. units ≡ all_updates (length parts.now) part h) }
{
    let mut units = List::new(alloc);
    for (unit, part) in parts.iter().enumerate() {
        units.push(updates_and_next(alloc, part, histories[unit])?)?;
    }
    Ok(units)
}

fn larger_of(one: usize, other: usize) -> usize
    ensures { result ≡ max one other }
{
    if one < other { other } else { one }
}

// The most steps that a unit took.
fn most_taken(histories: &[&History]) -> usize
    ensures { (h : ℕ → Past) → map (λ lent. lent.now.past) histories.now ≡ map h (range_with_len 0 (length histories.now)) → result ≡ most_taken (length histories.now) h }
{
    let mut most = 0;
    for history in histories {
        most = larger_of(most, history.turns().len());
    }
    most
}

// What the unit's Turn at this place took in, nothing where there is none.
fn inputs_at(history: &History, at: usize) -> &[Update]
    ensures { result.now ≡ inputs_at history.now.past at }
{
    match history.turns().get(at) {
        Some(turn) => turn.inputs.as_slice(),
        None => &[],
    }
}

// What the sender of this input sends the reader for it, nothing if the sender hasn't come so far.
fn sent_update(
    alloc: Global,
    parts: &[&Part],
    units: &[List<Update>],
    reader: UnitId,
    kept: &Update,
) -> Result<Option<Update>, NoMemory>
    requires same { length units.now ≡ length parts.now }
    requires sender { HasSender (length parts.now) kept.now }
    ensures { (part : ℕ → PartData) (h : ℕ → Past) → AreSenders (length parts.now) parts.now units.now part h → IfOk result (λ found. found ≡ sent part h (read_by reader.0 kept.now)) }
{
    let sender = kept.from.0 as usize;
    match units[sender].get(kept.step as usize - 1) {
        Some(update) => Ok(Some(relevant(alloc, update, parts[sender], reader)?)),
        None => Ok(None),
    }
}

// Whether the input is what was sent.
fn is_sent(kept: &Update, sent: &Option<Update>) -> bool
    ensures { result ≡ option_map_or (same_update kept.now) sent.now false }
{
    match sent {
        Some(update) => kept.is_same(update),
        None => false,
    }
}

// The first of these inputs of a reader that isn't what was sent.
fn first_in_turn(
    alloc: Global,
    parts: &[&Part],
    units: &[List<Update>],
    reader: UnitId,
    inputs: &[Update],
) -> Result<Agreement, NoMemory>
    requires same { length units.now ≡ length parts.now }
    requires senders { All (HasSender (length parts.now)) inputs.now }
    ensures { (part : ℕ → PartData) (h : ℕ → Past) → AreSenders (length parts.now) parts.now units.now part h → IfOk result (λ found. found ≡ told part h (first_of part h (map (read_by reader.0) inputs.now))) }
{
    for kept in inputs {
        let given = sent_update(alloc, parts, units, reader, kept)?;
        if !is_sent(kept, &given) {
            return Ok(Agreement::Differ {
                reader,
                step: kept.step,
                sender: kept.from,
                kept: kept.copy(alloc)?,
                sent: given,
            });
        }
    }
    Ok(Agreement::Agree)
}

// The first of the inputs of the step after so many that isn't what was sent.
fn first_in_step(
    alloc: Global,
    parts: &[&Part],
    histories: &[&History],
    units: &[List<Update>],
    at: usize,
) -> Result<Agreement, NoMemory>
    requires made { AreMade parts.now histories.now }
    requires same { length units.now ≡ length parts.now }
    ensures { (part : ℕ → PartData) (h : ℕ → Past) → AreOf parts.now histories.now part h → AreSenders (length parts.now) parts.now units.now part h → IfOk result (λ found. found ≡ told part h (first_of part h (inputs_in (length parts.now) h at))) }
{
    for (unit, part) in parts.iter().enumerate() {
        let reader = part.data().unit;
        let inputs = inputs_at(histories[unit], at);
        let found = first_in_turn(alloc, parts, units, reader, inputs)?;
        match found {
            Agreement::Agree => {}
            differ => return Ok(differ),
        }
    }
    Ok(Agreement::Agree)
}

/// Whether the histories of all units of a chart agree: each update that a unit's Turn took in is the one that its sender made of that
/// step, cut to what the reader knows. `Differ` names the first one that isn't, in order of step, then reader, then sender. The parts
/// are those of all units of one chart, in unit order. Each history is of the part at its place, and records made it, each of which
/// may follow those before it. A server lends both. It refuses only if memory runs out.
///
/// Linear in the histories: each Turn takes its unit's part and view once, with what it took in and sealed, and each update that was
/// taken in is cut and compared once. While it runs it holds the own updates of all units.
pub fn agree(alloc: Global, parts: &[&Part], histories: &[&History]) -> Result<Agreement, NoMemory>
    requires { AreMade parts.now histories.now }
    ensures first { (part : ℕ → PartData) (h : ℕ → Past) → AreOf parts.now histories.now part h → IfOk result (λ found. found ≡ told part h (first_difference (length parts.now) part h)) }
    ensures agree { (chart : Chart) (h : ℕ → Past) → AreOf parts.now histories.now (part_of chart) h → length parts.now ≡ length chart.units → IfOk result (λ found. (found ≡ Agreement.Agree) ↔ Agree (lean chart) (length chart.units) (part_of chart) h) }
{
    let units = all_updates(alloc, parts, histories)?;
    for at in 0..most_taken(histories) {
        let found = first_in_step(alloc, parts, histories, units.as_slice(), at)?;
        match found {
            Agreement::Agree => {}
            differ => return Ok(differ),
        }
    }
    Ok(Agreement::Agree)
}

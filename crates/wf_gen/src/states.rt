//! The states of the generated chart.
ghost use Rattle.std.specs.Prelude.{◌≡◌, ◌≤◌, ◌<◌, ◌++◌, ◌∷◌, [], map, IfOk, OnOk};
ghost use Rattle.wf_model.specs.Ids.{state_id};
ghost use Rattle.std.specs.List.{range_with_len};
ghost use Rattle.wf_gen.specs.GenChart as spec;

use std::alloc::Global;
use wf_model::{Bytes, Kind, List, Name, NoMemory, State, StateId, UnitId};
use wf_words::append_number;

// How many groups there are.
const GROUPS: u32 = 6;

fn group_name(alloc: Global, r: u32) -> Result<Bytes, NoMemory>
    ensures { IfOk result (λ name. name ≡ spec.group_name r) }
{
    let mut name = List::from_slice(alloc, b"G")?;
    append_number(&mut name, r as u64)?;
    Ok(name)
}

fn basic_name(alloc: Global, r: u32, j: u32) -> Result<Bytes, NoMemory>
    ensures { IfOk result (λ name. name ≡ spec.basic_name r j) }
{
    let mut name = group_name(alloc, r)?;
    name.append(b"S")?;
    append_number(&mut name, j as u64)?;
    Ok(name)
}

/// The number of basic state `j` of group `r`. Takes no memory.
pub fn basic_id(r: u32, j: u32) -> StateId
    requires group { r < 6 }
    requires place { j < 4 }
    ensures { result ≡ spec.basic_id r j }
{
    StateId(5 * r + 3 + j)
}

fn group_unit(r: u32) -> UnitId
    ensures { result ≡ spec.group_unit r }
{
    UnitId(r % 3)
}

fn state(
    alloc: Global,
    name: &[u8],
    kind: Kind,
    parent: Option<StateId>,
    unit: UnitId,
) -> Result<State, NoMemory>
    ensures { IfOk result (λ made. made ≡ spec.state name.now kind parent unit) }
{
    Ok(State {
        name: Name::new(alloc, name)?,
        kind,
        parent,
        unit,
    })
}

// The Or state of a group.
fn group_state(alloc: Global, r: u32) -> Result<State, NoMemory>
    ensures { IfOk result (λ made. made ≡ spec.state (spec.group_name r) Kind.Or (Some (state_id 1)) (spec.group_unit r)) }
{
    let name = group_name(alloc, r)?;
    state(
        alloc,
        name.as_slice(),
        Kind::Or,
        Some(StateId(1)),
        group_unit(r),
    )
}

fn basic_state(alloc: Global, r: u32, j: u32) -> Result<State, NoMemory>
    requires { r < 6 }
    ensures { IfOk result (λ made. made ≡ spec.basic_state r j) }
{
    let name = basic_name(alloc, r, j)?;
    let parent = Some(StateId(5 * r + 2));
    state(alloc, name.as_slice(), Kind::Basic, parent, group_unit(r))
}

fn append_basics(alloc: Global, states: &mut List<State>, r: u32) -> Result<(), NoMemory>
    requires { r < 6 }
    ensures { OnOk result (states.new ≡ states.old ++ map (spec.basic_state r) (range_with_len 0 4)) }
{
    for j in 0..4 {
        states.push(basic_state(alloc, r, j)?)?;
    }
    Ok(())
}

fn append_group(alloc: Global, states: &mut List<State>, r: u32) -> Result<(), NoMemory>
    requires { r < 6 }
    ensures { OnOk result (states.new ≡ states.old ++ spec.group r) }
{
    states.push(group_state(alloc, r)?)?;
    append_basics(alloc, states, r)
}

fn append_groups(alloc: Global, states: &mut List<State>, count: u32) -> Result<(), NoMemory>
    requires { count ≤ 6 }
    ensures { OnOk result (states.new ≡ states.old ++ spec.groups count) }
{
    for r in 0..count {
        append_group(alloc, states, r)?;
    }
    Ok(())
}

/// All states.
#[tactic(auto, unfolding(crate::specs::GenChart::states))]
pub fn states(alloc: Global) -> Result<List<State>, NoMemory>
    ensures { IfOk result (λ states. states ≡ spec.states) }
{
    let mut states = List::new(alloc);
    states.push(state(alloc, b"R", Kind::Or, None, UnitId(0))?)?;
    states.push(state(alloc, b"A", Kind::And, Some(StateId(0)), UnitId(0))?)?;
    append_groups(alloc, &mut states, GROUPS)?;
    Ok(states)
}

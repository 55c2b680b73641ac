//! What guards and assigned values read.
ghost use Rattle.std.specs.Prelude.{◌≡◌, ◌==◌, map, false, slice_index_or, IfOk};
ghost use Rattle.std.specs.List.{list_any, range_with_len};
ghost use Rattle.wf_model.specs.Tree.{all_transitions};
ghost use Rattle.wf_parts.specs.Reads.{guard_reads, action_reads};
ghost use Rattle.wf_parts.specs.Known.{concerns, is_state_of, is_read};
ghost use Rattle.wf_partition.specs.Marked.{marked, Adds, AreReads};

use std::alloc::Global;
use wf_model::{Action, Chart, Expr, List, NoMemory, StateId, Transition, UnitId};

/// Bits for the states, variables and activities of a chart: which are read.
#[derive(Drop)]
pub struct Reads {
    pub states: List<bool>,
    pub vars: List<bool>,
    pub acts: List<bool>,
}

/// So many bits, none of them set. Grows with them.
pub fn none_set(alloc: Global, len: usize) -> Result<List<bool>, NoMemory>
    ensures { IfOk result (λ bits. bits ≡ map (λ k. false) (range_with_len 0 len)) }
{
    let mut bits = List::new(alloc);
    for _k in 0..len {
        bits.push(false)?;
    }
    Ok(bits)
}

/// The bit of a number, and no where it has none. In constant time.
pub fn is_set(bits: &[bool], at: usize) -> bool
    ensures { result ≡ slice_index_or bits.now at false }
{
    match bits.get(at) {
        Some(bit) => *bit,
        None => false,
    }
}

/// Sets the bit of a number, if it has one. In constant time.
#[tactic(auto, using(crate::proofs::Bits::marked_one, crate::proofs::Bits::marked_past))]
pub fn mark(bits: &mut List<bool>, at: u32)
    ensures { bits.new ≡ marked (λ k. at == k) bits.old }
{
    if (at as usize) < bits.len() {
        bits.set(at as usize, true);
    }
}

/// Whether a state is one of the unit.
pub fn is_state_of(chart: &Chart, unit: UnitId, s: StateId) -> bool
    ensures { result ≡ is_state_of chart.now unit.0 s.0 }
{
    match chart.states.get(s.0 as usize) {
        Some(state) => state.unit.0 == unit.0,
        None => false,
    }
}

// Adds what an expression reads. Grows with the expression.
fn add_expr(reads: &mut Reads, expr: &Expr)
    ensures { Adds (λ r. r expr.now) reads.old reads.new }
{
    match expr {
        Expr::Bool(_) => {}
        Expr::Int(_) => {}
        Expr::Text(_) => {}
        Expr::In(s) => mark(&mut reads.states, s.0),
        Expr::Var(x) => mark(&mut reads.vars, x.0),
        Expr::Count(a) => mark(&mut reads.acts, a.0),
        Expr::Done(a) => mark(&mut reads.acts, a.0),
        Expr::Not(x) => add_expr(reads, x.get()),
        Expr::Neg(x) => add_expr(reads, x.get()),
        Expr::Bin(_, left, right) => {
            add_expr(reads, left.get());
            add_expr(reads, right.get());
        }
    }
}

// Adds what a guard reads.
fn add_guard(reads: &mut Reads, transition: &Transition)
    ensures { Adds (λ r. guard_reads r transition.now) reads.old reads.new }
{
    match &transition.guard {
        Some(guard) => add_expr(reads, guard),
        None => {}
    }
}

// Adds what an action reads.
fn add_action(reads: &mut Reads, action: &Action)
    ensures { Adds (λ r. action_reads r action.now) reads.old reads.new }
{
    match action {
        Action::Assign(_, value) => add_expr(reads, value),
        Action::Raise(_) => {}
        Action::Start(_) => {}
    }
}

// Adds what actions read.
fn add_actions(reads: &mut Reads, actions: &[Action])
    ensures { Adds (λ r. list_any (action_reads r) actions.now) reads.old reads.new }
{
    for action in actions {
        add_action(reads, action);
    }
}

// Nothing is read.
fn nothing_read(alloc: Global, chart: &Chart) -> Result<Reads, NoMemory>
    ensures { IfOk result (λ reads. AreReads chart.now (λ r. false) reads) }
{
    let states = none_set(alloc, chart.states.len())?;
    let vars = none_set(alloc, chart.vars.len())?;
    let acts = none_set(alloc, chart.acts.len())?;
    Ok(Reads { states, vars, acts })
}

/// What the guards of the transitions that concern a unit read, and the values that its own ones assign. Grows with the states, variables
/// and activities, and with the transitions and their expressions.
pub fn read_by(
    alloc: Global,
    chart: &Chart,
    concerned: &[bool],
    unit: UnitId,
) -> Result<Reads, NoMemory>
    requires { concerned.now ≡ map (concerns chart.now unit.0) (all_transitions chart.now) }
    ensures { IfOk result (λ reads. AreReads chart.now (is_read chart.now unit.0) reads) }
{
    let mut reads = nothing_read(alloc, chart)?;
    for (t, transition) in chart.transitions.as_slice().iter().enumerate() {
        if is_set(concerned, t) {
            add_guard(&mut reads, transition);
        }
        if is_state_of(chart, unit, transition.source) {
            add_actions(&mut reads, transition.actions.as_slice());
        }
    }
    Ok(reads)
}

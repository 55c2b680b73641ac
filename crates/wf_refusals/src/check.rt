//! Why a chart isn't accepted.
ghost use Rattle.std.specs.Prelude.{◌≡◌, ◌++◌, IfOk, OnOk};
ghost use Rattle.std.specs.Fmt.{decimal};
ghost use lib.Chars.{codes};
ghost use Rattle.wf_refusals.specs.CheckFaults as spec;

use std::alloc::Global;
use wf_check::{CheckFault, TypePlace, What};
use wf_model::{Bytes, Chart, List, NoMemory, TransId};
use wf_words::{act_name, append_number, state_name, var_name};

#[tactic(auto, unfolding(crate::specs::CheckFaults::what_word))]
fn what_word(what: What) -> &'static [u8]
    ensures { result.now ≡ spec.what_word what }
{
    match what {
        What::Units => b"units",
        What::Events => b"events",
        What::Vars => b"vars",
        What::Activities => b"activities",
        What::States => b"states",
        What::Transitions => b"transitions",
        What::Actions => b"actions",
        What::Outputs => b"outputs",
        What::Nodes => b"nodes",
        What::Chart => b"chart",
    }
}

// Appends the line of a rule: what stands before a name, the name, and what stands behind it.
fn append_named(text: &mut Bytes, before: &[u8], name: &[u8], behind: &[u8]) -> Result<(), NoMemory>
    ensures { OnOk result (text.new ≡ text.old ++ spec.check_line (before.now ++ name.now ++ behind.now)) }
{
    text.append(b"refused check ")?;
    text.append(before)?;
    text.append(name)?;
    text.append(behind)?;
    text.append(b"\n")
}

// Appends the line of a rule on parts of this kind.
fn append_kind(text: &mut Bytes, rule: &[u8], what: What) -> Result<(), NoMemory>
    ensures { OnOk result (text.new ≡ text.old ++ spec.check_line (rule.now ++ spec.what_word what)) }
{
    text.append(b"refused check ")?;
    text.append(rule)?;
    text.append(what_word(what))?;
    text.append(b"\n")
}

fn append_numbered(text: &mut Bytes, what: What, at: u32) -> Result<(), NoMemory>
    ensures { OnOk result (text.new ≡ text.old ++ spec.what_word what ++ codes " " ++ decimal at) }
{
    text.append(what_word(what))?;
    text.append(b" ")?;
    append_number(text, at.into())
}

// Appends the line of a rule on the part of this kind and number.
fn append_part(text: &mut Bytes, rule: &[u8], what: What, at: u32) -> Result<(), NoMemory>
    ensures { OnOk result (text.new ≡ text.old ++ spec.check_line (rule.now ++ spec.what_word what ++ codes " " ++ decimal at)) }
{
    text.append(b"refused check ")?;
    text.append(rule)?;
    append_numbered(text, what, at)?;
    text.append(b"\n")
}

// Appends the line of a rule on a transition.
fn append_transition(
    text: &mut Bytes,
    before: &[u8],
    t: TransId,
    behind: &[u8],
) -> Result<(), NoMemory>
    ensures { OnOk result (text.new ≡ text.old ++ spec.check_line (before.now ++ decimal t.0 ++ behind.now)) }
{
    text.append(b"refused check ")?;
    text.append(before)?;
    append_number(text, t.0.into())?;
    text.append(behind)?;
    text.append(b"\n")
}

// Appends the line of an action that assigns a value of another sort.
fn append_action(text: &mut Bytes, t: TransId, place: u8) -> Result<(), NoMemory>
    ensures { OnOk result (text.new ≡ text.old ++ spec.check_line (codes "type in t" ++ decimal t.0 ++ codes " action " ++ decimal place)) }
{
    text.append(b"refused check type in t")?;
    append_number(text, t.0.into())?;
    text.append(b" action ")?;
    append_number(text, place.into())?;
    text.append(b"\n")
}

// Appends the line of a value of another sort.
fn append_type(text: &mut Bytes, chart: &Chart, place: TypePlace) -> Result<(), NoMemory>
    ensures { OnOk result (text.new ≡ text.old ++ spec.check_line (codes "type in " ++ spec.place_words chart.now place)) }
{
    match place {
        TypePlace::Var(x) => append_named(text, b"type in var ", var_name(chart, x), b""),
        TypePlace::Guard(t) => append_transition(text, b"type in t", t, b" guard"),
        TypePlace::Act(t, place) => append_action(text, t, place),
    }
}

#[tactic(auto, unfolding(crate::specs::CheckFaults::check_fault_line))]
fn append_check_fault(text: &mut Bytes, chart: &Chart, fault: CheckFault) -> Result<(), NoMemory>
    ensures { OnOk result (text.new ≡ text.old ++ spec.check_fault_line chart.now fault) }
{
    match fault {
        CheckFault::TooMany { what } => append_kind(text, b"too many ", what),
        CheckFault::BadId { what, at } => append_part(text, b"bad id ", what, at),
        CheckFault::BadName { what, at } => append_part(text, b"bad name ", what, at),
        CheckFault::NoRoot => append_named(text, b"no root", b"", b""),
        CheckFault::RootNotOr => append_named(text, b"root is not or", b"", b""),
        CheckFault::TooDeep { state } => {
            append_named(text, b"state ", state_name(chart, state), b" is too deep")
        }
        CheckFault::EmptyOr { state } => {
            append_named(text, b"or ", state_name(chart, state), b" is empty")
        }
        CheckFault::EmptyAnd { state } => {
            append_named(text, b"and ", state_name(chart, state), b" is empty")
        }
        CheckFault::BasicWithChildren { state } => {
            append_named(text, b"basic ", state_name(chart, state), b" has children")
        }
        CheckFault::BadType { place } => append_type(text, chart, place),
        CheckFault::BadOutput { act } => {
            append_named(text, b"outputs of ", act_name(chart, act), b"")
        }
        CheckFault::SourceRoot { t } => append_transition(text, b"t", t, b" leaves the root"),
        CheckFault::TargetRoot { t } => append_transition(text, b"t", t, b" enters the root"),
        CheckFault::NoMemory => Ok(()),
    }
}

/// The line of the rule that a chart breaks, with the names that it has there. Of want of memory there is no line: it is
/// empty then.
pub fn check_fault_line(alloc: Global, chart: &Chart, fault: CheckFault) -> Result<Bytes, NoMemory>
    ensures { IfOk result (λ line. line ≡ spec.check_fault_line chart.now fault) }
{
    let mut line = List::new(alloc);
    append_check_fault(&mut line, chart, fault)?;
    Ok(line)
}

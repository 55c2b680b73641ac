//! The lines of a host's script by their tokens: one function for each form.
ghost use Rattle.std.specs.Prelude.{◌≡◌, ◌≤◌, ◌<◌, ◌∷◌, IfOk, IfSome};
ghost use Rattle.wf_scripts.specs.Finders.{finder_of};
ghost use Rattle.wf_scripts.specs.Outers.{done_of};
ghost use Rattle.wf_job.specs.Lines as spec;

use crate::job::{ClientLine, WorkerLine};
use std::alloc::Global;
use wf_lex::Token;
use wf_model::limits::{MAX_CLIENTS, MAX_GOAL, MAX_WORKERS};
use wf_model::{EventId, List, NoMemory, Outer, UnitId};
use wf_play::count_at;
use wf_scripts::{Grammar, Names, outer_of, text_at};

/// What a line of a host's script says.
#[derive(Drop)]
pub enum HostLine {
    /// A client brings an event.
    Client(ClientLine),
    /// There is a worker.
    Worker(WorkerLine),
    /// So many steps are to follow.
    Goal(u32),
}

fn goal_line(word: &[u8], goal: Option<u32>) -> Option<HostLine>
    ensures { result ≡ spec.goal_line word.now goal }
{
    if word == b"goal".as_slice() {
        Some(HostLine::Goal(goal?))
    } else {
        None
    }
}

fn bringing(client: Option<u32>, unit: Option<u32>, event: Option<u32>) -> Option<HostLine>
    ensures { result ≡ spec.bringing client unit event }
{
    Some(HostLine::Client(ClientLine {
        client: client?,
        unit: UnitId(unit?),
        event: EventId(event?),
    }))
}

// The line `client C at U event E`, if it goes on so behind `client`, and nothing stands behind it.
fn client_line(
    names: &Names,
    line: &[u8],
    number: &Token,
    unit: &Token,
    kind: &Token,
    event: &Token,
    more: &[Token],
) -> Option<HostLine>
    ensures { result ≡ spec.client_line (finder_of names.now) line.now number.now unit.now kind.now event.now more.now }
{
    if !more.is_empty() || text_at(line, kind) != b"event".as_slice() {
        return None;
    }
    bringing(
        count_at(MAX_CLIENTS as u64, line, number),
        names.unit(text_at(line, unit)),
        names.event(text_at(line, event)),
    )
}

fn working(worker: Option<u32>, unit: Option<u32>, done: Option<Outer>) -> Option<HostLine>
    ensures { result ≡ spec.working worker unit done }
{
    match done? {
        Outer::Happen(_) => None,
        Outer::Complete { act, outputs, .. } => Some(HostLine::Worker(WorkerLine {
            worker: worker?,
            unit: UnitId(unit?),
            act,
            outputs,
        })),
    }
}

// What the tokens `A N [ gives .. ]` complete, where the first two don't stand before the others.
#[tactic(auto, unfolding(wf_scripts::specs::Outers::outer_of))]
fn done_by(
    alloc: Global,
    names: &Names,
    line: &[u8],
    act: Token,
    number: Token,
    gives: &[Token],
) -> Result<Option<Outer>, NoMemory>
    ensures { IfOk result (λ done. done ≡ done_of (finder_of names.now) line.now (act ∷ number ∷ gives.now)) }
{
    let mut tokens = List::new(alloc);
    tokens.push(act)?;
    tokens.push(number)?;
    tokens.append(gives)?;
    outer_of(alloc, names, line, b"done", tokens.as_slice())
}

// The line `worker W at U does A [ gives .. ]`, if it goes on so behind `worker`.
fn worker_line(
    alloc: Global,
    names: &Names,
    line: &[u8],
    number: &Token,
    unit: &Token,
    kind: &Token,
    act: &Token,
    gives: &[Token],
) -> Result<Option<HostLine>, NoMemory>
    ensures { IfOk result (λ found. found ≡ spec.worker_line (finder_of names.now) line.now number.now unit.now kind.now act.now gives.now) }
{
    if text_at(line, kind) != b"does".as_slice() {
        return Ok(None);
    }
    let done = done_by(alloc, names, line, *act, *number, gives)?;
    let worker = count_at(MAX_WORKERS as u64, line, number);
    Ok(working(worker, names.unit(text_at(line, unit)), done))
}

// The line of a client or of a worker, if these tokens are one.
fn longer_line(
    alloc: Global,
    names: &Names,
    line: &[u8],
    word: &Token,
    number: &Token,
    unit: &Token,
    kind: &Token,
    name: &Token,
    more: &[Token],
) -> Result<Option<HostLine>, NoMemory>
    ensures { IfOk result (λ found. found ≡ spec.longer_line (finder_of names.now) line.now word.now number.now unit.now kind.now name.now more.now) }
{
    if text_at(line, word) == b"client".as_slice() {
        Ok(client_line(names, line, number, unit, kind, name, more))
    } else if text_at(line, word) == b"worker".as_slice() {
        worker_line(alloc, names, line, number, unit, kind, name, more)
    } else {
        Ok(None)
    }
}

/// The lines of a host's script.
pub struct HostLines;

impl Grammar for HostLines {
    type Line = HostLine;

    ghost use Rattle.wf_job.specs.Lines.{said_by};

    ghost says = { said_by };

    #[tactic(auto, unfolding(crate::specs::Lines::said_by))]
    fn said_by(
        alloc: Global,
        names: &Names,
        line: &[u8],
        tokens: &[Token],
    ) -> Result<Option<Option<HostLine>>, NoMemory> {
        match tokens {
            [] => Ok(Some(None)),
            [word, number] => {
                let goal = count_at(MAX_GOAL as u64, line, number);
                Ok(goal_line(text_at(line, word), goal).map(Some))
            }
            [word, number, at, unit, kind, name, more @ ..] => {
                if text_at(line, at) == b"at".as_slice() {
                    let found = longer_line(
                        alloc, names, line, word, number, unit, kind, name, more,
                    )?;
                    Ok(found.map(Some))
                } else {
                    Ok(None)
                }
            }
            _ => Ok(None),
        }
    }
}

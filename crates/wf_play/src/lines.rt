//! The lines of a play by their tokens: one function for each form.
ghost use Rattle.std.specs.Prelude.{◌≡◌, ◌≤◌, ◌<◌, IfOk, IfSome};
ghost use Rattle.std.specs.Option.{option_map};
ghost use Rattle.wf_disk.specs.declared.arm.Arm.TheVariants as arms;
ghost use Rattle.wf_machine.specs.declared.line.Line.TheVariants as lines;
ghost use Rattle.wf_scripts.specs.Finders.{finder_of};
ghost use Rattle.wf_play.specs.Lines as spec;

use std::alloc::Global;
use wf_disk::{Arm, Outcome};
use wf_lex::Token;
use wf_machine::Line;
use wf_model::limits::MAX_INT;
use wf_model::{NoMemory, Outer, UnitId};
use wf_scripts::{Grammar, Names, int_at, outer_of, text_at};

// How many strokes ahead an arm may be set.
const MAX_STROKE: u64 = 1000;

fn outcome_named(word: &[u8]) -> Option<Outcome>
    ensures { result ≡ spec.outcome_named word.now }
{
    if word == b"keep".as_slice() {
        Some(Outcome::Keep)
    } else if word == b"lose".as_slice() {
        Some(Outcome::Lose)
    } else if word == b"torn".as_slice() {
        Some(Outcome::Torn)
    } else {
        None
    }
}

fn positive_count(number: Option<u64>) -> Option<u32>
    requires { IfSome number (λ n. n ≤ u32.MAX) }
    ensures { result ≡ spec.positive_count number }
{
    match number {
        None | Some(0) => None,
        Some(n) => Some(n as u32),
    }
}

/// The number of an Int token of a line, if it is from 1 to `most`; else, and where the token isn't one, nothing. It takes no memory. In
/// linear time in the token.
pub fn count_at(most: u64, line: &[u8], token: &Token) -> Option<u32>
    requires { most ≤ u32.MAX }
    ensures { result ≡ spec.count_at most line.now token.now }
{
    positive_count(int_at(most, line, token))
}

fn command(word: &[u8]) -> Option<Line>
    ensures { result ≡ spec.command word.now }
{
    if word == b"round".as_slice() {
        Some(Line::Round)
    } else {
        None
    }
}

fn unit_line(word: &[u8], unit: Option<u32>) -> Option<Line>
    ensures { result ≡ spec.unit_line word.now unit }
{
    let unit = UnitId(unit?);
    if word == b"turn".as_slice() {
        Some(Line::Turn { unit })
    } else if word == b"recover".as_slice() {
        Some(Line::Recover { unit })
    } else if word == b"show".as_slice() {
        Some(Line::Show { unit })
    } else if word == b"items".as_slice() {
        Some(Line::Items { unit })
    } else {
        None
    }
}

fn deliver_line(message: Option<u32>) -> Option<Line>
    ensures { result ≡ option_map (λ m. lines.Deliver m) message }
{
    Some(Line::Deliver { message: message? })
}

// The line `deliver M`, or one of a unit, if these tokens are one.
fn two_words(names: &Names, line: &[u8], word: &Token, other: &Token) -> Option<Line>
    ensures { result ≡ spec.two_words (finder_of names.now) line.now word.now other.now }
{
    if text_at(line, word) == b"deliver".as_slice() {
        deliver_line(count_at(u32::MAX.into(), line, other))
    } else {
        unit_line(text_at(line, word), names.unit(text_at(line, other)))
    }
}

fn send_line(from: Option<u32>, to: Option<u32>) -> Option<Line>
    ensures { result ≡ spec.send_line from to }
{
    let (from, to) = (from?, to?);
    if from == to {
        None
    } else {
        Some(Line::Send {
            from: UnitId(from),
            to: UnitId(to),
        })
    }
}

fn crash_line(unit: Option<u32>, outcome: Option<Outcome>) -> Option<Line>
    ensures { result ≡ spec.crash_line unit outcome }
{
    Some(Line::Crash {
        unit: UnitId(unit?),
        outcome: outcome?,
    })
}

// The line `send U V` or `crash U OUTCOME`, if these tokens are one.
fn three_words(
    names: &Names,
    line: &[u8],
    word: &Token,
    unit: &Token,
    other: &Token,
) -> Option<Line>
    ensures { result ≡ spec.three_words (finder_of names.now) line.now word.now unit.now other.now }
{
    if text_at(line, word) == b"send".as_slice() {
        send_line(
            names.unit(text_at(line, unit)),
            names.unit(text_at(line, other)),
        )
    } else if text_at(line, word) == b"crash".as_slice() {
        crash_line(
            names.unit(text_at(line, unit)),
            outcome_named(text_at(line, other)),
        )
    } else {
        None
    }
}

fn admit_line(unit: Option<u32>, request: Option<u64>, outer: Option<Outer>) -> Option<Line>
    ensures { result ≡ spec.admit_line unit request outer }
{
    Some(Line::Admit {
        unit: UnitId(unit?),
        request: request?,
        outer: outer?,
    })
}

fn crash_arm(outcome: Option<Outcome>) -> Option<Arm>
    ensures { result ≡ option_map (λ o. arms.Crash o) outcome }
{
    Some(Arm::Crash(outcome?))
}

// The arm `fail` or `crash OUTCOME`, if these are one.
fn arm_of(line: &[u8], kind: &[u8], tokens: &[Token]) -> Option<Arm>
    ensures { result ≡ spec.arm_of line.now kind.now tokens.now }
{
    match tokens {
        [] => {
            if kind == b"fail".as_slice() {
                Some(Arm::Fail)
            } else {
                None
            }
        }
        [outcome] => {
            if kind == b"crash".as_slice() {
                crash_arm(outcome_named(text_at(line, outcome)))
            } else {
                None
            }
        }
        _ => None,
    }
}

fn arm_line(unit: Option<u32>, stroke: Option<u32>, what: Option<Arm>) -> Option<Line>
    ensures { result ≡ spec.arm_line unit stroke what }
{
    Some(Line::Arm {
        unit: UnitId(unit?),
        stroke: stroke?,
        what: what?,
    })
}

// The line `admit U R OUTER` or `arm U N ARM`, if these tokens are one.
fn more_words(
    alloc: Global,
    names: &Names,
    line: &[u8],
    word: &Token,
    unit: &Token,
    number: &Token,
    kind: &Token,
    tokens: &[Token],
) -> Result<Option<Line>, NoMemory>
    ensures { IfOk result (λ found. found ≡ spec.more_words (finder_of names.now) line.now word.now unit.now number.now kind.now tokens.now) }
{
    let unit = names.unit(text_at(line, unit));
    if text_at(line, word) == b"admit".as_slice() {
        let outer = outer_of(alloc, names, line, text_at(line, kind), tokens)?;
        Ok(admit_line(unit, int_at(MAX_INT, line, number), outer))
    } else if text_at(line, word) == b"arm".as_slice() {
        let what = arm_of(line, text_at(line, kind), tokens);
        Ok(arm_line(unit, count_at(MAX_STROKE, line, number), what))
    } else {
        Ok(None)
    }
}

/// The lines of a script of a play.
pub struct PlayLines;

impl Grammar for PlayLines {
    type Line = Line;

    ghost use Rattle.wf_play.specs.Lines.{said_by};

    ghost says = { said_by };

    #[tactic(auto, unfolding(crate::specs::Lines::said_by))]
    fn said_by(
        alloc: Global,
        names: &Names,
        line: &[u8],
        tokens: &[Token],
    ) -> Result<Option<Option<Line>>, NoMemory> {
        match tokens {
            [] => Ok(Some(None)),
            [word] => Ok(command(text_at(line, word)).map(Some)),
            [word, other] => Ok(two_words(names, line, word, other).map(Some)),
            [word, unit, other] => Ok(three_words(names, line, word, unit, other).map(Some)),
            [word, unit, number, kind, tokens @ ..] => {
                Ok(more_words(alloc, names, line, word, unit, number, kind, tokens)?.map(Some))
            }
        }
    }
}

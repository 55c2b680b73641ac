//! The outers of a script.
ghost use Rattle.std.specs.Prelude.{◌≡◌, ◌≤◌, length, drop, IfOk, IfSome};
ghost use Rattle.wf_scripts.specs.Finders.{finder_of};
ghost use Rattle.wf_scripts.specs.Outers as spec;

use crate::names::Names;
use crate::values::{int_at, text_at, value_of};
use std::alloc::Global;
use wf_lex::Token;
use wf_model::{ActId, EventId, List, NoMemory, Outer, Output, Val, VarId};

// Adds the value for the variable, where there are both. Tells whether there are.
fn add_given(
    outputs: &mut List<Output>,
    x: Option<u32>,
    value: Option<Val>,
) -> Result<bool, NoMemory>
    ensures { IfOk result (λ added. spec.IsAdded (spec.given x value) added outputs.old outputs.new) }
{
    match (x, value) {
        (Some(x), Some(val)) => {
            outputs.push(Output { var: VarId(x), val })?;
            Ok(true)
        }
        _ => Ok(false),
    }
}

// Adds the output `x = value`, if these tokens are one. Tells whether they are.
#[tactic(auto, unfolding(crate::specs::Outers::output_of))]
fn add_output(
    outputs: &mut List<Output>,
    names: &Names,
    line: &[u8],
    tokens: &[Token],
) -> Result<bool, NoMemory>
    ensures { IfOk result (λ added. spec.IsAdded (spec.output_of (finder_of names.now) line.now tokens.now) added outputs.old outputs.new) }
{
    match tokens {
        [x, equals, value @ ..] => {
            if text_at(line, equals) == b"=".as_slice() {
                add_given(outputs, names.var(text_at(line, x)), value_of(line, value))
            } else {
                Ok(false)
            }
        }
        _ => Ok(false),
    }
}

fn is_comma(line: &[u8], token: &Token) -> bool
    ensures { result ≡ spec.is_comma line.now token.now }
{
    text_at(line, token) == b",".as_slice()
}

// How many tokens stand before the first comma.
fn group_len(line: &[u8], tokens: &[Token]) -> usize
    ensures exact { result ≡ length (spec.first_group line.now tokens.now) }
    ensures within { result ≤ length tokens.now }
{
    tokens
        .iter()
        .take_while(|token| !is_comma(line, token))
        .count()
}

// The tokens before the first comma, and those from it on.
#[tactic(auto, using(crate::proofs::Commas::first_group_front))]
fn split_group<'a>(line: &[u8], tokens: &'a [Token]) -> (&'a [Token], &'a [Token])
    ensures group { result.0.now ≡ spec.first_group line.now tokens.now }
    ensures behind { result.1.now ≡ drop (length (spec.first_group line.now tokens.now)) tokens.now }
{
    let len = group_len(line, tokens);
    (&tokens[..len], &tokens[len..])
}

// The outputs `x = value { , x = value }`, if these tokens are such.
#[tactic(auto, unfolding(crate::specs::Outers::outputs_of))]
fn outputs_of(
    alloc: Global,
    names: &Names,
    line: &[u8],
    tokens: &[Token],
) -> Result<Option<List<Output>>, NoMemory>
    ensures { IfOk result (λ outputs. outputs ≡ spec.outputs_of (finder_of names.now) line.now tokens.now) }
{
    let mut outputs = List::new(alloc);
    let mut rest = tokens;
    loop {
        let (group, behind) = split_group(line, rest);
        if !add_output(&mut outputs, names, line, group)? {
            return Ok(None);
        }
        let [_comma, more @ ..] = behind else {
            return Ok(Some(outputs));
        };
        rest = more;
    }
}

// What an item gives: nothing, or the outputs behind `gives`.
#[tactic(auto, unfolding(crate::specs::Outers::gives_of))]
fn gives_of(
    alloc: Global,
    names: &Names,
    line: &[u8],
    tokens: &[Token],
) -> Result<Option<List<Output>>, NoMemory>
    ensures { IfOk result (λ outputs. outputs ≡ spec.gives_of (finder_of names.now) line.now tokens.now) }
{
    match tokens {
        [] => Ok(Some(List::new(alloc))),
        [gives, outputs @ ..] => {
            if text_at(line, gives) == b"gives".as_slice() {
                outputs_of(alloc, names, line, outputs)
            } else {
                Ok(None)
            }
        }
    }
}

fn completion(act: Option<u32>, item: Option<u64>, outputs: Option<List<Output>>) -> Option<Outer>
    requires { IfSome item (λ number. number ≤ u32.MAX) }
    ensures { result ≡ spec.completion act item outputs }
{
    Some(Outer::Complete {
        act: ActId(act?),
        item: item? as u32,
        outputs: outputs?,
    })
}

// The completion `A N [ gives .. ]`, if these tokens are one.
#[tactic(auto, unfolding(crate::specs::Outers::done_of))]
fn done_of(
    alloc: Global,
    names: &Names,
    line: &[u8],
    tokens: &[Token],
) -> Result<Option<Outer>, NoMemory>
    ensures { IfOk result (λ outer. outer ≡ spec.done_of (finder_of names.now) line.now tokens.now) }
{
    match tokens {
        [act, item, gives @ ..] => {
            let gives = gives_of(alloc, names, line, gives)?;
            let item = int_at(u32::MAX.into(), line, item);
            Ok(completion(names.act(text_at(line, act)), item, gives))
        }
        _ => Ok(None),
    }
}

fn event_of(names: &Names, line: &[u8], tokens: &[Token]) -> Option<Outer>
    ensures { result ≡ spec.event_of (finder_of names.now) line.now tokens.now }
{
    match tokens {
        [event] => {
            let number = names.event(text_at(line, event))?;
            Some(Outer::Happen(EventId(number)))
        }
        _ => None,
    }
}

/// The outer of this kind, `event` or `done`, with the tokens behind the kind: `E`, or `A N` and perhaps `gives` with
/// values for variables. None where they are something else, or name what the chart hasn't. Linear in the tokens.
#[tactic(auto, unfolding(crate::specs::Outers::outer_of))]
pub fn outer_of(
    alloc: Global,
    names: &Names,
    line: &[u8],
    kind: &[u8],
    tokens: &[Token],
) -> Result<Option<Outer>, NoMemory>
    ensures { IfOk result (λ outer. outer ≡ spec.outer_of (finder_of names.now) line.now kind.now tokens.now) }
{
    if kind == b"event".as_slice() {
        Ok(event_of(names, line, tokens))
    } else if kind == b"done".as_slice() {
        done_of(alloc, names, line, tokens)
    } else {
        Ok(None)
    }
}

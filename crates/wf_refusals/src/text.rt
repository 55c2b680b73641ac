//! Why a text means no chart.
ghost use Rattle.std.specs.Prelude.{◌≡◌, ◌++◌, IfOk, OnOk};
ghost use lib.Chars.{codes};
ghost use Rattle.wf_refusals.specs.TextFaults as spec;
ghost use Rattle.wf_refusals.specs.Lines.{refusal};

use std::alloc::Global;
use wf_model::{Bytes, List, NoMemory};
use wf_text::ChartFault;
use wf_words::append_number;

#[tactic(auto, unfolding(crate::specs::TextFaults::place_words))]
fn append_place(text: &mut Bytes, line: u32, col: u32) -> Result<(), NoMemory>
    ensures { OnOk result (text.new ≡ text.old ++ codes "refused " ++ spec.place_words line col) }
{
    text.append(b"refused chart line ")?;
    append_number(text, line.into())?;
    text.append(b" column ")?;
    append_number(text, col.into())
}

fn append_placed(text: &mut Bytes, line: u32, col: u32, what: &[u8]) -> Result<(), NoMemory>
    ensures { OnOk result (text.new ≡ text.old ++ refusal (spec.placed line col what.now)) }
{
    append_place(text, line, col)?;
    text.append(what)?;
    text.append(b"\n")
}

#[tactic(auto, unfolding(crate::specs::TextFaults::text_fault_line))]
fn append_text_fault(text: &mut Bytes, fault: ChartFault) -> Result<(), NoMemory>
    ensures { OnOk result (text.new ≡ text.old ++ spec.text_fault_line fault) }
{
    match fault {
        ChartFault::BadByte { line, col } => append_placed(text, line, col, b" bad byte"),
        ChartFault::TooManyTokens { line, col } => append_placed(
            text,
            line,
            col,
            b" too many tokens",
        ),
        ChartFault::Syntax { line, col } => append_placed(text, line, col, b" syntax"),
        ChartFault::UnknownName { line, col } => append_placed(text, line, col, b" unknown name"),
        ChartFault::DoubleName { line, col } => append_placed(text, line, col, b" double name"),
        ChartFault::Oversize { line, col } => append_placed(text, line, col, b" oversize"),
        ChartFault::NoMemory => Ok(()),
    }
}

/// The line of a fault, with its line and its column. Of want of memory there is no line: it is empty then.
pub fn text_fault_line(alloc: Global, fault: ChartFault) -> Result<Bytes, NoMemory>
    ensures { IfOk result (λ line. line ≡ spec.text_fault_line fault) }
{
    let mut line = List::new(alloc);
    append_text_fault(&mut line, fault)?;
    Ok(line)
}

//! The text of a chart.
ghost use Rattle.std.specs.Prelude.{◌≡◌, ◌≤◌, length};
ghost use Rattle.wf_cursor.specs.Input.{Reads, start_of};
ghost use Rattle.wf_text.specs.Text as spec;
ghost use Rattle.wf_model.specs.Limits.{max_input, max_tokens};
ghost use Rattle.wf_model.specs.Steps.{Gives};

use crate::ChartFault;
use crate::chart_fault::placed_fault;
use crate::declarations::declarations;
use crate::states::root;
use crate::transitions::transitions;
use std::alloc::Global;
use wf_cursor::{Cursor, Piece, TextFault};
use wf_lex::{Token, tokens};
use wf_model::{Chart, List, Name, Transition};

#[tactic(auto, unfolding(crate::specs::Text::contents))]
fn contents(alloc: Global, cursor: &mut Cursor<'_>) -> Result<(Name, List<Transition>), TextFault>
    ensures { Reads (spec.contents cursor.old) result cursor.new }
{
    cursor.expect(Piece::Chart)?;
    let name = cursor.name(alloc)?;
    cursor.expect(Piece::Semicolon)?;
    declarations(alloc, cursor)?;
    root(alloc, cursor)?;
    let found = transitions(alloc, cursor)?;
    if cursor.tokens_left() > 0 {
        return Err(cursor.syntax());
    }
    Ok((name, found))
}

// Reads a chart from its tokens. A fault names a token by its number.
fn chart(alloc: Global, text: &[u8], tokens: &[Token]) -> Result<Chart, TextFault>
    requires { length tokens.now ≤ max_tokens }
    ensures { Gives TextFault.NoMemory result (spec.whole (spec.contents (start_of text.now tokens.now))) }
{
    let mut cursor = Cursor::new(alloc, text, tokens)?;
    let (name, found) = contents(alloc, &mut cursor)?;
    Ok(cursor.into_chart(name, found))
}

/// Reads the text of a chart. Answers the chart exactly where the text is in the grammar, and else its first fault, with
/// its line and its column: faults of tokens come before the others. In time and memory linear in the text, on average.
#[tactic(auto, unfolding(crate::specs::Text::chart_of))]
pub fn read_chart(alloc: Global, text: &[u8]) -> Result<Chart, ChartFault>
    requires { length text.now ≤ max_input }
    ensures { Gives ChartFault.NoMemory result (spec.chart_of text.now) }
{
    match tokens(alloc, text) {
        Ok(tokens) => match chart(alloc, text, tokens.as_slice()) {
            Ok(chart) => Ok(chart),
            Err(fault) => Err(placed_fault(text, tokens.as_slice(), fault)),
        },
        Err(fault) => Err(placed_fault(text, &[], fault.into())),
    }
}

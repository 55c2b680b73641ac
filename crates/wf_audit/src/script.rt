//! Scripts of the central run.
ghost use Rattle.std.specs.Prelude.{◌≡◌, ◌≤◌, length, IfOk};
ghost use Rattle.wf_scripts.specs.Finders.{finder_of};
ghost use Rattle.wf_audit.specs.Script as spec;
ghost use Rattle.wf_model.specs.Steps.{Gives};
ghost use Rattle.wf_model.specs.Limits.{max_input};

use std::alloc::Global;
use wf_lex::Token;
use wf_model::{Checked, List, NoMemory, Outer, UnitId};
use wf_scripts::{Grammar, Names, ScriptFault, outer_of, read_script, text_at};

/// A line of a script.
#[derive(Drop)]
pub enum CentralLine {
    /// An outer comes to a unit.
    Outer { unit: UnitId, outer: Outer },
    /// The next step is taken.
    Step,
    /// The state is shown.
    Show,
}

fn command(word: &[u8]) -> Option<CentralLine>
    ensures { result ≡ spec.command word.now }
{
    if word == b"step".as_slice() {
        Some(CentralLine::Step)
    } else if word == b"show".as_slice() {
        Some(CentralLine::Show)
    } else {
        None
    }
}

fn coming_to(unit: Option<u32>, outer: Option<Outer>) -> Option<CentralLine>
    ensures { result ≡ spec.coming_to unit outer }
{
    Some(CentralLine::Outer {
        unit: UnitId(unit?),
        outer: outer?,
    })
}

// The line `outer U event E` or `outer U done A N [ gives .. ]`, if these tokens are one.
fn outer_line(
    alloc: Global,
    names: &Names,
    line: &[u8],
    first: &Token,
    unit: &Token,
    kind: &Token,
    tokens: &[Token],
) -> Result<Option<CentralLine>, NoMemory>
    ensures { IfOk result (λ found. found ≡ spec.outer_line (finder_of names.now) line.now first.now unit.now kind.now tokens.now) }
{
    if text_at(line, first) == b"outer".as_slice() {
        let outer = outer_of(alloc, names, line, text_at(line, kind), tokens)?;
        Ok(coming_to(names.unit(text_at(line, unit)), outer))
    } else {
        Ok(None)
    }
}

// The lines of a script of the central run.
struct CentralLines;

impl Grammar for CentralLines {
    type Line = CentralLine;

    ghost use Rattle.wf_audit.specs.Script.{said_by};

    ghost says = { said_by };

    #[tactic(auto, unfolding(crate::specs::Script::said_by))]
    fn said_by(
        alloc: Global,
        names: &Names,
        line: &[u8],
        tokens: &[Token],
    ) -> Result<Option<Option<CentralLine>>, NoMemory> {
        match tokens {
            [] => Ok(Some(None)),
            [word] => Ok(command(text_at(line, word)).map(Some)),
            [first, unit, kind, tokens @ ..] => {
                Ok(outer_line(alloc, names, line, first, unit, kind, tokens)?.map(Some))
            }
            _ => Ok(None),
        }
    }
}

/// The lines of a script that say something of this chart, each with its number, counted from 1 over all lines. Refuses
/// the first line that is outside the grammar. Linear in the script on average.
#[tactic(auto, unfolding(crate::specs::Script::script_of))]
pub fn read_central(
    alloc: Global,
    checked: &Checked,
    script: &[u8],
) -> Result<List<(u32, CentralLine)>, ScriptFault>
    requires { length script.now ≤ max_input }
    ensures { Gives ScriptFault.NoMemory result (spec.script_of checked.now script.now) }
{
    read_script::<CentralLines>(alloc, checked, script)
}

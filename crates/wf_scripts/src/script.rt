//! Scripts, line by line, whatever a line may say.
ghost use Rattle.std.specs.Prelude.{◌≡◌, ◌≤◌, ◌++◌, ℕ, List as AList, Option as AnOption, [], length, IfOk, OnOk};
ghost use Rattle.std.specs.Result.{result_ok};
ghost use Rattle.wf_lex.specs.declared.token.Token.{Token as AToken};
ghost use Rattle.wf_lex.specs.Lex.{line_tokens_of};
ghost use Rattle.wf_scripts.specs.Names.{Finder};
ghost use Rattle.wf_scripts.specs.Finders.{finder_of};
ghost use Rattle.wf_scripts.specs.Script as spec;
ghost use Rattle.wf_model.specs.Steps.{Gives};
ghost use Rattle.wf_model.specs.Limits.{max_input};

use crate::lines::split_line;
use crate::names::Names;
use std::alloc::Global;
use wf_lex::{LexFault, Token, line_tokens};
use wf_model::{Checked, List, NoMemory};

/// Why a script has no lines.
#[derive(Clone, Copy)]
pub enum ScriptFault {
    /// The first line outside the grammar, counted from 1.
    Refused { line: u32 },
    /// Memory ran out.
    NoMemory,
}

impl From<NoMemory> for ScriptFault {
    ghost use Rattle.std.specs.Prelude.{◌≡◌};
    ghost use Rattle.wf_scripts.specs.declared.script.ScriptFault.TheVariants.{NoMemory};

    ghost from_gives = { λ _ e. e ≡ NoMemory };

    fn from(_e: NoMemory) -> ScriptFault {
        ScriptFault::NoMemory
    }
}

/// What the lines of one kind of script may say.
pub trait Grammar {
    /// What a line says.
    type Line;

    /// What a line of these tokens says, where it is in the grammar. A line that says nothing is in the grammar too.
    ghost says: { Finder → AList ℕ → AList AToken → AnOption (AnOption Self.Line) };

    /// Reads the tokens of a line. `None` where they are outside the grammar, `Some(None)` where they say nothing.
    fn said_by(
        alloc: Global,
        names: &Names,
        line: &[u8],
        tokens: &[Token],
    ) -> Result<Option<Option<Self::Line>>, NoMemory>
        ensures { IfOk result (λ said. said ≡ Self.says (finder_of names.now) line.now tokens.now) };
}

// The tokens of a line, if it has no fault. Linear in the line.
fn tokens_in(alloc: Global, line: &[u8]) -> Result<Option<List<Token>>, NoMemory>
    requires { length line.now ≤ max_input }
    ensures { IfOk result (λ found. found ≡ result_ok (line_tokens_of line.now)) }
{
    match line_tokens(alloc, line) {
        Ok(found) => Ok(Some(found)),
        Err(LexFault::NoMemory) => Err(NoMemory),
        Err(_) => Ok(None),
    }
}

/// What the line with this number says, by the grammar of the caller. Linear in the line, but for what that grammar does.
#[tactic(auto, unfolding(crate::specs::Script::line_by))]
pub fn line_at<G: Grammar>(
    alloc: Global,
    names: &Names,
    number: u32,
    line: &[u8],
) -> Result<Option<G::Line>, ScriptFault>
where
    G::Line: Drop,
    requires { length line.now ≤ max_input }
    ensures { Gives ScriptFault.NoMemory result (spec.line_by G.says (finder_of names.now) number line.now) }
{
    let said = match tokens_in(alloc, line)? {
        Some(tokens) => G::said_by(alloc, names, line, tokens.as_slice())?,
        None => None,
    };
    said.ok_or(ScriptFault::Refused { line: number })
}

// Adds the line with this number, if it says something.
fn add<L: Drop>(lines: &mut List<(u32, L)>, number: u32, said: Option<L>) -> Result<(), NoMemory>
    ensures { OnOk result (lines.new ≡ lines.old ++ spec.with_line number said []) }
{
    match said {
        Some(line) => lines.push((number, line)),
        None => Ok(()),
    }
}

/// The lines of a script that say something of this chart, each with its number, counted from 1 over all lines. Refuses
/// the first line that is outside the grammar. Linear in the script on average.
#[tactic(auto, unfolding(crate::specs::Script::script_by))]
pub fn read_script<G: Grammar>(
    alloc: Global,
    checked: &Checked,
    script: &[u8],
) -> Result<List<(u32, G::Line)>, ScriptFault>
where
    G::Line: Drop,
    requires { length script.now ≤ max_input }
    ensures { Gives ScriptFault.NoMemory result (spec.script_by G.says checked.now script.now) }
{
    let names = Names::of(alloc, checked.chart())?;
    let mut lines = List::new(alloc);
    let mut number = 0;
    let mut rest = script;
    while !rest.is_empty() {
        let (line, more) = split_line(rest);
        number += 1;
        let said = line_at::<G>(alloc, &names, number, line)?;
        add(&mut lines, number, said)?;
        rest = more;
    }
    Ok(lines)
}

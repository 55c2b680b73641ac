//! The text of expressions.
ghost use Rattle.std.specs.Prelude.{◌≡◌, ◌∷◌, ◌++◌, [], OnOk};
ghost use Rattle.wf_print.specs.Expressions as spec;

use crate::words::{append_quoted, append_truth, op_word};
use wf_model::{Bytes, Chart, Expr, NoMemory};
use wf_words::{act_name, append_number, state_name, var_name};

// Appends a name behind the word that asks about it.
fn append_asked(text: &mut Bytes, word: &[u8], name: &[u8]) -> Result<(), NoMemory>
    ensures { OnOk result (text.new ≡ text.old ++ word.now ++ name.now ++ 41 ∷ []) }
{
    text.append(word)?;
    text.append(name)?;
    text.append(b")")
}

/// Appends an expression. Linear in what is appended.
#[tactic(auto, using(crate::proofs::Operators::operator_texts))]
pub fn append_expr(text: &mut Bytes, chart: &Chart, expr: &Expr) -> Result<(), NoMemory>
    ensures { OnOk result (text.new ≡ text.old ++ spec.expr_text chart.now expr.now) }
{
    match expr {
        Expr::Bool(truth) => append_truth(text, *truth),
        Expr::Int(number) => append_number(text, *number),
        Expr::Text(chars) => append_quoted(text, chars),
        Expr::Var(var) => text.append(var_name(chart, *var)),
        Expr::In(state) => append_asked(text, b"in(", state_name(chart, *state)),
        Expr::Count(act) => append_asked(text, b"count(", act_name(chart, *act)),
        Expr::Done(act) => append_asked(text, b"done(", act_name(chart, *act)),
        Expr::Not(inner) => {
            text.append(b"(not ")?;
            append_expr(text, chart, inner.get())?;
            text.append(b")")
        }
        Expr::Neg(inner) => {
            text.append(b"(- ")?;
            append_expr(text, chart, inner.get())?;
            text.append(b")")
        }
        Expr::Bin(op, left, right) => {
            text.append(b"(")?;
            append_expr(text, chart, left.get())?;
            text.append(op_word(*op))?;
            append_expr(text, chart, right.get())?;
            text.append(b")")
        }
    }
}

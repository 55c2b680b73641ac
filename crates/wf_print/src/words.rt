//! The words that lines are made of. Where memory runs out, a part of what is appended may stand.
ghost use Rattle.std.specs.Prelude.{◌≡◌, ◌++◌, OnOk};
ghost use Rattle.wf_print.specs.Words as spec;

use wf_model::{Bytes, Kind, NoMemory, Op, Sort, Txt, Val};
use wf_words::append_number;

/// Appends `true` or `false`.
pub fn append_truth(text: &mut Bytes, truth: bool) -> Result<(), NoMemory>
    ensures { OnOk result (text.new ≡ text.old ++ spec.truth_word truth) }
{
    if truth {
        text.append(b"true")
    } else {
        text.append(b"false")
    }
}

/// Appends text characters between quotes.
pub fn append_quoted(text: &mut Bytes, chars: &Txt) -> Result<(), NoMemory>
    ensures { OnOk result (text.new ≡ text.old ++ spec.quoted chars.now) }
{
    text.append(b"\"")?;
    text.append(chars.as_slice())?;
    text.append(b"\"")
}

fn append_int(text: &mut Bytes, number: i64) -> Result<(), NoMemory>
    ensures { OnOk result (text.new ≡ text.old ++ spec.literal (Val.Int number)) }
{
    if number < 0 {
        text.append(b"- ")?;
    }
    append_number(text, number.unsigned_abs())
}

/// Appends the literal of a value.
pub fn append_literal(text: &mut Bytes, value: &Val) -> Result<(), NoMemory>
    ensures { OnOk result (text.new ≡ text.old ++ spec.literal value.now) }
{
    match value {
        Val::Bool(truth) => append_truth(text, *truth),
        Val::Int(number) => append_int(text, *number),
        Val::Text(chars) => append_quoted(text, chars),
    }
}

/// The word of a sort.
pub fn sort_word(sort: Sort) -> &'static [u8]
    ensures { result.now ≡ spec.sort_word sort }
{
    match sort {
        Sort::Bool => b"bool",
        Sort::Int => b"int",
        Sort::Text => b"text",
    }
}

/// The word that begins a state of this kind.
pub fn kind_word(kind: Kind) -> &'static [u8]
    ensures { result.now ≡ spec.kind_word kind }
{
    match kind {
        Kind::Basic => b"basic ",
        Kind::Or => b"or ",
        Kind::And => b"and ",
    }
}

/// The operator with the spaces around it.
pub fn op_word(op: Op) -> &'static [u8]
    ensures { result.now ≡ spec.op_word op }
{
    match op {
        Op::Or => b" or ",
        Op::And => b" and ",
        Op::Eq => b" = ",
        Op::Ne => b" != ",
        Op::Lt => b" < ",
        Op::Le => b" <= ",
        Op::Gt => b" > ",
        Op::Ge => b" >= ",
        Op::Add => b" + ",
        Op::Sub => b" - ",
        Op::Mul => b" * ",
        Op::Div => b" / ",
        Op::Rem => b" % ",
    }
}

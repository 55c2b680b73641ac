//! The laws of the canonical text for each accepted chart that a program holds.
ghost use Rattle.std.specs.Prelude.{◌≤◌, true, List, length, IsTrue};
ghost use Rattle.wf_model.specs.Limits.{max_tokens};
ghost use Rattle.wf_print.specs.ChartText.{chart_text};
ghost use Rattle.wf_print.specs.Lined.{are_lines};
ghost use Rattle.wf_text.specs.Text.{Means};
ghost use Rattle.wf_lex.specs.declared.token.Token.{Token};
ghost use Rattle.wf_readback.specs.Cuts.{IsCut};
ghost use Rattle.wf_readback.specs.Texts.{IsTextOf};

use crate::held::chart_is_held;
use wf_model::Checked;

/// The canonical text of the chart is a text of this chart by the grammar, however many tokens it has. Linear in the chart, and
/// takes no memory.
pub fn checked_is_spelled(checked: &Checked)
    ensures { IsTextOf (chart_text checked.now) checked.now }
{
    chart_is_held(checked.chart());
}

/// The canonical text of the chart means this chart, if it has at most as many tokens, or as many bytes, as a text may have tokens.
/// Linear in the chart, and takes no memory.
pub fn checked_is_read_back(checked: &Checked)
    ensures few_tokens { (tokens : List Token) → IsCut (chart_text checked.now) tokens → length tokens ≤ max_tokens →
        Means (chart_text checked.now) checked.now }
    ensures few_bytes { length (chart_text checked.now) ≤ max_tokens → Means (chart_text checked.now) checked.now }
{
    chart_is_held(checked.chart());
}

/// The canonical text of the chart is printable, line by line, and no line of it is empty or begins with `-`: so no divider
/// stands in it. Linear in the chart, and takes no memory.
pub fn checked_is_lined(checked: &Checked)
    ensures { IsTrue (are_lines true (chart_text checked.now)) }
{
    chart_is_held(checked.chart());
}

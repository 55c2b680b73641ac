//! Laws of the reader of charts: it reads what the grammar spells, and nothing else.
ghost use Rattle.wf_grammar.specs.ChartLaws.{ChartReadIsSpelled, ChartSpelledIsRead, SpellsOneChart};

/// A text that means a chart has tokens, and by the grammar they are a text of this chart.
pub fn chart_read_is_spelled()
    ensures { ChartReadIsSpelled }
{}

/// Where the tokens of a text are a text of a chart by the grammar, the text means this chart.
pub fn chart_spelled_is_read()
    ensures { ChartSpelledIsRead }
{}

/// The tokens of a text are a text of at most one chart.
pub fn spells_one_chart()
    ensures { SpellsOneChart }
{}

//! Laws of the canonical text, for every accepted chart.
ghost use Rattle.wf_print.specs.Lined.{TextIsLined};
ghost use Rattle.wf_print.specs.Nested.{StatesRead};

/// The text is printable, line by line, and no line of it begins with `-`: so no divider stands in it.
pub fn text_is_lined()
    ensures { TextIsLined }
{}

/// How the text of states reads, with no bound on their levels: each state's is its opening, and the texts of its children
/// between braces.
pub fn states_read()
    ensures { StatesRead }
{}

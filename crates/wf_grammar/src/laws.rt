//! Laws of the reader of expressions: it reads what the grammar spells, and nothing else.
ghost use Rattle.wf_grammar.specs.Laws.{ReadIsSpelled, SpelledIsRead, SpellsOne};

/// Where the reader answers an expression, the grammar spells it by a front part of the lexemes, within the limits on nodes and
/// on open parentheses. The input is then behind that part, and but for the count of nodes it is the same.
pub fn read_is_spelled()
    ensures { ReadIsSpelled }
{}

/// Where a front part of the lexemes spells an expression within the limits and no operator follows, the reader answers that
/// expression, and is then behind that part.
pub fn spelled_is_read()
    ensures { SpelledIsRead }
{}

/// Lexemes of a text spell at most one expression within the limits.
pub fn spells_one()
    ensures { SpellsOne }
{}

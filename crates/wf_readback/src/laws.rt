//! Laws of the reader on canonical texts.
ghost use Rattle.wf_readback.specs.Laws.{
  ChartIsReadBack,
  ChartIsSpelled,
  CutIsAnswered,
  CutsAreEqual,
  MeantIsTextOf,
  ShortTextIsReadBack,
  TextOfFewIsMeant,
};

/// The tokens that a text is cut into are those that the tokenizer answers, and the other way round, if they are at most as many
/// as it answers.
pub fn cut_is_answered()
    ensures { CutIsAnswered }
{}

/// A text is cut into tokens in at most one way, however many they are.
pub fn cuts_are_equal()
    ensures { CutsAreEqual }
{}

/// A text that means a chart is a text of it by the grammar.
pub fn meant_is_text_of()
    ensures { MeantIsTextOf }
{}

/// A text of a chart by the grammar means it, if the text hasn't too many tokens.
pub fn text_of_few_is_meant()
    ensures { TextOfFewIsMeant }
{}

/// The canonical text of an accepted chart is a text of that chart by the grammar, however many tokens it has, if its literals are
/// such as a program holds.
pub fn chart_is_spelled()
    ensures { ChartIsSpelled }
{}

/// The canonical text of an accepted chart means that chart, if its literals are such as a program holds, and if it hasn't too
/// many tokens: the text of a large chart may have more.
pub fn chart_is_read_back()
    ensures { ChartIsReadBack }
{}

/// So does each canonical text of at most as many bytes as a text may have tokens.
pub fn short_text_is_read_back()
    ensures { ShortTextIsReadBack }
{}

//! Laws of the reader of charts: where it tells its faults.
ghost use Rattle.wf_viable.specs.Laws.{
  FirstMisfitIsTold,
  MisfitIsFinal,
  OtherFaultsFit,
  ReadIsShaped,
  ReadingHasMemory,
  SpelledIsShaped,
  SyntaxIsFirstMisfit,
};

/// The fault `syntax` stands at the first misfit of a text: some text of the grammar begins with the pieces of the tokens before
/// it, and none has behind them the piece that stands there, or ends there. To the grammar each name stands for any name.
pub fn syntax_is_first_misfit()
    ensures { SyntaxIsFirstMisfit }
{}

/// The faults `unknown name`, `double name` and `oversize` stand at a token that fits: some text of the grammar begins with the
/// pieces up to this one. So `syntax` is told before them, be it earlier in the text or at the same token.
pub fn other_faults_fit()
    ensures { OtherFaultsFit }
{}

/// Where a text has a first misfit, the reader tells `syntax` there, or another fault at a token before it.
pub fn first_misfit_is_told()
    ensures { FirstMisfitIsTold }
{}

/// The pieces of a text that means a chart are a text of the grammar.
pub fn read_is_shaped()
    ensures { ReadIsShaped }
{}

/// Tokens that are a text of a chart by the grammar of `wf_grammar`, which knows names and sizes, are one by the grammar over
/// pieces.
pub fn spelled_is_shaped()
    ensures { SpelledIsShaped }
{}

/// A misfit is final: no text that means a chart has the same pieces before it and the same one there, whatever follows.
pub fn misfit_is_final()
    ensures { MisfitIsFinal }
{}

/// The definition of reading answers a chart or a fault of the text, and never that memory ran out.
pub fn reading_has_memory()
    ensures { ReadingHasMemory }
{}

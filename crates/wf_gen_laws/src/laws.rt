//! Laws of the generated text.
ghost use Rattle.wf_gen_laws.specs.Laws.{GeneratedIsDivided, GeneratedIsRead, BulksHaveOneAnswer};

/// The divider parts the text of the generated chart from the generated script.
pub fn generated_is_divided()
    ensures { GeneratedIsDivided }
{}

/// The text before the divider is in the grammar of charts, and means the generated chart.
pub fn generated_is_read()
    ensures { GeneratedIsRead }
{}

/// The generated script arms no disk, so the answer that sums up its play depends on its number alone.
pub fn bulks_have_one_answer()
    ensures { BulksHaveOneAnswer }
{}

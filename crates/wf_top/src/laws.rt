//! Laws of answers.
ghost use Rattle.wf_top.specs.Laws.{HaveOneAnswer, UnarmedPlaysHaveOneAnswer, EndsShowOutcomes};

/// The answer of a command that runs no play depends on its input alone.
pub fn have_one_answer()
    ensures { HaveOneAnswer }
{}

/// The answer to a play in which no disk is armed depends on its chart and its lines alone.
pub fn unarmed_plays_have_one_answer()
    ensures { UnarmedPlaysHaveOneAnswer }
{}

/// The counts behind a play's end show how the doubts came out that were left.
pub fn ends_show_outcomes()
    ensures { EndsShowOutcomes }
{}

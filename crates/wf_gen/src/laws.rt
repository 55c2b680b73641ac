//! Laws of the generated chart.
ghost use Rattle.wf_gen.specs.Laws.{GeneratedIsAccepted};

/// The chart of each number is accepted.
pub fn generated_is_accepted()
    ensures { GeneratedIsAccepted }
{}

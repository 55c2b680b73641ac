//! Laws of histories that went on together, and of answers at desks.
ghost use Rattle.wf_hosted.specs.Together.{HistoriesStillAgree};
ghost use Rattle.wf_hosted.specs.Told.{AnswersAreTold, MadeIsDistinct};

/// Histories that went on by updates that came in order agree, if they agreed before. So no unit is more than one step ahead of
/// another.
pub fn histories_still_agree()
    ensures { HistoriesStillAgree }
{}

/// What the desks of a unit answered by the history of that moment is right by the history before the run too.
pub fn answers_are_told()
    ensures { AnswersAreTold }
{}

/// Each request stands once in a history that records made.
pub fn made_is_distinct()
    ensures { MadeIsDistinct }
{}

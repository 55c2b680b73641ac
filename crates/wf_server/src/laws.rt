//! A law of servers' histories. The public function is a law and has nothing to do.
ghost use Rattle.wf_server.specs.Laws.{LettersStay};

/// After every list of later calls, crashes and restarts the letter of a step that was taken, or of the next one, is the same. A call
/// that adds no record leaves the history, and what `start` finds after a crash begins with it, as `disk` and `start` say.
pub fn letters_stay()
    ensures { LettersStay }
{}

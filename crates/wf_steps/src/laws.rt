//! Laws of histories that records make. Each public function is a law and has nothing to do.
ghost use Rattle.wf_steps.specs.Laws.{MadeIsSound, UpdatesInRange, AdmitInRange, TurnInRange};

/// A history that records made seals no more than was admitted, has all that the central law asks of it, and has at most 20,000 Turns.
pub fn made_is_sound()
    ensures { MadeIsSound }
{}

/// Each of its own updates, up to the next step's, has a spelling.
pub fn updates_in_range()
    ensures { UpdatesInRange }
{}

/// An admission that may follow has a body.
pub fn admit_in_range()
    ensures { AdmitInRange }
{}

/// So has a Turn.
pub fn turn_in_range()
    ensures { TurnInRange }
{}

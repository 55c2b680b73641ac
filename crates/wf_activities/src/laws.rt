//! Laws of items. Each function is a law and has nothing to do.
ghost use Rattle.wf_activities.specs.Laws.{ClosesOne, KeepsNumbers, ClosedStaysClosed, CountsOpenItems, CompletesByAdmission, GrowsByStep};

/// Closing an item closes that one and leaves all others.
pub fn closes_one()
    ensures { ClosesOne }
{}

/// An item keeps its number where more are started.
pub fn keeps_numbers()
    ensures { KeepsNumbers }
{}

/// A closed item stays closed where others are closed or started.
pub fn closed_stays_closed()
    ensures { ClosedStaysClosed }
{}

/// The count of an activity is how many of its items were started and not closed.
pub fn counts_open_items()
    ensures { CountsOpenItems }
{}

/// A completion is admitted at its unit where `may_complete` passes and the item isn't pending, and else refused: as `may_complete`
/// refuses it where there is no item, else as already done where it is pending, else as `may_complete` refuses it.
pub fn completes_by_admission()
    ensures { CompletesByAdmission }
{}

/// Where the listed activities are those of the unit, `grow` adds the items that the rule of the step says.
pub fn grows_by_step()
    ensures { GrowsByStep }
{}

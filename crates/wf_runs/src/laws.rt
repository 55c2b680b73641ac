//! Laws of the central run, for every chart and every list of steps. A run is a list of steps in which the entries of each
//! step may come in the state that the steps before lead to.
ghost use Rattle.wf_runs.specs.Laws.{ItemsAreStarts, StartsGoOn, StartsKeepNumbers, StartsAreInOrder, NumbersGoOn, StartsHaveUnits, ClosedForGood, ClosedIsCompleted, CountsOpenStarts, StepGoesBySight, NoSecondCompletion, CompletedOnce};

/// A unit has one item for each start of its activities so far, and the item with number n is of the activity of the n-th.
pub fn items_are_starts()
    ensures { ItemsAreStarts }
{}

/// The starts of a step come behind those of the steps before.
pub fn starts_go_on()
    ensures { StartsGoOn }
{}

/// A start keeps its number, whatever steps come.
pub fn starts_keep_numbers()
    ensures { StartsKeepNumbers }
{}

/// The starts of a unit count in order of step, transition and place, and two numbers never have the same start.
pub fn starts_are_in_order()
    ensures { StartsAreInOrder }
{}

/// A step tells the activities of all its starts in order, those at a unit with the numbers that follow the last one that was
/// given there.
pub fn numbers_go_on()
    ensures { NumbersGoOn }
{}

/// What a step of an accepted chart starts is of an activity at a unit of the chart.
pub fn starts_have_units()
    ensures { StartsHaveUnits }
{}

/// An item that is closed stays closed, whatever steps come.
pub fn closed_for_good()
    ensures { ClosedForGood }
{}

/// After a run an item is closed exactly where some entry of the run completes it.
pub fn closed_is_completed()
    ensures { ClosedIsCompleted }
{}

/// The count that a step sees of an activity is how many of its items were started before the step and completed neither by
/// the run so far nor by the entries of this step.
pub fn counts_open_starts()
    ensures { CountsOpenStarts }
{}

/// Two states of a chart that see the same, each with its entries, fire the same transitions, start the same activities and
/// raise the same events, and are in the same states and hold the same values afterwards. To see the same is to have the same
/// states in, the same value of each variable once the outputs are written, the same events there, and of each activity as
/// many open items and a completion or none.
pub fn step_goes_by_sight()
    ensures { StepGoesBySight }
{}

/// Once an entry of the run or of the entries that are pending completes an item, no further completion of it is admitted.
pub fn no_second_completion()
    ensures { NoSecondCompletion }
{}

/// At most one entry of a run completes an item.
pub fn completed_once()
    ensures { CompletedOnce }
{}

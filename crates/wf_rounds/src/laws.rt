//! Laws of rounds.
ghost use Rattle.wf_rounds.specs.Inbox.{RowsComeIn};
ghost use Rattle.wf_rounds.specs.Laws.{HostIsOnTime, ItemsAreTakenInTime};

/// Whatever the threads do, the rounds before the end are at most client lines + goal + 1, and at the end all units
/// have taken one number of steps, within its bounds.
pub fn host_is_on_time()
    ensures { HostIsOnTime }
{}

/// An item of a worker's activity that stays open to the end was started, or found, not long before: at most 8 steps
/// for each item that the workers did, and 8 more.
pub fn items_are_taken_in_time()
    ensures { ItemsAreTakenInTime }
{}

/// Where a unit pops a peer's ring only as long as it doesn't hold the update of the second next step, no update that it
/// pops is too far ahead or there already, whatever comes between the pops.
pub fn rows_come_in()
    ensures { RowsComeIn }
{}

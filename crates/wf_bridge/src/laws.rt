//! The laws.
ghost use Rattle.wf_bridge.specs.Bridging.{EntriesSame, CentralSame, LetsSame, SightSame, ItemsSame, LetterSame};
ghost use Rattle.wf_bridge.specs.Full.{JournalNeverFull};
ghost use Rattle.wf_bridge.specs.Sharing.{UpdateIsShare, UpdateSame};
ghost use Rattle.wf_bridge.specs.Places.{MergedSame, NumbersInOrder, LetterCut};
ghost use Rattle.wf_bridge.specs.Simulated.{LineHasWorld, FirstHasWorld, PlayHasWorld};

/// The machine's list of entries is the histories'.
pub fn entries_same()
    ensures { EntriesSame }
{}

/// So is its central run.
pub fn central_same()
    ensures { CentralSame }
{}

/// Its admission rule is that of the unit's part and history.
pub fn lets_same()
    ensures { LetsSame }
{}

/// Its sights are those of the unit's view.
pub fn sight_same()
    ensures { SightSame }
{}

/// Its items are those of the unit's history.
pub fn items_same()
    ensures { ItemsSame }
{}

/// Its updates are those of the unit's history.
pub fn letter_same()
    ensures { LetterSame }
{}

/// The journal of a server in a play never gets full.
pub fn journal_never_full()
    ensures { JournalNeverFull }
{}

/// The machine's text of an update is that of the share.
pub fn update_is_share()
    ensures { UpdateIsShare }
{}

/// So its updates are those of the unit's history.
pub fn update_same()
    ensures { UpdateSame }
{}

/// The machine's merged list is the histories'.
pub fn merged_same()
    ensures { MergedSame }
{}

/// What a unit's turns sealed are its first admissions, in order and each once.
pub fn numbers_in_order()
    ensures { NumbersInOrder }
{}

/// A letter is the cut of the machine's update.
pub fn letter_cut()
    ensures { LetterCut }
{}

/// Each line of a script leads a machine of a world to one of a world again, whose histories go on.
pub fn line_has_world()
    ensures { LineHasWorld }
{}

/// The first machine is one of the first world.
pub fn first_has_world()
    ensures { FirstHasWorld }
{}

/// The machine of every play of a script has a world of histories.
pub fn play_has_world()
    ensures { PlayHasWorld }
{}

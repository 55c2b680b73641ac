//! Laws of merged writes, of the union of events and of ordered starts.
ghost use Rattle.wf_actions.specs.Laws.{MergedReads, WinnerGoesByRule, CutsDoNotMatter, SharesGiveStore, UnionIsOne, SharesGiveRaised, SharesGiveStarts};

/// Merged writes ascend by variable, and have of each variable just the write that stays.
pub fn merged_reads()
    ensures { MergedReads }
{}

/// The write of a variable that stays is by the transition of greatest number that writes it, and is the last by that one.
pub fn winner_goes_by_rule()
    ensures { WinnerGoesByRule }
{}

/// Writes that are merged in two cuts are the same as in one.
pub fn cuts_do_not_matter()
    ensures { CutsDoNotMatter }
{}

/// The merged writes of the fired transitions give the store that follows in the central run, in whichever order the shares of
/// the step come.
pub fn shares_give_store()
    ensures { SharesGiveStore }
{}

/// Lists that ascend and have the same members are equal, so a union of events doesn't depend on how they are cut into lists.
pub fn union_is_one()
    ensures { UnionIsOne }
{}

/// Events that ascend and have the members of those that fired transitions raise, are the raised events of the central run's
/// step.
pub fn shares_give_raised()
    ensures { SharesGiveRaised }
{}

/// Starts that are in order, and have at each transition and place those of the fired transitions, are the starts of the central
/// run's step, in whichever lists they came.
pub fn shares_give_starts()
    ensures { SharesGiveStarts }
{}

//! The laws.
ghost use Rattle.wf_owns.specs.Ranges.{OwnInRange};
ghost use Rattle.wf_owns.specs.Sorted.{PartIsSorted, FirstIsSorted, AbsorbedIsSorted, SeesSorts, OwnIsFit, CutIsFit};

/// An own update is in the ranges and orders of the format, on every view.
pub fn own_in_range()
    ensures { OwnInRange }
{}

/// Guards and own values of an accepted chart's part have their sorts over the part's variables.
pub fn part_is_sorted()
    ensures { PartIsSorted }
{}

/// The first view has values of their sorts.
pub fn first_is_sorted()
    ensures { FirstIsSorted }
{}

/// So has a view that took in updates that are fit.
pub fn absorbed_is_sorted()
    ensures { AbsorbedIsSorted }
{}

/// What a step sees of such a view has the part's sorts.
pub fn sees_sorts()
    ensures { SeesSorts }
{}

/// An own update is fit for every unit.
pub fn own_is_fit()
    ensures { OwnIsFit }
{}

/// What is cut of a fit update is fit.
pub fn cut_is_fit()
    ensures { CutIsFit }
{}

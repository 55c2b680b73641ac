//! Laws of components and parts.
ghost use Rattle.wf_parts.specs.Laws.{FlatStep, OwnConcerns, BlockersConcern};

/// The flat step is the step: which transitions fire, and which states are in after it.
pub fn flat_step()
    ensures { FlatStep }
{}

/// A unit's own transitions concern it.
pub fn own_concerns()
    ensures { OwnConcerns }
{}

/// What blocks a transition that concerns a unit concerns it too.
pub fn blockers_concern()
    ensures { BlockersConcern }
{}

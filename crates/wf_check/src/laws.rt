//! Laws of the first fault, for every chart.
ghost use Rattle.wf_check.specs.Laws.{AcceptedHasNoFault, CheckingHasMemory, FaultlessIsAccepted};

/// An accepted chart has no first fault.
pub fn accepted_has_no_fault()
    ensures { AcceptedHasNoFault }
{}

/// A chart that has no first fault is accepted.
pub fn faultless_is_accepted()
    ensures { FaultlessIsAccepted }
{}

/// The definition of checking answers a rule that a chart breaks, or none, and never that memory ran out.
pub fn checking_has_memory()
    ensures { CheckingHasMemory }
{}

//! The law of the first difference. It has nothing to do.
ghost use Rattle.wf_agreement.specs.Laws.{NoneWhereAgreed};

/// Histories that records made have no first difference exactly where they agree, each peer being sent what it knows.
pub fn none_where_agreed()
    ensures { NoneWhereAgreed }
{}

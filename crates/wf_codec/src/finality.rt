//! Laws of the answers to bytes: which are final, and where they come.
ghost use Rattle.wf_codec.specs.Finality.{AnswerIsFinal, FaultIsFirst, FrontIsShort, FaultComesAtOnce};

/// An answer other than `Short` is final: it stays the same, whatever bytes come behind.
pub fn answer_is_final()
    ensures { AnswerIsFinal }
{}

/// A bad field is the first one that is wrong. It begins at one of the bytes, and the bytes before it, or fewer of them, are
/// `Short`: they show no fault.
pub fn fault_is_first()
    ensures { FaultIsFirst }
{}

/// An update takes no more bytes than it needs: each front part of its bytes, but all of them, is `Short`.
pub fn front_is_short()
    ensures { FrontIsShort }
{}

/// A bad field is told as soon as its bytes are there. It has at most four bytes, so the front part that ends four bytes behind its first
/// has the same answer as all of the bytes.
pub fn fault_comes_at_once()
    ensures { FaultComesAtOnce }
{}

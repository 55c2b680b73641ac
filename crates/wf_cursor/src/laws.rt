//! What follows from the definitions.
ghost use Rattle.wf_cursor.specs.Laws.{NamesAreNotReserved};

/// A word is a name to the grammar exactly where it isn't one of the language's own.
pub fn names_are_not_reserved()
    ensures { NamesAreNotReserved }
{}

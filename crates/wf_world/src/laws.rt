//! The laws.
ghost use Rattle.wf_world.specs.Plays.{RunsArePlays, RefusalsPass, EndedWorldsWork, MessagesStay, MessagesStayToEnd};

/// A run of a world by its own relations, with its end, is a play: for some outcomes of its doubts the replies and the
/// ending are the machine's, and the bytes of all messages are few enough after every line.
pub fn runs_are_plays()
    ensures { RunsArePlays }
{}

/// Where a run of a world may be stopped by the bytes of its messages, they are too many after some line of a play.
pub fn refusals_pass()
    ensures { RefusalsPass }
{}

/// After its end each unit of a world works, so the world may be closed.
pub fn ended_worlds_work()
    ensures { EndedWorldsWork }
{}

/// A line of a world only adds messages, and the bytes of each message that was sent before are the same after it.
pub fn messages_stay()
    ensures { MessagesStay }
{}

/// The end of a world sends nothing, and the bytes of each message that was sent are the same after it.
pub fn messages_stay_to_end()
    ensures { MessagesStayToEnd }
{}

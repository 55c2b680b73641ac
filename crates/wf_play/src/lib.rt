//! What a play takes and gives as text: the lines of its script, the replies to them, and its end.
//!
//! - Promises: `read_play` reads a script as its lines, each with its number, or refuses the first
//!   line outside the grammar. `append_reply` adds the defined line of a reply, `append_ending` the
//!   defined lines of the end; if memory runs out, the text is as before.
//! - Doesn't say: what of a refused line is wrong.
//! - A caller: `wf_top` answers the command `play` with these.
//! - A change of a play's line begins in `specs/Lines.antt`, one of how a reply is written in
//!   `specs/Replies.antt`, one of the end in `specs/Ending.antt`.
#![tactic(auto)]

mod ending;
mod lines;
mod reply;
mod script;

pub use ending::append_ending;
pub use lines::count_at;
pub use reply::append_reply;
pub use script::read_play;

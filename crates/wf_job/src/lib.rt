//! What a host takes and gives as text: the job that its script says, and what came of it.
//!
//! - Promises: `read_host` reads a script as a job, or refuses the first line outside the grammar,
//!   be it by itself or by the lines before it. `append_report` adds the defined lines of what came
//!   of a job; if memory runs out, the text is as before.
//! - Doesn't say: what of a refused line is wrong.
//! - A caller: none; no command runs a host.
//! - A change of a line begins in `specs/Lines.antt`, one of which lines may stand together in
//!   `specs/Drafts.antt`, one of what is written in `specs/Reports.antt`.
#![tactic(auto)]

mod draft;
mod job;
mod lines;
mod report;
mod rules;
mod script;

pub use job::{ClientLine, HostJob, WorkerLine};
pub use report::{ClientReply, Report, append_report};
pub use script::read_host;

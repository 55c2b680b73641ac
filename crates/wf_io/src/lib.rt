//! The ends of a run as values: what is read, what is written, and what is asked the time.
//!
//! - Promises: `read_all` gives all bytes up to the end, and `write_all` writes all bytes. Neither
//!   reports a failure unless the source or sink counted one during the call. `MemSource` and
//!   `MemSink`, for tests, fail at the calls that are listed; `MemSink` also if it finds no memory.
//! - Doesn't say: in which pieces bytes come; that the moments of a clock ascend.
//! - A caller: `wf_top::mentor` reads its input with `read_all` and writes its answer with
//!   `write_all`.
//! - A change begins here if it adds an end, or something that a run may ask of the system.
#![tactic(auto)]

mod clock;
mod memory;
mod stream;
mod system;
mod whole;

pub use clock::{Clock, ScriptClock};
pub use memory::{MemSink, MemSource};
pub use stream::{Sink, Source};
pub use system::{StdClock, StdSink, StdSource};
pub use whole::{InFault, read_all, write_all};

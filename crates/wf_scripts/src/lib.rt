//! Scripts: the lines behind the chart's text of an input, and what each of them says.
//!
//! - How a line is cut into tokens, how names are found, how values and outers are written and which
//!   line is refused is the same in every kind of script. What a line may say is a `Grammar`.
//! - Promises: `divide` cuts an input at its first line `---`, and takes no memory. `read_script`
//!   reads a script as what its lines say, or refuses its first line outside the grammar, or runs out
//!   of memory.
//! - Doesn't say: what of a refused line is wrong.
//! - A caller: `wf_audit` reads the central run's scripts with it.
//! - A change begins in `specs/Values.antt` or `specs/Outers.antt`, one of all lines in
//!   `specs/Script.antt`.
#![tactic(auto)]

mod laws;
mod lines;
mod names;
mod outer;
mod script;
mod values;

pub use laws::scripts_have_memory;
pub use lines::{Division, divide, line_count, split_line};
pub use names::Names;
pub use outer::outer_of;
pub use script::{Grammar, ScriptFault, line_at, read_script};
pub use values::{int_at, text_at};

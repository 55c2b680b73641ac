//! Where the reader of charts reports its faults, by a grammar over pieces alone. In it any name
//! stands for any name, whatever is declared, and sizes are free.
//!
//! - Promises: the fault `syntax` stands at the first token that no text of this grammar has after
//!   the tokens before it, or at the end if the text must go on. The other faults of the grammar
//!   stand at a token that fits. Each public function is a law and has nothing to do.
//! - Doesn't say: which of two other faults comes first at one token.
//! - A caller: none; no crate depends on it.
//! - A change of the chart's grammar is made here too, in the shape of the line.
#![tactic(auto)]

mod laws;

pub use laws::{
    first_misfit_is_told, misfit_is_final, other_faults_fit, read_is_shaped, reading_has_memory,
    spelled_is_shaped, syntax_is_first_misfit,
};

//! The generated input is read as what it was made from, and its play comes to no doubt.
//!
//! - Promises: what stands before the divider of the input of each number is in the grammar of
//!   charts, and means the generated chart; behind it stands the generated script, which arms no
//!   disk. Each public function is a law and has nothing to do.
//! - Doesn't say: that each line of that script is in the grammar of plays.
//! - A caller: none; the laws speak of `wf_gen::gen_text` and of the answer to `bulk`.
//! - A change of what is generated begins in `wf_gen`.
#![tactic(auto)]

mod laws;

pub use laws::{bulks_have_one_answer, generated_is_divided, generated_is_read};

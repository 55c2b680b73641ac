//! The store, once the completions of a step gave their outputs.
ghost use Rattle.std.specs.Prelude.{◌≡◌, slice_set, IfOk};
ghost use Rattle.wf_semantics.specs.Effects.{after_outputs, after_outer, after_entries};

use std::alloc::Global;
use wf_model::{Entry, List, NoMemory, Outer, Output, Val};

/// A copy of the store in which the outputs of the completions among these entries are written, in order. Grows with the
/// variables and the outputs.
pub fn store_then(alloc: Global, store: &[Val], entries: &[Entry]) -> Result<List<Val>, NoMemory>
    ensures { IfOk result (λ after. after ≡ after_entries entries.now store.now) }
{
    let mut after = List::from_slice(alloc, store)?;
    for entry in entries {
        write_outer(&mut after, &entry.outer);
    }
    Ok(after)
}

fn write_outer(store: &mut List<Val>, outer: &Outer)
    ensures { store.new ≡ after_outer outer.now store.old }
{
    match outer {
        Outer::Happen(_) => {}
        Outer::Complete { outputs, .. } => write_all(store, outputs.as_slice()),
    }
}

fn write_all(store: &mut List<Val>, outputs: &[Output])
    ensures { store.new ≡ after_outputs outputs.now store.old }
{
    for output in outputs {
        write(store, *output);
    }
}

// Writes one output. A variable that there isn't gets nothing.
fn write(store: &mut List<Val>, output: Output)
    ensures { store.new ≡ slice_set store.old output.var.0 output.val }
{
    let at = output.var.0 as usize;
    if at < store.len() {
        store.set(at, output.val);
    }
}

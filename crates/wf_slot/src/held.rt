//! What the types keep of an update: each number in it has its width, and each text its length. There is nothing to do at run time; a walk
//! over the values hands on what their types say of them.
ghost use Rattle.std.specs.List.{AllByRecursion};
ghost use Rattle.wf_codec.specs.Ranges.{IsHeldValue, IsHeldOuter, IsHeld};

use wf_model::{Outer, Output, Update, Val, Write};

fn keep_value(value: &Val)
    ensures { IsHeldValue value.now }
{
    match value {
        Val::Bool(_) => {}
        Val::Int(number) => {
            let _number = *number;
        }
        Val::Text(text) => {
            let _text = text.as_slice();
        }
    }
}

fn keep_outputs(outputs: &[Output])
    ensures { AllByRecursion (λ o. IsHeldValue o.val) outputs.now }
{
    for output in outputs {
        keep_value(&output.val);
    }
}

fn keep_writes(writes: &[Write])
    ensures { AllByRecursion (λ w. IsHeldValue w.val) writes.now }
{
    for write in writes {
        keep_value(&write.val);
    }
}

fn keep_outer(outer: &Outer)
    ensures { IsHeldOuter outer.now }
{
    match outer {
        Outer::Happen(_) => {}
        Outer::Complete { item, outputs, .. } => {
            let _item = *item;
            keep_outputs(outputs.as_slice());
        }
    }
}

fn keep_outers(outers: &[Outer])
    ensures { AllByRecursion IsHeldOuter outers.now }
{
    for outer in outers {
        keep_outer(outer);
    }
}

/// Hands on what the types keep of an update. In linear time in its writes and outers.
pub fn keep_update(update: &Update)
    ensures { IsHeld update.now }
{
    keep_writes(update.writes.as_slice());
    keep_outers(update.outer.as_slice());
}

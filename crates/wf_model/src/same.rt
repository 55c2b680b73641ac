//! Whether two values are one.
ghost use Rattle.std.specs.Prelude.{◌≡◌, IsTrue, ◌↔◌};

use crate::{
    ActId, Entry, EventId, List, Name, Outer, Output, StateId, TransId, Txt, UnitId, Val, VarId,
};

/// A value that can be compared with another of its type.
pub trait Same {
    /// Whether the two are one value.
    fn is_same(&self, other: &Self) -> bool
        ensures { IsTrue result ↔ (self.now ≡ other.now) };
}

impl<T: Same> Same for List<T> {
    fn is_same(&self, other: &List<T>) -> bool {
        is_same_slice(self.as_slice(), other.as_slice())
    }
}

fn is_same_slice<T: Same>(left: &[T], right: &[T]) -> bool
    ensures { IsTrue result ↔ (left.now ≡ right.now) }
{
    if left.len() != right.len() {
        return false;
    }
    for i in 0..left.len() {
        if !left[i].is_same(&right[i]) {
            return false;
        }
    }
    true
}

impl<T: Same> Same for Option<T> {
    fn is_same(&self, other: &Option<T>) -> bool {
        match (self, other) {
            (Some(a), Some(b)) => a.is_same(b),
            (None, None) => true,
            _ => false,
        }
    }
}

impl Same for u8 {
    fn is_same(&self, other: &u8) -> bool {
        *self == *other
    }
}

impl Same for StateId {
    fn is_same(&self, other: &StateId) -> bool {
        *self == *other
    }
}

impl Same for TransId {
    fn is_same(&self, other: &TransId) -> bool {
        *self == *other
    }
}

impl Same for VarId {
    fn is_same(&self, other: &VarId) -> bool {
        *self == *other
    }
}

impl Same for EventId {
    fn is_same(&self, other: &EventId) -> bool {
        *self == *other
    }
}

impl Same for ActId {
    fn is_same(&self, other: &ActId) -> bool {
        *self == *other
    }
}

impl Same for UnitId {
    fn is_same(&self, other: &UnitId) -> bool {
        *self == *other
    }
}

impl Same for Txt {
    fn is_same(&self, other: &Txt) -> bool {
        *self == *other
    }
}

impl Same for Name {
    fn is_same(&self, other: &Name) -> bool {
        is_same_slice(self.as_bytes(), other.as_bytes())
    }
}

impl Same for Val {
    fn is_same(&self, other: &Val) -> bool {
        match (self, other) {
            (Val::Bool(a), Val::Bool(b)) => *a == *b,
            (Val::Int(a), Val::Int(b)) => *a == *b,
            (Val::Text(a), Val::Text(b)) => a.is_same(b),
            _ => false,
        }
    }
}

impl Same for Output {
    fn is_same(&self, other: &Output) -> bool {
        self.var == other.var && self.val.is_same(&other.val)
    }
}

impl Same for Outer {
    fn is_same(&self, other: &Outer) -> bool {
        match (self, other) {
            (Outer::Happen(a), Outer::Happen(b)) => *a == *b,
            (
                Outer::Complete { item, act, outputs },
                Outer::Complete {
                    item: item_b,
                    act: act_b,
                    outputs: outputs_b,
                },
            ) => *item == *item_b && *act == *act_b && outputs.is_same(outputs_b),
            _ => false,
        }
    }
}

impl Same for Entry {
    fn is_same(&self, other: &Entry) -> bool {
        self.unit == other.unit && self.outer.is_same(&other.outer)
    }
}

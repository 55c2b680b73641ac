//! Values and their sorts.
use crate::Txt;

/// A kind of value.
#[derive(Clone, Copy, Debug, PartialEq, Eq)]
pub enum Sort {
    Bool,
    Int,
    Text,
}

/// A value.
#[derive(Clone, Copy, Debug, PartialEq, Eq)]
pub enum Val {
    Bool(bool),
    Int(i64),
    Text(Txt),
}

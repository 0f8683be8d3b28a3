//! What fields and registers hold, as data.
use crate::lists::Items;
use crate::names::Name;

/// What a field or a register holds.
#[derive(Clone, Copy, Debug, PartialEq, Eq)]
pub enum Val {
    Null,
    Int(i64),
    Ref(Name),
}

/// Values in order.
pub type Vals = Items<Val>;

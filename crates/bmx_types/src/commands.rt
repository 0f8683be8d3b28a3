//! Commands of programs, as data.
use crate::numbers::BunchNo;

/// What a command names: a register from 0 to 15, a bunch's anchor, a number or null.
#[derive(Clone, Copy, Debug, PartialEq, Eq)]
pub enum Operand {
    Register(u8),
    Anchor(BunchNo),
    Int(i64),
    Null,
}

/// A command of a program on shared objects. An `on` is a register or an anchor; an index is a
/// field's, from 0.
#[derive(Clone, Copy, Debug, PartialEq, Eq)]
pub enum Command {
    /// Makes an object of so many null fields, and refers to it by the register.
    New {
        register: u8,
        bunch: BunchNo,
        size: u8,
    },
    /// The register becomes the value.
    Copy {
        register: u8,
        value: Operand,
    },
    /// The register becomes null.
    Drop {
        register: u8,
    },
    /// Takes a read token.
    Read {
        on: Operand,
    },
    /// Takes a write token.
    Write {
        on: Operand,
    },
    /// Gives the token back.
    Done {
        on: Operand,
    },
    /// The field becomes the value.
    Set {
        on: Operand,
        index: u8,
        value: Operand,
    },
    /// Adds to the number in the field.
    Add {
        on: Operand,
        index: u8,
        by: i64,
    },
    /// The register becomes the field's value.
    Get {
        register: u8,
        on: Operand,
        index: u8,
    },
    /// Shows the field's value.
    Show {
        on: Operand,
        index: u8,
    },
    /// Shows whether two values are equal.
    Same {
        left: Operand,
        right: Operand,
    },
}

/// Why a command is refused.
#[derive(Clone, Copy, Debug, PartialEq, Eq)]
pub enum Refusal {
    /// What it is on is no reference.
    Empty,
    /// The token that it needs isn't held.
    NoToken,
    /// The object has no such field.
    Index,
    /// A token of the object is held already.
    Held,
    /// The field is no number, or the sum is no 64-bit number.
    Number,
    /// The node has made all its segments.
    Full,
}

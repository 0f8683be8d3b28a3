//! What a command is answered, as data.
use bmx_types::{Refusal, Val};

/// What a command is answered.
#[derive(Clone, Copy, Debug, PartialEq, Eq)]
pub enum Answer {
    /// It is done, and has nothing to tell.
    Nil,
    Value(Val),
    Yes,
    No,
    /// Another node holds the token. Nothing has changed.
    Wait,
    /// Nothing has changed.
    Refused(Refusal),
}

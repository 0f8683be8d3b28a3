//! A node's replica: what it has of objects under their names, over words.
//!
//! An object lies in a segment, a header in front of its fields. When it moves, its old header forwards to
//! the new one, so every address that it ever had here still means its name. A name is found in expected
//! constant time, and an address's meaning at one header, since each header of a chain has the name of the
//! last.
#![tactic(auto)]

mod directory;
mod layout;
mod letters;
mod objects;
mod replica;
mod words;

pub use letters::learning_goes_on;
pub use objects::{Held, Object};
pub use replica::{LearnError, Lent, Replica};
pub use words::{Word, Words};

#[cfg(test)]
mod tests;

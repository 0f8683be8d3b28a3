//! A node's objects and its registers, under names: what the rules of many nodes see of them, over words.
//!
//! Each call is one change that a rule makes of what a node knows of objects and of where they lie, or one
//! look at that.
#![tactic(auto)]

mod letters;
mod memory;
mod objects;

pub use memory::Memory;

#[cfg(test)]
mod tests;

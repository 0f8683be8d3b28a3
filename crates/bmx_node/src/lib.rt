//! A node of a store: each step is what the rules of nodes say, over a heap of words.
#![tactic(auto)]

mod births;
mod commands;
mod holdings;
mod node;
mod opening;
mod others;
mod serving;
mod strays;
mod taking;
mod view;

pub use holdings::Holdings;
pub use node::Node;
pub use strays::Dimensions;

#[cfg(test)]
mod tests;

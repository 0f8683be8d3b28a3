//! The tokens of all objects that a node knows, by their names, with an index of those whose queue can be
//! served now. Each call is one call of a token, and the index follows it.
#![tactic(auto)]

mod servable;
mod tokens;

pub use tokens::Tokens;

#[cfg(test)]
mod tests;

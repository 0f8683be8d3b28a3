//! The plain graph that all nodes share: objects by name, registers, tokens. It knows of no replica,
//! address or collection, and is what the answers of a store are measured by.
#![tactic(auto)]

mod answers;
mod decisions;
mod effects;
mod graphs;
mod rules;
mod walks;

pub use answers::Answer;
pub use decisions::{Decision, Sight, decide, target};
pub use effects::Effect;
pub use graphs::Graph;
pub use rules::{permits, sum};

#[cfg(test)]
mod tests;

//! Runs of scripts as worlds of nodes: the store that a script opens, the text that a history prints, what a
//! run and its outcome are, and every law of legal histories in one place.
#![tactic(auto)]

pub mod laws;
mod openings;
mod outcomes;
mod runs;
mod statuses;
#[cfg(test)]
mod tests;
mod texts;

pub use openings::opening;
pub use outcomes::Outcome;
pub use runs::{Nodes, Run, RunEnd};
pub use statuses::Status;
pub use texts::{has_refusal, printed, text};

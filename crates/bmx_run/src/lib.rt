//! Runs a script on its nodes, one event at a time: in each phase the word of a seeded generator picks the event
//! among what the nodes may do next.
#![tactic(auto)]

mod actions;
mod events;
mod phases;
mod runner;
mod seats;

pub use runner::run_script;

#[cfg(test)]
mod tests;

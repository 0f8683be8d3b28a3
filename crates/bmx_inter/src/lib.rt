//! References between bunches at one node: a stub where a bunch refers out, and a scion that keeps
//! what it refers to, so that each bunch can be collected by itself.
#![tactic(auto)]

mod inter;
mod order;
mod side;
mod sorted;

pub use inter::{Inter, Scion, Stub};

//! What is on its way between nodes: a queue for each node that sends and each that receives, and for each
//! receiver how many send to it.
#![tactic(auto)]

mod inbox;
mod lanes;

pub use lanes::Lanes;

#[cfg(test)]
mod tests;

//! What a store of a reference asks for besides: a stub and a scion where it leads out of its bunch, and
//! a grey name where a collection of the bunch is under way.
#![tactic(auto)]

mod barrier;

pub use barrier::{count_pairs, must_grey, on_store};

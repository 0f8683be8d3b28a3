//! The segments that a collection moves objects into, and the sweep of those that no object needs any more.
#![tactic(auto)]

mod space;
mod sweep;

pub use space::Space;

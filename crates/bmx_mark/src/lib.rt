//! What a collection of one bunch keeps: names are marked from the roots on, along the references of
//! their copies. A marked name is grey until its own references were looked at. At the end the marked
//! names are the least set that has the roots and, with each name, its targets.
#![tactic(auto)]

mod edges;
mod fields;
mod mark;

pub use edges::{Edges, Keeps};
pub use mark::Mark;

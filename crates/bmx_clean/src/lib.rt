//! What a node lets go of by a table that another node, or it itself, made of a bunch: the entering
//! records and scions that nobody needs any more. Tables may come late, twice or never.
#![tactic(auto)]

mod cleaner;

pub use cleaner::{Applied, apply};

//! Tables: what a node tells another one of a bunch, so that the other can let go of what nobody
//! refers to by way of it any more.
#![tactic(auto)]

mod tables;

pub use tables::{Rows, Table, snapshot};

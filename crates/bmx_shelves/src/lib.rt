//! Items on numbered shelves, each shelf a linked list. An item is put at a shelf's end and taken from
//! its front, or goes from one shelf to another, in expected constant time and with no memory where
//! room was made before. So what belongs to one number can be walked alone.
#![tactic(auto)]

mod shelves;
mod walk;

pub use shelves::Shelves;
pub use walk::{Judge, end_items};

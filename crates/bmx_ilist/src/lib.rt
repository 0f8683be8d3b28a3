//! Doubly linked lists over the keys of one arena. Each key is in at most one of a fixed number of
//! lists, and is put at an end, taken out of the middle or moved in constant time and with no memory.
#![tactic(auto)]

mod errors;
mod lists;
mod seats;

pub use errors::NoMemory;
pub use lists::Lists;
pub use seats::Key;

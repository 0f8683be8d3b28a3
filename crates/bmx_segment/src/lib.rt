//! The heap of one node: segments of words, with headers in front of objects, forwarding, and bump
//! allocation.
//!
//! A segment has 1,024 words of 64 bits and belongs to its home node. Every node may map it at the same
//! addresses. Objects are placed in their home's segments alone, one behind another, and the words of a
//! segment are handed out once. In front of the fields of an object stand four header words: a mark
//! with its state, size and bunch, its name, how often it has moved or where it has gone, and the kinds
//! of its fields.
//!
//! A mapped segment takes 8 KiB for its words and 176 bytes beside them, and the largest number that was
//! mapped 64 bytes for each number up to it. So eight nodes that each map 4,096 segments of each of eight
//! homes take 2 GiB of words, and between 2 and 5 percent of that beside them.
#![tactic(auto)]

mod headers;
mod segment;
mod segments;
mod store;
#[cfg(test)]
mod tests;

pub use headers::{Clash, Header, Kind, State, kinds_of_fields, words_of_headers};
pub use segment::{HEADER_WORDS, SEGMENT_WORDS};
pub use segments::{PlaceError, Segments};

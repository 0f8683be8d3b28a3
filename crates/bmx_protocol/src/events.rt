//! Events and histories, as data.
use crate::inputs::{Done, Input};
use bmx_types::{Items, NodeNo};

/// One step of one node, and its outcome.
#[derive(Debug, Drop)]
pub struct Event {
    pub node: NodeNo,
    /// The node's logical time after the step; letters issued by it carry it.
    pub stamp: u64,
    pub input: Input,
    pub done: Done,
}

/// Events in the order in which they happened.
pub type History = Items<Event>;

//! A run of a script, and how it ended, as data.
use bmx_node::Node;
use bmx_protocol::History;
use bmx_script::Script;
use bmx_types::{Items, Text};

/// Nodes by their numbers.
pub type Nodes = Items<Node>;

/// A run of a script: its events so far, the nodes after them, and what they print.
#[derive(Drop)]
pub struct Run {
    pub script: Script,
    pub history: History,
    pub nodes: Nodes,
    pub text: Text,
}

/// How a run ended.
#[derive(Clone, Copy, Debug, PartialEq, Eq)]
pub enum RunEnd {
    /// With the last command of the script.
    Ended,
    /// Where no node can do anything more, and a program of the phase isn't done.
    Stuck,
    /// With as many events as it was allowed, before the end of the script.
    Spent,
    /// Before an event that found no memory.
    NoMemory,
}

//! The nodes of one store. One step of one of them is all that changes them.
ghost use Rattle.std.specs.Prelude.{◌≡◌, IfOk, OnErr};
ghost use Rattle.bmx_node.specs.Seen.{FitsInput};
ghost use Rattle.bmx_embedding.specs.Steps.{Steps, seen, first_seen};

use crate::failures::Failure;
use crate::opening::{NODES, node_no, opening};
use bmx_node::Node;
use bmx_protocol::{Done, Input};
use bmx_types::{Name, NoMemory, NodeNo};
use std::alloc::Global;
use std::marker::Model;

/// A node is asked for no step from this clock on.
const LAST_CLOCK: u64 = 1 << 55;

/// The two nodes of the store, by number.
#[derive(Drop)]
pub struct Nodes {
    nodes: Vec<Node>,
}

impl Model for Nodes {
    ghost use Rattle.std.specs.Prelude.{List};
    ghost use Rattle.bmx_node.specs.Stamped.{Stamped};
    ghost use Rattle.bmx_embedding.specs.Steps.{AreNodes};

    ghost Value = { List Stamped };

    ghost view = { λ n. n.nodes.items };

    ghost invariant = { λ n. AreNodes n.nodes.items };
}

impl Nodes {
    /// The nodes as the store opens.
    pub fn open(alloc: Global) -> Result<Nodes, NoMemory>
        ensures { IfOk result (λ nodes. seen nodes ≡ first_seen) }
    {
        let opening = opening(alloc)?;
        let mut nodes = Vec::new(alloc);
        for number in 0..NODES {
            nodes.push(Node::open(alloc, node_no(number), &opening)?)?;
        }
        Ok(Nodes { nodes })
    }

    /// A node does one step. Whatever the failure, the nodes are seen as before.
    pub fn step(&mut self, at: NodeNo, input: &Input) -> Result<Done, Failure>
        requires { FitsInput 1 input.now }
        ensures ok { IfOk result (λ done. Steps self.old at input.now done self.new) }
        ensures err { OnErr result (seen self.new ≡ seen self.old) }
    {
        let number = usize::from(at.get());
        if number >= self.nodes.len() {
            return Err(Failure::NoNode);
        }
        let node = &mut self.nodes[number];
        if node.clock() >= LAST_CLOCK {
            return Err(Failure::Worn);
        }
        let done = node.step(input)?;
        Ok(done)
    }

    /// A node that can serve the head of a queue, and whose: the first in the order of nodes and names.
    pub fn servable(&self) -> Option<(NodeNo, Name)> {
        for number in 0..NODES {
            if let Some(name) = self.nodes[usize::from(number)].serves(0) {
                return Some((node_no(number), name));
            }
        }
        None
    }
}

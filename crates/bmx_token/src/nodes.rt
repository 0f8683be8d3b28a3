//! Rising lists of nodes.
ghost use Rattle.std.specs.Prelude.{◌≡◌, length, nat_lt, take_while, OnOk, OnErr};
ghost use Rattle.bmx_token.specs.Nodes.{nodes_with, nodes_without};

use bmx_types::{NoMemory, NodeNo, NodeNos};

/// How many nodes stand before the place of a node in a rising list.
fn place_of(nodes: &NodeNos, node: NodeNo) -> usize
    ensures { result ≡ length (take_while (λ n. nat_lt n node) nodes.now) }
{
    nodes
        .iter()
        .take_while(|other| other.get() < node.get())
        .count()
}

/// Puts a node to its place in a rising list, once.
pub(crate) fn join(nodes: &mut NodeNos, node: NodeNo) -> Result<(), NoMemory>
    ensures ok { OnOk result (nodes.new ≡ nodes_with node nodes.old) }
    ensures err { OnErr result (nodes.new ≡ nodes.old) }
{
    let place = place_of(nodes, node);
    if place < nodes.len() && *nodes.at(place) == node {
        return Ok(());
    }
    nodes.insert(place, node)
}

/// Takes a node out of a list.
pub(crate) fn leave(nodes: &mut NodeNos, node: NodeNo)
    ensures { nodes.new ≡ nodes_without node nodes.old }
{
    let mut place = 0;
    while place < nodes.len() {
        if *nodes.at(place) == node {
            nodes.remove(place);
        } else {
            place += 1;
        }
    }
}

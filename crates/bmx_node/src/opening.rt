//! What a node has as the store opens.
ghost use Rattle.std.specs.Prelude.{◌≡◌, ◌<◌, IfOk};
ghost use Rattle.bmx_types.specs.Openings.{bunches_of};
ghost use Rattle.bmx_protocol.specs.Steps.{first_node};
ghost use Rattle.bmx_memory.specs.Shown.{shown};
ghost use Rattle.bmx_node.specs.Openings.{setting_of};
ghost use Rattle.bmx_node.specs.Seen.{node_of, Suits};
ghost use Rattle.bmx_node.specs.Inside.Births.{owner_shown};
ghost use Rattle.bmx_node.specs.Inside.Others.{Opens};

use crate::births::{bunches_of, owner_memory};
use crate::holdings::Holdings;
use crate::node::Node;
use crate::others::{heard_memory, heard_tokens, owner_tokens};
use crate::strays::Dimensions;
use bmx_mail::Mail;
use bmx_memory::Memory;
use bmx_types::{NoMemory, NodeNo, Opening};
use std::alloc::Global;

impl Node {
    /// A node of a store as it opens. Node 0 owns all that is born, and the others have heard of the anchors.
    /// Linear in bunches times births.
    pub fn open(alloc: Global, me: NodeNo, opening: &Opening) -> Result<Node, NoMemory>
        requires { me < opening.now.nodes }
        ensures node { IfOk result (λ n. node_of n.holdings ≡ first_node (setting_of opening.now) me) }
        ensures me { IfOk result (λ n. n.holdings.me ≡ me) }
        ensures suits { IfOk result (λ n. Suits (setting_of opening.now) n.holdings) }
        ensures stamp { IfOk result (λ n. n.stamp ≡ 0) }
    {
        let holdings = first_holdings(alloc, me, opening)?;
        Ok(Node { holdings, stamp: 0 })
    }
}

/// What a node has as the store opens. Linear in bunches times births.
fn first_holdings(alloc: Global, me: NodeNo, opening: &Opening) -> Result<Holdings, NoMemory>
    requires { me < opening.now.nodes }
    ensures { IfOk result (λ h. Opens (setting_of opening.now) me h) }
{
    let bunches = bunches_of(opening.births.as_slice());
    let born = owner_memory(alloc, opening)?;
    if me.get() == 0 {
        owner_holdings(alloc, opening, bunches, born)
    } else {
        heard_holdings(alloc, me, opening, bunches, &born)
    }
}

/// What node 0 has as the store opens: all that is born. Linear.
fn owner_holdings(
    alloc: Global,
    opening: &Opening,
    bunches: u8,
    memory: Memory,
) -> Result<Holdings, NoMemory>
    requires bunches { bunches ≡ bunches_of opening.now.births }
    requires born { shown memory ≡ owner_shown (setting_of opening.now) }
    ensures { IfOk result (λ h. Opens (setting_of opening.now) 0 h) }
{
    let me = NodeNo::new(0).unwrap();
    let tokens = owner_tokens(alloc, opening)?;
    let mail = Mail::open(alloc, me, opening, bunches)?;
    Ok(Holdings {
        store: Dimensions {
            nodes: opening.nodes,
            bunches,
        },
        me,
        alloc,
        memory,
        tokens,
        mail,
        clock: 0,
        made: opening.births.len() as u64,
    })
}

/// What another node has as the store opens: it has heard of the anchors. Linear in the bunches.
fn heard_holdings(
    alloc: Global,
    me: NodeNo,
    opening: &Opening,
    bunches: u8,
    born: &Memory,
) -> Result<Holdings, NoMemory>
    requires other { 0 < me }
    requires there { me < opening.now.nodes }
    requires bunches { bunches ≡ bunches_of opening.now.births }
    requires born { shown born.now ≡ owner_shown (setting_of opening.now) }
    ensures { IfOk result (λ h. Opens (setting_of opening.now) me h) }
{
    let memory = heard_memory(alloc, me, opening, bunches, born)?;
    let tokens = heard_tokens(alloc, me, opening, bunches)?;
    let mail = Mail::open(alloc, me, opening, bunches)?;
    Ok(Holdings {
        store: Dimensions {
            nodes: opening.nodes,
            bunches,
        },
        me,
        alloc,
        memory,
        tokens,
        mail,
        clock: 0,
        made: 0,
    })
}

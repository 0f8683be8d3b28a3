//! What the store opens with.
ghost use Rattle.std.specs.Prelude.{◌≡◌, ◌<◌, IfOk};
ghost use Rattle.bmx_node.specs.Openings.{setting_of};
ghost use Rattle.bmx_embedding.specs.Settings.{the_setting, the_anchor};

use bmx_types::{Birth, BunchNo, Items, Name, NoMemory, NodeNo, Opening, Val};
use std::alloc::Global;

/// How many nodes the store has.
pub const NODES: u8 = 2;

/// How many segments of 8 KiB each may make.
const SEGMENTS: u32 = 4;

/// How many fields an anchor has.
const ANCHOR_SIZE: usize = 32;

/// The node of a number.
pub fn node_no(number: u8) -> NodeNo
    requires { number < 8 }
    ensures { result ≡ number }
{
    NodeNo::new(number).unwrap()
}

/// The store's one bunch.
pub fn main_bunch() -> BunchNo
    ensures { result ≡ 0 }
{
    BunchNo::new(0).unwrap()
}

/// Two nodes, and one bunch, whose anchor node 0 has.
pub fn opening(alloc: Global) -> Result<Opening, NoMemory>
    ensures { IfOk result (λ o. setting_of o ≡ the_setting) }
{
    let mut births = Items::new(alloc);
    births.push(anchor(alloc)?)?;
    Ok(Opening {
        nodes: NODES,
        limit: SEGMENTS,
        births,
    })
}

/// The bunch's anchor, with null fields: the first name that node 0 makes.
fn anchor(alloc: Global) -> Result<Birth, NoMemory>
    ensures { IfOk result (λ b. b ≡ the_anchor) }
{
    let fields = Vec::from_elem(alloc, Val::Null, ANCHOR_SIZE)?;
    Ok(Birth {
        name: Name::new(node_no(0), 1).unwrap(),
        bunch: main_bunch(),
        fields: Items::from_vec(fields),
    })
}

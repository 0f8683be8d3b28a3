//! What the store of a script opens with.
ghost use Rattle.std.specs.Prelude.{◌≡◌, ◌<◌, ◌≤◌, replicate, IfOk};
ghost use Rattle.bmx_node.specs.Openings.{setting_of};
ghost use Rattle.bmx_world.specs.Scripts.{anchor_size, anchor_birth, anchors as anchors_lem, setting_of_script};

use bmx_script::Script;
use bmx_types::{Birth, Births, BunchNo, Items, Name, NoMemory, NodeNo, Opening, Val};
use std::alloc::Global;

/// How many fields an anchor has.
const ANCHOR_SIZE: usize = 32;

/// What the store of a script opens with: its nodes, how many segments each may make, and at node 0 an anchor
/// for each bunch. Linear in the bunches.
pub fn opening(alloc: Global, script: &Script) -> Result<Opening, NoMemory>
    ensures { IfOk result (λ o. setting_of o ≡ setting_of_script script.now) }
{
    let bunches = script.bunches().len() as u8;
    Ok(Opening {
        nodes: script.nodes(),
        limit: script.limit(),
        births: anchors(alloc, bunches)?,
    })
}

/// The anchors of the first so many bunches.
fn anchors(alloc: Global, bunches: u8) -> Result<Births, NoMemory>
    requires { bunches ≤ 16 }
    ensures { IfOk result (λ births. births ≡ anchors_lem bunches) }
{
    let mut births = Items::new(alloc);
    for bunch in 0..bunches {
        births.push(anchor(alloc, bunch)?)?;
    }
    Ok(births)
}

/// The anchor of a bunch, with null fields.
fn anchor(alloc: Global, bunch: u8) -> Result<Birth, NoMemory>
    requires { bunch < 16 }
    ensures { IfOk result (λ birth. birth ≡ anchor_birth bunch) }
{
    let owner = NodeNo::new(0).unwrap();
    let fields = Vec::from_elem(alloc, Val::Null, ANCHOR_SIZE)?;
    Ok(Birth {
        name: Name::new(owner, u64::from(bunch) + 1).unwrap(),
        bunch: BunchNo::new(bunch).unwrap(),
        fields: Items::from_vec(fields),
    })
}

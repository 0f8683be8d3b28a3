//! What no clause says of a node: that the steps, letters, stamps and views of whole histories are those of a model
//! of the rules, and which letters from outside are stray.

ghost use Rattle.std.specs.Prelude.{◌≡◌, ◌+◌, ◌<◌, ◌≤◌, replicate, IfOk};
ghost use Rattle.bmx_node.specs.Seen.{FitsInput};
ghost use Rattle.bmx_types.specs.declared.commands.Operand.TheVariants.{Anchor};
ghost use Rattle.bmx_types.specs.declared.values.Val.TheVariants.{Null};

mod histories;
mod letters;
mod words;

use crate::Node;
use bmx_protocol::{Done, Input};
use bmx_types::{Birth, BunchNo, Items, Name, NoMemory, NodeNo, Opening, Operand, Val};
use std::alloc::Global;
use std::process::Abort;

/// The anchor of a bunch as it is born.
fn anchor_born(alloc: Global, bunch: u8) -> Result<Birth, NoMemory>
    requires { bunch < 16 }
    ensures { IfOk result (λ b. b ≡ record { name = bunch + 1; bunch = bunch; fields = replicate 32 Null }) }
{
    let owner = NodeNo::new(0).unwrap();
    let fields = Vec::from_elem(alloc, Val::Null, 32)?;
    Ok(Birth {
        name: Name::new(owner, bunch as u64 + 1).unwrap(),
        bunch: BunchNo::new(bunch).unwrap(),
        fields: Items::from_vec(fields),
    })
}

/// An opening of so many nodes and one bunch, whose anchor is the only object.
fn one_bunch(alloc: Global, nodes: u8) -> Result<Opening, NoMemory>
    requires { (0 < nodes) × (nodes ≤ 8) }
    ensures { IfOk result (λ o. o.nodes ≡ nodes) }
{
    let owner = NodeNo::new(0).unwrap();
    let fields = Vec::from_elem(alloc, Val::Null, 32)?;
    let anchor = Birth {
        name: Name::new(owner, 1).unwrap(),
        bunch: BunchNo::new(0).unwrap(),
        fields: Items::from_vec(fields),
    };
    let mut births = Items::new(alloc);
    births.push(anchor)?;
    Ok(Opening {
        nodes,
        limit: 1,
        births,
    })
}

/// An opening of two nodes and two bunches, whose anchors are the only objects.
fn two_bunches(alloc: Global) -> Result<Opening, NoMemory>
    ensures { IfOk result (λ o. o.nodes ≡ 2) }
{
    let mut births = Items::new(alloc);
    births.push(anchor_born(alloc, 0)?)?;
    births.push(anchor_born(alloc, 1)?)?;
    Ok(Opening {
        nodes: 2,
        limit: 1,
        births,
    })
}

/// The anchor of bunch 0.
fn anchor() -> Operand
    ensures { result ≡ Anchor 0 }
{
    Operand::Anchor(BunchNo::new(0).unwrap())
}

/// What a step of a node of a store of so many bunches comes to.
fn step(rt: &impl Abort, bunches: u8, node: &mut Node, input: &Input) -> Result<Done, NoMemory>
    requires { FitsInput bunches input.now }
{
    assert!(rt; node.clock() < 1 << 55 && node.holdings.store.bunches == bunches);
    node.step(input)
}

//! The records and counts that a store opens with.
ghost use Rattle.std.specs.Prelude.{◌≡◌, ℕ, ◌+◌, ◌<◌, ◌≤◌, [], None, IfOk, OnOk};
ghost use Rattle.bmx_types.specs.Openings.{bunches_of};
ghost use Rattle.bmx_protocol.specs.Nodes.{first_entering};
ghost use Rattle.bmx_mail.specs.Mails.{entering_of, issued_of, taken_of};
ghost use Rattle.bmx_mail.specs.Inside.Anchors.{with_anchor, anchors_entering};

use crate::mail::Mail;
use bmx_types::{BunchNo, Name, NoMemory, NodeNo, Opening};
use std::alloc::Global;

impl Mail {
    /// A node's mail as its store opens, with so many bunches: node 0 gave each anchor to each other node, by no
    /// letter. Linear in nodes times bunches.
    pub fn open(alloc: Global, me: NodeNo, opening: &Opening, bunches: u8) -> Result<Mail, NoMemory>
        requires { bunches ≡ bunches_of opening.now.births }
        ensures entering { IfOk result (λ mail. entering_of mail ≡ first_entering (record { nodes = opening.now.nodes; limit = opening.now.limit; births = opening.now.births }) me) }
        ensures issued { IfOk result (λ mail. issued_of mail ≡ (λ _. 0)) }
        ensures taken { IfOk result (λ mail. taken_of mail ≡ (λ _. 0)) }
    {
        if me.get() == 0 {
            first(alloc, opening.nodes, bunches)
        } else {
            Ok(Mail::new(alloc))
        }
    }
}

/// Node 0's mail in a store of so many nodes and bunches.
fn first(alloc: Global, nodes: u8, bunches: u8) -> Result<Mail, NoMemory>
    requires nodes { (0 < nodes) × (nodes ≤ 8) }
    requires bunches { bunches ≤ 16 }
    ensures entering { IfOk result (λ mail. entering_of mail ≡ anchors_entering nodes bunches) }
    ensures issued { IfOk result (λ mail. issued_of mail ≡ (λ _. 0)) }
    ensures taken { IfOk result (λ mail. taken_of mail ≡ (λ _. 0)) }
{
    let mut mail = Mail::new(alloc);
    for bunch in 0..bunches {
        mail.reserve(nodes as u32)?;
        enter_anchor(&mut mail, nodes, bunch);
    }
    Ok(mail)
}

/// The anchor of a bunch is given to each other node.
fn enter_anchor(mail: &mut Mail, nodes: u8, bunch: u8)
    requires nodes { (0 < nodes) × (nodes ≤ 8) }
    requires bunch { bunch < 16 }
    requires spare { nodes ≤ mail.old.spare }
    requires none { (node : ℕ) → entering_of mail.old (bunch + 1) node ≡ None }
    ensures entering { entering_of mail.new ≡ with_anchor (entering_of mail.old) nodes bunch }
    ensures rest { mail.new ≡ record mail.old { records = mail.new.records; spare = mail.new.spare } }
{
    let Some(name) = Name::from_word(bunch as u64 + 1) else {
        unreachable!()
    };
    let Some(bunch) = BunchNo::new(bunch) else {
        unreachable!()
    };
    for number in 1..nodes {
        let Some(node) = NodeNo::new(number) else {
            unreachable!()
        };
        mail.enter(name, bunch, node);
    }
}

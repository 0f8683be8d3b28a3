//! What commands mean, by the parts of a graph. It changes nothing.
ghost use Rattle.std.specs.Prelude.{◌≡◌, ◌+◌, ◌*◌, ◌<◌, ◌∷◌, replicate};
ghost use Rattle.bmx_types.specs.Words.{anchor_of};
ghost use Rattle.bmx_graph.specs.Step.{sum_of};
ghost use Rattle.bmx_graph.specs.Inside.Parts.{permits, excludes};

use bmx_types::{Mode, Name, NodeNo, Val};

/// Where a node's register stands among those of all nodes.
pub fn register_place(node: NodeNo, register: u8) -> usize
    requires { register < 16 }
    ensures place { result ≡ 16 * node + register }
    ensures bound { result < 128 }
{
    16 * node.get() as usize + register as usize
}

/// All registers null.
pub fn null_registers() -> [Val; 128]
    ensures { result ≡ replicate 128 Val.Null }
{
    [Val::Null; 128]
}

/// How many names each node has made where node 0 has made so many, and no other any.
pub fn first_counts(of_node_0: usize) -> [u64; 8]
    ensures { result ≡ of_node_0 ∷ replicate 7 0 }
{
    [of_node_0 as u64, 0, 0, 0, 0, 0, 0, 0]
}

/// The name of the anchor of the bunch with that number.
pub fn anchor(bunch: u8) -> Name
    ensures { result ≡ anchor_of bunch }
{
    Name::from_word(bunch as u64 + 1).unwrap()
}

/// Whether a hold gives the right to use an object so.
pub fn permits(hold: Option<Mode>, use_as: Mode) -> bool
    ensures { result ≡ permits use_as hold }
{
    match use_as {
        Mode::Read => hold.is_some(),
        Mode::Write => hold == Some(Mode::Write),
    }
}

/// Whether a hold keeps other nodes from taking the token so.
pub fn excludes(hold: Option<Mode>, wanted: Mode) -> bool
    ensures { result ≡ excludes wanted hold }
{
    match wanted {
        Mode::Read => hold == Some(Mode::Write),
        Mode::Write => hold.is_some(),
    }
}

/// A field and a number together, None where the field is no number or the sum is no i64.
pub fn sum(field: Val, by: i64) -> Option<i64>
    ensures { result ≡ sum_of field by }
{
    match field {
        Val::Int(number) => number.checked_add(by),
        Val::Null | Val::Ref(_) => None,
    }
}

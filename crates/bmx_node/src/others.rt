//! The tokens that a store opens with, and what a node other than node 0 has heard of.
ghost use Rattle.std.specs.Prelude.{◌≡◌, ℕ, ◌<◌, ◌≤◌, if◌then◌else◌, length, filter, Some, None, IfOk};
ghost use Rattle.std.specs.Option.{option_map};
ghost use Rattle.bmx_types.specs.Openings.{bunches_of};
ghost use Rattle.bmx_token.specs.Tokens.{owner_part, child_part};
ghost use Rattle.bmx_protocol.specs.Nodes.{is_anchor, birth_of};
ghost use Rattle.bmx_memory.specs.Shown.{shown};
ghost use Rattle.bmx_tokens.specs.Tables.{part_of};
ghost use Rattle.bmx_node.specs.Inside.Births.{setting_of, owner_shown};
ghost use Rattle.bmx_node.specs.Inside.Others.{heard_memory};

use bmx_memory::Memory;
use bmx_token::Part;
use bmx_tokens::Tokens;
use bmx_types::{Birth, NoMemory, NodeNo, Opening};
use std::alloc::Global;

/// The anchors of the bunches, which are born first.
fn anchors(opening: &Opening, bunches: u8) -> &[Birth]
    requires { bunches ≡ bunches_of opening.now.births }
    ensures anchors { result.now ≡ filter (λ b. is_anchor (setting_of opening.now) b.name) opening.now.births }
    ensures few { length result.now ≤ bunches }
{
    &opening.births.as_slice()[..bunches as usize]
}

/// The tokens of node 0 as the store opens: it owns all that is born. Linear.
pub(crate) fn owner_tokens(alloc: Global, opening: &Opening) -> Result<Tokens, NoMemory>
    ensures me { IfOk result (λ t. t.me ≡ 0) }
    ensures parts { IfOk result (λ t. (name : ℕ) → part_of t name ≡ option_map (λ b. owner_part) (birth_of (setting_of opening.now) name)) }
{
    let owner = NodeNo::new(0).unwrap();
    let births = opening.births.as_slice();
    let mut tokens = Tokens::new(alloc, owner);
    tokens.reserve(births.len())?;
    for birth in births {
        tokens.add(birth.name, Part::owner(alloc));
    }
    Ok(tokens)
}

/// The tokens of another node as the store opens: it asks node 0 for the anchors. Linear in the bunches.
pub(crate) fn heard_tokens(
    alloc: Global,
    me: NodeNo,
    opening: &Opening,
    bunches: u8,
) -> Result<Tokens, NoMemory>
    requires { bunches ≡ bunches_of opening.now.births }
    ensures me { IfOk result (λ t. t.me ≡ me) }
    ensures parts { IfOk result (λ t. (name : ℕ) → part_of t name ≡ (if is_anchor (setting_of opening.now) name then option_map (λ b. child_part 0) (birth_of (setting_of opening.now) name) else None)) }
{
    let owner = NodeNo::new(0).unwrap();
    let anchors = anchors(opening, bunches);
    let mut tokens = Tokens::new(alloc, me);
    tokens.reserve(anchors.len())?;
    for birth in anchors {
        tokens.add(birth.name, Part::child(alloc, owner));
    }
    Ok(tokens)
}

/// The objects of another node as the store opens: it has heard of the anchors, where node 0 has them. Linear in the
/// bunches.
pub(crate) fn heard_memory(
    alloc: Global,
    me: NodeNo,
    opening: &Opening,
    bunches: u8,
    born: &Memory,
) -> Result<Memory, NoMemory>
    requires other { 0 < me }
    requires bunches { bunches ≡ bunches_of opening.now.births }
    requires born { shown born.now ≡ owner_shown (setting_of opening.now) }
    ensures { IfOk result (λ m. shown m ≡ heard_memory me (setting_of opening.now)) }
{
    let anchors = anchors(opening, bunches);
    let mut memory = Memory::new(alloc, me, opening.limit);
    memory.reserve(bunches as u32)?;
    for birth in anchors {
        let Some(info) = born.info(birth.name) else {
            unreachable!()
        };
        memory.learn(&info);
    }
    Ok(memory)
}

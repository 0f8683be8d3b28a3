//! What each field of an object refers to.
ghost use Rattle.std.specs.Prelude.{◌≡◌, ℕ, ◌≤◌, None, slice_index_or};
ghost use Rattle.bmx_mark.specs.Inside.Targets.{is_above, is_below, lower, IsLeast};

use crate::edges::Edges;
use bmx_types::Name;

/// The most fields that an object has.
const MOST_FIELDS: usize = 32;

/// What each field of an object refers to.
pub type Targets = [Option<Name>; MOST_FIELDS];

/// What each field of a name's copy refers to in its bunch, None from its size on.
pub fn targets_of<E: Edges>(edges: &E, name: Name) -> Targets
    ensures targets { (i : ℕ) → slice_index_or result i None ≡ E.target_of edges.now name i }
    ensures few { (i : ℕ) → 32 ≤ i → E.target_of edges.now name i ≡ None }
{
    let mut targets = [None; MOST_FIELDS];
    for i in 0..MOST_FIELDS {
        targets[i] = edges.target(name, i as u8);
    }
    targets
}

/// The least of the targets whose word is above the floor, or of all where that is None.
pub fn least_above(targets: &Targets, floor: Option<u64>) -> Option<Name>
    ensures { IsLeast (λ i. slice_index_or targets.now i None) 32 floor result }
{
    let mut least = None;
    for target in targets {
        least = lower(least, target, floor);
    }
    least
}

/// The least target so far, or another one where that is lower and above the floor.
fn lower(least: Option<Name>, target: &Option<Name>, floor: Option<u64>) -> Option<Name>
    ensures { result ≡ lower floor least target.now }
{
    if let Some(name) = target {
        if is_above(*name, floor) && is_below(*name, &least) {
            return Some(*name);
        }
    }
    least
}

/// Whether a name is above the floor, if there is one.
fn is_above(name: Name, floor: Option<u64>) -> bool
    ensures { result ≡ is_above floor name }
{
    match floor {
        Some(floor) => floor < name.word(),
        None => true,
    }
}

/// Whether a name is below the least one so far, if there is one.
fn is_below(name: Name, least: &Option<Name>) -> bool
    ensures { result ≡ is_below least.now name }
{
    match least {
        Some(least) => name.word() < least.word(),
        None => true,
    }
}

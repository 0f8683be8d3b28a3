//! What a mark asks of the objects that it walks over.
ghost use Rattle.std.specs.Prelude.{◌≡◌, ℕ, ◌≤◌, Bool, List, Option, None, slice_get};
ghost use Rattle.std.specs.List.Sorted.{IsStrictlyIncreasing};

use bmx_types::{BunchNo, Name};

/// The roots of each bunch at a node, and the references within a bunch in the copies there. An object
/// has at most 32 fields.
pub trait Edges {
    // The roots of a bunch.
    ghost roots: { Self → ℕ → List ℕ };

    // The name of its own bunch to which a field of an object refers.
    ghost target_of: { Self → ℕ → ℕ → Option ℕ };

    /// The i-th root of the bunch, from 0, by rising name; None from their number on.
    fn root(&self, bunch: BunchNo, i: u64) -> Option<Name>
        ensures value { result ≡ slice_get (roots self.now bunch) i }
        ensures rising { IsStrictlyIncreasing (roots self.now bunch) };

    /// The name to which field i of the name's copy refers; None where that is no reference of the same
    /// bunch, or there is no copy.
    fn target(&self, name: Name, i: u8) -> Option<Name>
        ensures value { result ≡ target_of self.now name i }
        ensures few { (j : ℕ) → 32 ≤ j → target_of self.now name j ≡ None };
}

/// What a collection keeps, and what its objects refer to, in their own bunch and in others.
pub trait Keeps {
    // The names that are kept.
    ghost is_kept: { Self → ℕ → Bool };

    // The references in the copies here: a source, and a target in one of its fields.
    ghost is_held: { Self → ℕ → ℕ → Bool };

    /// Whether the name is kept.
    fn kept(&self, name: Name) -> bool
        ensures { result ≡ is_kept self.now name };

    /// Whether the copy of the source has the target in a field.
    fn holds(&self, source: Name, target: Name) -> bool
        ensures { result ≡ is_held self.now source target };
}

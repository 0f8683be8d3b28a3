//! What a store of a reference owes to collections. It changes nothing.
ghost use Rattle.std.specs.Prelude.{◌≡◌, ◌≢◌, ◌-◌, ◌^◌, ◌↔◌, IsTrue, Some, count_by, min};
ghost use Rattle.bmx_barrier.specs.Barrier.{needs_pair};

use bmx_msg::{Field, Fields};
use bmx_types::BunchNo;

/// Whether a reference stored in an object of the bunch to one of the bunch `target` needs a stub and a
/// scion: it leads into another bunch.
pub fn on_store(bunch: BunchNo, target: BunchNo) -> bool
    ensures { IsTrue result ↔ (bunch ≢ target) }
{
    bunch != target
}

/// Whether a name of the bunch must become grey where it becomes a root or is stored in a marked copy: a
/// collection of that bunch, and not of another one, is active.
pub fn must_grey(active: Option<BunchNo>, bunch: BunchNo) -> bool
    ensures { IsTrue result ↔ (active ≡ Some bunch) }
{
    active == Some(bunch)
}

/// How many of the fields of an object of the bunch need a stub and a scion; so many are enough room for
/// them. An object has at most 32; the count of a longer list stands still at the last `u32`. One pass, and no
/// memory.
pub fn count_pairs(bunch: BunchNo, fields: &Fields) -> u32
    ensures { result ≡ min (count_by (needs_pair bunch) fields.now) (2 ^ 32 - 1) }
{
    pairs_in(bunch, fields.as_slice()).min(u32::MAX as usize) as u32
}

/// How many of the fields need a stub and a scion.
fn pairs_in(bunch: BunchNo, fields: &[Field]) -> usize
    ensures { result ≡ count_by (needs_pair bunch) fields.now }
{
    fields.iter().filter(|f| needs_pair(bunch, **f)).count()
}

/// Whether what is stored in a field of an object of the bunch needs a stub and a scion.
fn needs_pair(bunch: BunchNo, field: Field) -> bool
    ensures { result ≡ needs_pair bunch field }
{
    match field {
        Field::Ref(info) => on_store(bunch, info.bunch),
        Field::Null | Field::Int(_) => false,
    }
}

#[cfg(test)]
mod tests;

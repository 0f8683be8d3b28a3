//! The fields of an object in its segment.
ghost use Rattle.std.specs.Prelude.{◌≡◌, ℕ, ◌+◌, ◌*◌, ◌^◌, ◌<◌, ◌≤◌, true, slice_index, Some};
ghost use Rattle.bmx_segment.specs.Headers.{kind_number, kind_of};
ghost use Rattle.bmx_segment.specs.Stores.{header_at, word_at};
ghost use Rattle.bmx_replica.specs.Chains.{is_live};

use bmx_segment::{Header, Kind, Segments};
use bmx_types::Address;

/// The most fields that an object has.
pub(crate) const FIELDS: usize = 32;

/// The words of null fields.
pub(crate) const NO_WORDS: [u64; FIELDS] = [0; FIELDS];

/// The kind of a field among the kind bits of an object. No field of a replica is of a fourth kind.
pub(crate) fn kind_in(kinds: u64, i: u8) -> Kind
    requires few { i < 32 }
    requires known { kind_of kinds i < 3 }
    ensures { kind_number result ≡ kind_of kinds i }
{
    match kinds / (1 << (2 * i)) % 4 {
        0 => Kind::Null,
        1 => Kind::Int,
        2 => Kind::Ref,
        _ => unreachable!(),
    }
}

/// The two bits of a kind.
fn number(kind: Kind) -> u64
    ensures value { result ≡ kind_number kind }
    ensures bound { result < 4 }
{
    match kind {
        Kind::Null => 0,
        Kind::Int => 1,
        Kind::Ref => 2,
        Kind::Far => 3,
    }
}

/// The bits of a kind among those of an object, at field i.
pub(crate) fn kind_bits(kind: Kind, i: usize) -> u64
    requires { i < 32 }
    ensures { result ≡ kind_number kind * 2 ^ (2 * i) }
{
    number(kind) << (2 * i)
}

/// The field words of the live object whose header stands at an address, and 0 behind them.
pub(crate) fn field_words(segments: &Segments, at: Address, header: &Header) -> [u64; FIELDS]
    requires there { header_at segments.now.blocks at ≡ Some header.now }
    requires live { is_live header.now.state ≡ true }
    requires few { header.now.size ≤ 32 }
    ensures { (i : ℕ) → i < header.now.size → slice_index result i ≡ word_at segments.now.blocks (at + 4 + i) }
{
    let mut words = [0; FIELDS];
    for i in 0..header.size {
        words[i as usize] = segments.word(at, i);
    }
    words
}

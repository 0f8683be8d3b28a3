//! An object's header as the word of its mark.
ghost use Rattle.std.specs.Prelude.{◌≡◌, ℕ, ◌+◌, ◌*◌, ◌/◌, ◌%◌, ◌^◌, ◌<◌, ◌≤◌, ◌==◌, if◌then◌else◌};
ghost use Rattle.bmx_segment.specs.declared.headers.Kind.{Kind as KindOf};
ghost use Rattle.bmx_types.specs.Words.{IsName, IsAddress};
ghost use Rattle.bmx_segment.specs.declared.headers.Header.{Header};
ghost use Rattle.bmx_segment.specs.Headers.{mark_of, third_of, fourth_of, header_of, state_in, size_in, held_moves, state_number, live_number, IsHeader, IsHeaderWords, kind_number, kind_of, with_kind};

use bmx_types::{Address, BunchNo, Name};

/// The top 16 bits of every mark, in place.
const MARK: u64 = 0xb3a0 << 48;

/// Where the size and the state stand in a mark, above the bunch; each takes a byte.
const SIZE_UNIT: u64 = 1 << 8;

const STATE_UNIT: u64 = 1 << 16;

const BYTE: u64 = 1 << 8;

/// The numbers of the states in a mark.
const LIVE: u64 = 1;

const FORWARDED: u64 = 2;

const DEAD: u64 = 3;

/// What has become of an object's copy.
#[derive(Clone, Copy, Debug, PartialEq, Eq)]
pub enum State {
    /// It stands here: how often the object has moved, and two bits for the kind of each field.
    Live { moves: u64, kinds: u64 },
    /// It stands elsewhere.
    Forwarded { to: Address },
    /// It was forgotten.
    Dead,
}

impl State {
    /// Its number in a mark.
    fn number(&self) -> u64
        ensures value { result ≡ state_number self.now }
        ensures range { (0 < result) × (result < 4) }
    {
        match self {
            State::Live { .. } => LIVE,
            State::Forwarded { .. } => FORWARDED,
            State::Dead => DEAD,
        }
    }

    /// 1 where the object stands here, else 0.
    pub(crate) fn live(&self) -> u32
        ensures value { result ≡ live_number self.now }
        ensures one { result ≤ 1 }
    {
        match self {
            State::Live { .. } => 1,
            State::Forwarded { .. } | State::Dead => 0,
        }
    }

    /// The third word of a header in this state, where it holds those moves so far.
    pub(crate) fn third(&self, held: u64) -> u64
        ensures value { result ≡ third_of self.now held }
        ensures leads { state_number self.now ≡ 2 → IsAddress (third_of self.now 0) }
    {
        match self {
            State::Live { moves, .. } => *moves,
            State::Forwarded { to } => to.word(),
            State::Dead => held,
        }
    }

    /// The fourth word of a header in this state, where that word holds `held` so far.
    pub(crate) fn fourth(&self, held: u64) -> u64
        ensures { result ≡ fourth_of self.now held }
    {
        match self {
            State::Live { kinds, .. } => *kinds,
            State::Forwarded { .. } => held,
            State::Dead => held,
        }
    }
}

/// How many fields a header has, by its first word.
pub(crate) fn size_in(mark: u64) -> usize
    ensures { result ≡ size_in mark }
{
    (mark / SIZE_UNIT % BYTE) as usize
}

/// 1 where the mark is that of a live header, else 0.
pub(crate) fn live_in_mark(mark: u64) -> u32
    ensures value { result ≡ (if state_in mark == 1 then 1 else 0) }
    ensures one { result ≤ 1 }
{
    if mark / STATE_UNIT % BYTE == LIVE {
        1
    } else {
        0
    }
}

/// The moves among the first and the third word of a header, which a forwarded one has not: it counts as
/// unmoved.
pub(crate) fn held_moves(mark: u64, third: u64) -> u64
    ensures { result ≡ held_moves mark third }
{
    if mark / STATE_UNIT % BYTE == FORWARDED {
        0
    } else {
        third
    }
}

/// What the four words in front of an object's fields say.
#[derive(Clone, Copy, Debug, PartialEq, Eq)]
pub struct Header {
    pub bunch: BunchNo,
    /// How many fields follow, from 0 to 32.
    pub size: u8,
    pub name: Name,
    pub state: State,
}

impl Header {
    /// Its first word.
    pub(crate) fn mark(&self) -> u64
        requires { self.now.size ≤ 32 }
        ensures value { result ≡ mark_of self.now }
        ensures bunch { self.now.bunch < 16 }
    {
        MARK + self.state.number() * STATE_UNIT
            + self.size as u64 * SIZE_UNIT
            + self.bunch.get() as u64
    }

    /// The header of those words.
    pub(crate) fn from_words(mark: u64, name: u64, third: u64, fourth: u64) -> Header
        requires { IsHeaderWords mark name third fourth }
        ensures { result ≡ header_of mark name third fourth }
    {
        let bunch = BunchNo::new((mark % BYTE) as u8);
        let (Some(bunch), Some(name)) = (bunch, Name::from_word(name)) else {
            unreachable!()
        };
        let size = (mark / SIZE_UNIT % BYTE) as u8;
        let state = match mark / STATE_UNIT % BYTE {
            LIVE => State::Live {
                moves: third,
                kinds: fourth,
            },
            FORWARDED => {
                let Some(to) = Address::from_word(third) else {
                    unreachable!()
                };
                State::Forwarded { to }
            }
            _ => State::Dead,
        };
        Header {
            bunch,
            size,
            name,
            state,
        }
    }
}

/// A law: the words of a header are read as that header, and words that are read as a header are its
/// words. A dead header's third word and the fourth of one that isn't live are what they held before.
pub fn words_of_headers()
    ensures read { (h : Header) (third fourth : ℕ) → IsHeader h → header_of (mark_of h) h.name (third_of h.state third) (fourth_of h.state fourth) ≡ h }
    ensures written { (mark name third fourth : ℕ) → IsHeaderWords mark name third fourth → (mark_of (header_of mark name third fourth) ≡ mark) × (third_of (header_of mark name third fourth).state third ≡ third) × (fourth_of (header_of mark name third fourth).state fourth ≡ fourth) }
{}

/// A law: with the kind of one field replaced, that field has it and each other the one that it had, and
/// kinds of so many fields stay kinds of so many.
pub fn kinds_of_fields()
    ensures read { (kinds i : ℕ) (kind : KindOf) (j : ℕ) → kind_of (with_kind kinds i (kind_number kind)) j ≡ (if j == i then kind_number kind else kind_of kinds j) }
    ensures few { (kinds i : ℕ) (kind : KindOf) (size : ℕ) → i < size → kinds < 2 ^ (2 * size) → with_kind kinds i (kind_number kind) < 2 ^ (2 * size) }
{}

/// A header can't be set there.
#[derive(Clone, Copy, Debug, PartialEq, Eq)]
pub struct Clash;

/// What a field holds: nothing, a number, the address of an object, or the name of an object that
/// has no address here.
#[derive(Clone, Copy, Debug, PartialEq, Eq)]
pub enum Kind {
    Null,
    Int,
    Ref,
    Far,
}

impl Kind {
    /// Its two bits.
    pub(crate) fn number(&self) -> u64
        ensures value { result ≡ kind_number self.now }
        ensures bound { result < 4 }
    {
        match self {
            Kind::Null => 0,
            Kind::Int => 1,
            Kind::Ref => 2,
            Kind::Far => 3,
        }
    }

    /// The kinds of the fields of an object, with this one for a field.
    pub(crate) fn put(&self, field: usize, kinds: u64) -> u64
        requires { field < 32 }
        ensures { result ≡ with_kind kinds field (kind_number self.now) }
    {
        let number = self.number();
        let unit = 1 << (2 * field);
        let high = kinds / unit / 4 * 4 + number;
        let low = kinds % unit;
        high * unit + low
    }
}

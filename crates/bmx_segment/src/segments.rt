//! The segments of one node: made, mapped, filled and dropped. Only here do they change.
ghost use Rattle.std.specs.Prelude.{◌≡◌, ◌≢◌, ◌⊎◌, ℕ, ◌+◌, ◌-◌, ◌*◌, ◌^◌, ◌<◌, ◌≤◌, ◌↔◌, List, [], ◌∷◌, ◌++◌, length, slice_index, max, replicate, slice_set, IsTrue, IsOk, IsErr, IsSome, IsSomeAnd, IfOk, IfErr, IfSome, IfNone, IsOkAnd, IsErrOf, OnOk, OnErr, vec_len, Some, None, MatchOption, if◌then◌else◌, is_some, ◌==◌};
ghost use Rattle.bmx_types.specs.Words.{home_of, segment_of, index_of, address_word};
ghost use Rattle.std.specs.Vec.{vec_capacity};
ghost use Rattle.bmx_segment.specs.Headers.{IsHeader, IsLive, kind_number};
ghost use Rattle.bmx_segment.specs.declared.headers.Header.{Header as HeaderOf};
ghost use Rattle.std.specs.Option.{option_map};
ghost use Rattle.bmx_segment.specs.declared.segments.PlaceError.TheVariants.{Full};
ghost use Rattle.bmx_segment.specs.declared.headers.State.TheVariants.{Forwarded, Dead};
ghost use Rattle.bmx_segment.specs.Blocks.{Block};
ghost use Rattle.bmx_segment.specs.Stores.{segment_key, key_at, block_at, header_at, word_at, live_of, IsMapped, IsAt, TakesOut, Maps, Sets, Writes, Lays, Drops, HasFieldAt, AreApart};
ghost use Rattle.bmx_segment.specs.Heaps.{Heap, made_of, handed_of, left_of, current_of, room_of, own_at, with_handed, CanSet, IsOpen, IsOpenOne, Makes, PlacesIn, PlacesInNew, IsHeap};

use crate::headers::{Clash, Header, Kind, State};
use crate::segment::{HEADER_WORDS, SEGMENT_WORDS};
use crate::store::Store;
use bmx_types::{Address, BunchNo, Name, NoMemory, NodeNo};
use std::alloc::Global;
use std::marker::Model;

/// Why no place was found.
#[derive(Clone, Copy, Debug, PartialEq, Eq)]
pub enum PlaceError {
    NoMemory,
    /// No more segments may be made.
    Full,
}

impl From<NoMemory> for PlaceError {
    ghost use Rattle.std.specs.Prelude.{◌≡◌};
    ghost use Rattle.bmx_segment.specs.declared.segments.PlaceError.TheVariants.{NoMemory as out_of_memory};

    ghost from_gives = { λ _ e. e ≡ out_of_memory };

    fn from(_error: NoMemory) -> PlaceError {
        PlaceError::NoMemory
    }
}

/// A segment that the node made.
#[derive(Clone, Copy)]
struct Own {
    bunch: BunchNo,
    /// How many of its words were handed out, from its first on.
    handed: u32,
}

/// The segments of one node: those that it made, and those that it mapped of any home. A segment is
/// found by its home and number without search, and mapped, made or dropped in constant time, but that
/// mapping one with a number larger than any so far takes 64 bytes more for each number between.
#[derive(Drop)]
pub struct Segments {
    me: NodeNo,
    limit: u32,
    own: Vec<Own>,
    current: [Option<u32>; 16],
    store: Store,
}

impl Model for Segments {
    ghost use Rattle.bmx_segment.specs.Heaps.{Heap, IsHeap};

    ghost Value = { Heap };

    ghost view = { λ s. record { me = s.me; limit = s.limit; own = s.own.items; current = s.current; blocks = s.store.blocks; spare = s.store.spare } };

    ghost invariant = { λ s. IsHeap (record { me = s.me; limit = s.limit; own = s.own.items; current = s.current; blocks = s.store.blocks; spare = s.store.spare }) };
}

impl Segments {
    /// Nothing made or mapped. Takes no memory.
    pub fn new(alloc: Global, me: NodeNo, limit: u32) -> Segments
        requires { limit ≤ 65535 }
        ensures { result ≡ record { me = me; limit = limit; own = []; current = replicate 16 None; blocks = []; spare = 0 } }
    {
        Segments {
            me,
            limit,
            own: Vec::new(alloc),
            current: [None; 16],
            store: Store::new(alloc),
        }
    }

    /// How many segments the node made.
    pub fn made(&self) -> u32
        ensures value { result ≡ made_of self.now }
        ensures heap { IsHeap self.now }
    {
        self.own.len() as u32
    }

    /// How many segments are mapped. It reads one number, so it is the cheapest call that says what segments
    /// keep.
    pub fn mapped(&self) -> u32
        ensures value { result ≡ length self.now.blocks }
        ensures few { result ≤ 2 ^ 19 }
        ensures heap { IsHeap self.now }
        ensures apart { AreApart self.now.blocks }
    {
        self.store.len() as u32
    }

    /// The home and the number of the i-th mapped segment, from 0. Their order changes where one is dropped.
    pub fn mapped_at(&self, i: u32) -> (NodeNo, u32)
        requires { i < length self.now.blocks }
        ensures at { IsAt self.now.blocks (segment_key result.0 result.1) i }
        ensures numbers { (result.0 < 8) × (0 < result.1) × (result.1 ≤ 65535) }
    {
        self.store.at(i as usize)
    }

    /// Whether a segment is mapped.
    pub fn is_mapped(&self, home: NodeNo, number: u32) -> bool
        ensures { IsTrue result ↔ IsMapped self.now.blocks home number }
    {
        self.store.is_mapped(home, number)
    }

    /// How many live headers a segment has, 0 where it isn't mapped.
    pub fn live(&self, home: NodeNo, number: u32) -> u32
        ensures { result ≡ live_of (block_at self.now.blocks (segment_key home number)) }
    {
        self.store.live(home, number)
    }

    /// The header that begins at an address, None where none does.
    #[inline]
    pub fn header(&self, address: Address) -> Option<Header>
        ensures value { result ≡ header_at self.now.blocks address }
        ensures fits { IfSome result (λ h. IsHeader h × (index_of address + 4 + h.size ≤ 1024)) }
        ensures stands { IfSome result (λ h. CanSet self.now address h.name h.size) }
        ensures apart { AreApart self.now.blocks }
    {
        self.store.header(address)
    }

    /// The name in the header that begins at an address, None where none does.
    pub fn name(&self, address: Address) -> Option<Name>
        ensures { result ≡ option_map (λ (h : HeaderOf). h.name) (header_at self.now.blocks address) }
    {
        self.store.name(address)
    }

    /// Maps the segment of an address; its words are 0. Where it is mapped nothing changes. It takes
    /// no memory while `spare` is at least 1.
    pub fn map(&mut self, address: Address) -> Result<(), NoMemory>
        ensures ok { OnOk result (Maps self.old.blocks self.new.blocks (home_of address) (segment_of address) 1) }
        ensures spare { OnOk result (self.new.spare ≡ self.old.spare - (if is_some (block_at self.old.blocks (key_at address)) then 0 else 1)) }
        ensures rest { self.new ≡ record self.old { blocks = self.new.blocks; spare = self.new.spare } }
        ensures err { OnErr result (self.new ≡ self.old) }
        ensures free { 0 < self.old.spare → IsOk result }
    {
        self.store.map(address.home(), address.segment())
    }

    /// Makes `spare` at least n: that many segments can then be mapped without memory. Each takes what
    /// a mapped segment takes.
    pub fn reserve(&mut self, n: u32) -> Result<(), NoMemory>
        ensures ok { OnOk result (self.new ≡ record self.old { spare = max self.old.spare n }) }
        ensures err { OnErr result (self.new ≡ self.old) }
        ensures free { n ≤ self.old.spare → IsOk result }
    {
        self.store.reserve(n as usize)
    }

    /// Sets a header: its mark, its name, and what its state tells of the other two words. The field
    /// words stay. It clashes exactly where its words aren't mapped, leave the segment, overlap a header
    /// that begins at another word, begin where a header of another name or size stands, or lie in the
    /// node's own home and were never handed out.
    pub fn set_header(&mut self, address: Address, header: &Header) -> Result<(), Clash>
        requires { header.now.size ≤ 32 }
        ensures ok { IsOk result ↔ CanSet self.old address header.now.name header.now.size }
        ensures set { OnOk result (Sets self.old.blocks self.new.blocks address header.now) }
        ensures rest { self.new ≡ record self.old { blocks = self.new.blocks } }
        ensures err { OnErr result (self.new ≡ self.old) }
    {
        if !self.has_handed(address, header.size) {
            return Err(Clash);
        }
        self.store.set_header(address, header)
    }

    /// Whether `set_header` sets a header at an address. Takes the time of looking at the words of one
    /// object.
    pub fn can_set(&self, address: Address, header: &Header) -> bool
        requires { header.now.size ≤ 32 }
        ensures { IsTrue result ↔ CanSet self.now address header.now.name header.now.size }
    {
        self.has_handed(address, header.size) && self.store.can_stand(address, header)
    }

    /// Sets a live header, and the words of its fields to the first of those given. It clashes exactly where
    /// `set_header` does, and nothing changes then.
    pub fn lay(&mut self, address: Address, header: &Header, words: &[u64]) -> Result<(), Clash>
        requires few { header.now.size ≤ 32 }
        requires live { IsLive header.now.state }
        requires enough { header.now.size ≤ length words.now }
        ensures ok { IsOk result ↔ CanSet self.old address header.now.name header.now.size }
        ensures laid { OnOk result (Lays self.old.blocks self.new.blocks address header.now (λ i. slice_index words.now i)) }
        ensures apart { OnOk result (AreApart self.new.blocks) }
        ensures rest { self.new ≡ record self.old { blocks = self.new.blocks } }
        ensures err { OnErr result (self.new ≡ self.old) }
    {
        self.set_header(address, header)?;
        self.store.fill(address, header.size as usize, words);
        Ok(())
    }

    /// The word of a field of the live header at an address: 0 for null, a number in two's complement,
    /// an address or a name.
    pub fn word(&self, address: Address, i: u8) -> u64
        requires { HasFieldAt self.now.blocks address i }
        ensures { result ≡ word_at self.now.blocks (address + 4 + i) }
    {
        self.store.field(address, i as usize)
    }

    /// Writes a field of the live header at an address, and its kind.
    #[inline]
    pub fn set_word(&mut self, address: Address, i: u8, kind: Kind, w: u64)
        requires { HasFieldAt self.old.blocks address i }
        ensures written { Writes self.old.blocks self.new.blocks address i (kind_number kind) w }
        ensures apart { AreApart self.old.blocks }
        ensures rest { self.new ≡ record self.old { blocks = self.new.blocks } }
    {
        self.store.set_field(address, i as usize, kind, w);
    }

    /// The header at an address leads to another one of its name from now on. Its fields stay.
    pub fn forward(&mut self, from: Address, to: Address)
        requires { IsSomeAnd (header_at self.old.blocks from) (λ f. IsSomeAnd (header_at self.old.blocks to) (λ t. f.name ≡ t.name)) }
        ensures set { IsSomeAnd (header_at self.old.blocks from) (λ f. Sets self.old.blocks self.new.blocks from (record f { state = Forwarded to })) }
        ensures rest { self.new ≡ record self.old { blocks = self.new.blocks } }
    {
        self.store.set_state(from, State::Forwarded { to });
    }

    /// The header at an address is dead from now on. Its other words stay, but that one which was forwarded
    /// counts as unmoved in place of its target. Where none begins nothing changes.
    pub fn kill(&mut self, address: Address)
        ensures set { MatchOption (header_at self.old.blocks address) (self.new ≡ self.old) (λ h. Sets self.old.blocks self.new.blocks address (record h { state = Dead })) }
        ensures rest { self.new ≡ record self.old { blocks = self.new.blocks } }
    {
        self.store.set_state(address, State::Dead);
    }

    /// Takes a segment away, and its headers with it. The last of those mapped takes its place among them.
    pub fn drop_segment(&mut self, home: NodeNo, number: u32)
        requires mapped { IsMapped self.old.blocks home number }
        requires closed { ¬ IsOpen self.old home number }
        requires dead { live_of (block_at self.old.blocks (segment_key home number)) ≡ 0 }
        ensures blocks { Drops self.old.blocks self.new.blocks home number }
        ensures listed { (i : ℕ) → IsAt self.old.blocks (segment_key home number) i → TakesOut self.old.blocks self.new.blocks i }
        ensures rest { self.new ≡ record self.old { blocks = self.new.blocks } }
    {
        self.store.remove(home, number);
    }

    /// What the node made of a segment of its own, None where it didn't make it.
    fn own_at(&self, number: u32) -> Option<Own>
        ensures value { result ≡ own_at self.now.own number }
        ensures heap { IsHeap self.now }
    {
        let own = self.own.as_slice();
        if number == 0 {
            return None;
        }
        own.get(number as usize - 1).copied()
    }

    /// How many words of an own segment were handed out.
    fn handed(&self, number: u32) -> u32
        ensures { result ≡ handed_of self.now number }
    {
        match self.own_at(number) {
            Some(own) => own.handed,
            None => 0,
        }
    }

    /// Whether the words of an object of so many fields at an address were handed out, which only the
    /// node's own are.
    fn has_handed(&self, address: Address, size: u8) -> bool
        requires { size ≤ 32 }
        ensures { IsTrue result ↔ (home_of address ≡ self.now.me → index_of address + 4 + size ≤ handed_of self.now (segment_of address)) }
    {
        if address.home() != self.me {
            return true;
        }
        address.index() + HEADER_WORDS as u32 + size as u32 <= self.handed(address.segment())
    }

    /// How many words of an own segment were never handed out, 0 where it isn't made.
    pub fn left(&self, number: u32) -> u32
        ensures { result ≡ left_of self.now number }
    {
        match self.own_at(number) {
            Some(own) => SEGMENT_WORDS as u32 - own.handed,
            None => 0,
        }
    }

    /// Whether a segment is the open one of its bunch.
    pub fn is_open(&self, home: NodeNo, number: u32) -> bool
        ensures { IsTrue result ↔ IsOpen self.now home number }
    {
        if home != self.me {
            return false;
        }
        for current in &self.current {
            if *current == Some(number) {
                return true;
            }
        }
        false
    }

    /// Whether a bunch has an open segment.
    pub fn has_open(&self, bunch: BunchNo) -> bool
        ensures { result ≡ is_some (current_of self.now bunch) }
    {
        self.current[bunch.get() as usize].is_some()
    }

    /// Makes a segment the open one of its bunch.
    fn make_current(&mut self, bunch: BunchNo, number: u32)
        requires { IsOpenOne self.old bunch number }
        ensures { self.new ≡ record self.old { current = slice_set self.old.current bunch (Some number) } }
    {
        self.current[bunch.get() as usize] = Some(number);
    }

    /// Makes an own segment the open one of its bunch, which has none open.
    pub fn set_open(&mut self, number: u32)
        requires made { (0 < number) × (number ≤ made_of self.old) }
        requires mapped { IsMapped self.old.blocks self.old.me number }
        requires none { IfSome (own_at self.old.own number) (λ own. current_of self.old own.bunch ≡ None) }
        ensures { IsSomeAnd (own_at self.old.own number) (λ own. self.new ≡ record self.old { current = slice_set self.old.current own.bunch (Some number) }) }
    {
        let Some(own) = self.own_at(number) else {
            unreachable!()
        };
        self.make_current(own.bunch, number);
    }

    /// Hands out the next words of an own segment for an object of so many fields.
    pub fn hand_out(&mut self, number: u32, size: u8) -> Address
        requires few { size ≤ 32 }
        requires mapped { IsMapped self.old.blocks self.old.me number }
        requires room { 4 + size ≤ left_of self.old number }
        ensures placed { PlacesIn self.old self.new number size result }
        ensures free { (name : ℕ) → CanSet self.new result name size }
    {
        let own = &mut self.own[number as usize - 1];
        let index = own.handed;
        own.handed += HEADER_WORDS as u32 + size as u32;
        let Some(address) = Address::new(self.me, number, index) else {
            unreachable!()
        };
        address
    }

    /// Makes some segments of a bunch with the next numbers, all or none.
    fn make(&mut self, bunch: BunchNo, more: u32) -> Result<(), NoMemory>
        requires { made_of self.old + more ≤ 65535 }
        ensures ok { OnOk result (Makes self.old self.new bunch more) }
        ensures err { OnErr result (self.new ≡ self.old) }
    {
        let first = self.made() + 1;
        self.own.reserve(more as usize)?;
        self.store.map_range(self.me, first, more)?;
        push_all(&mut self.own, bunch, more as usize);
        Ok(())
    }

    /// Makes `more` segments of a bunch with the next numbers, mapped and not open, and tells the first
    /// of these numbers.
    pub fn open(&mut self, bunch: BunchNo, more: u32) -> Result<u32, PlaceError>
        ensures full { IsErrOf result Full ↔ (self.old.limit < made_of self.old + more) }
        ensures ok { IfOk result (λ first. (first ≡ made_of self.old + 1) × Makes self.old self.new bunch more) }
        ensures err { OnErr result (self.new ≡ self.old) }
    {
        let made = self.made();
        if made as u64 + more as u64 > self.limit as u64 {
            return Err(PlaceError::Full);
        }
        self.make(bunch, more)?;
        Ok(made + 1)
    }

    /// The open segment of a bunch, where it has room for an object of so many fields.
    fn roomy(&self, bunch: BunchNo, size: u8) -> Option<u32>
        requires { size ≤ 32 }
        ensures some { IfSome result (λ n. (current_of self.now bunch ≡ Some n) × (4 + size ≤ left_of self.now n) × IsMapped self.now.blocks self.now.me n) }
        ensures none { IfNone result (room_of self.now bunch < 4 + size) }
    {
        let number = self.current[bunch.get() as usize]?;
        if self.left(number) < HEADER_WORDS as u32 + size as u32 {
            return None;
        }
        Some(number)
    }

    /// Makes a segment, opens it for the bunch, and hands out its first words.
    fn place_in_new(&mut self, bunch: BunchNo, size: u8) -> Result<Address, NoMemory>
        requires few { size ≤ 32 }
        requires made { made_of self.old < 65535 }
        ensures ok { IfOk result (λ a. PlacesInNew self.old self.new bunch size a) }
        ensures free { IfOk result (λ a. (name : ℕ) → CanSet self.new a name size) }
        ensures err { OnErr result (self.new ≡ self.old) }
    {
        self.make(bunch, 1)?;
        let number = self.made();
        self.make_current(bunch, number);
        Ok(self.hand_out(number, size))
    }

    /// Finds a place for a new object of so many fields: the next words of the bunch's open segment,
    /// or the first of a new one, which becomes the open one. It is full where the open segment has no
    /// room and no more segments may be made.
    pub fn place(&mut self, bunch: BunchNo, size: u8) -> Result<Address, PlaceError>
        requires { size ≤ 32 }
        ensures full { IsErrOf result Full ↔ ((self.old.limit ≤ made_of self.old) × (room_of self.old bunch < 4 + size)) }
        ensures roomy { 4 + size ≤ room_of self.old bunch → IsOkAnd result (λ a. IsSomeAnd (current_of self.old bunch) (λ n. PlacesIn self.old self.new n size a)) }
        ensures new { room_of self.old bunch < 4 + size → IfOk result (λ a. PlacesInNew self.old self.new bunch size a) }
        ensures free { IfOk result (λ a. (name : ℕ) → CanSet self.new a name size) }
        ensures err { OnErr result (self.new ≡ self.old) }
    {
        if let Some(number) = self.roomy(bunch, size) {
            return Ok(self.hand_out(number, size));
        }
        if self.made() >= self.limit {
            return Err(PlaceError::Full);
        }
        Ok(self.place_in_new(bunch, size)?)
    }

    /// Finds a place for an object that the store opens with, without a limit on segments.
    pub fn place_birth(&mut self, bunch: BunchNo, size: u8) -> Result<Address, NoMemory>
        requires few { size ≤ 32 }
        requires made { made_of self.old < 65535 }
        ensures roomy { 4 + size ≤ room_of self.old bunch → IsOkAnd result (λ a. IsSomeAnd (current_of self.old bunch) (λ n. PlacesIn self.old self.new n size a)) }
        ensures new { room_of self.old bunch < 4 + size → IfOk result (λ a. PlacesInNew self.old self.new bunch size a) }
        ensures free { IfOk result (λ a. (name : ℕ) → CanSet self.new a name size) }
        ensures err { OnErr result (self.new ≡ self.old) }
    {
        if let Some(number) = self.roomy(bunch, size) {
            return Ok(self.hand_out(number, size));
        }
        self.place_in_new(bunch, size)
    }
}

/// So many more segments of a bunch, of whose words none is handed out.
fn push_all(own: &mut Vec<Own>, bunch: BunchNo, more: usize)
    requires { vec_len own.old + more ≤ vec_capacity own.old }
    ensures { own.new.items ≡ own.old.items ++ replicate more (record { bunch = bunch; handed = 0 }) }
{
    for _ in 0..more {
        let Ok(()) = own.push(Own { bunch, handed: 0 }) else {
            unreachable!()
        };
    }
}

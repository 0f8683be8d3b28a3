//! The mapped segments by home and number.
ghost use Rattle.std.specs.Vec.{vec_capacity};
ghost use Rattle.std.specs.Prelude.{◌≡◌, ◌≢◌, ℕ, ◌+◌, ◌-◌, ◌*◌, ◌^◌, ◌<◌, ◌≤◌, ◌↔◌, [], length, slice_index, slice_index_or, max, min, is_some, if◌then◌else◌, IsTrue, IsOk, IsSome, IfOk, IfNone, IfSome, OnOk, OnErr, Some, None, option_copied, MatchOption, vec_len};
ghost use Rattle.std.specs.Option.{option_map};
ghost use Rattle.bmx_types.specs.Words.{index_of};
ghost use Rattle.bmx_segment.specs.Headers.{IsHeader, kind_number};
ghost use Rattle.bmx_types.specs.Updates.{Puts};
ghost use Rattle.bmx_segment.specs.Blocks.{Block};
ghost use Rattle.bmx_segment.specs.Stores.{segment_key, key_at, block_at, header_at, word_at, live_of, IsAt, TakesOut, AreApart, Maps, Sets, Writes, CanStandAt, HasFieldAt};
ghost use Rattle.bmx_segment.specs.Inside.Stores.{Mapped, rank_of, AreBlocks, IsBlank, Fills};
ghost use Rattle.bmx_segment.specs.declared.headers.Header.{Header as HeaderOf};

use crate::headers::{Clash, Header, Kind, State};
use crate::segment::Segment;
use bmx_types::{Address, Name, NoMemory, NodeNo};
use std::alloc::Global;
use std::marker::Model;

/// How many homes there are.
const HOMES: usize = 8;

/// How many segments of all homes have a number.
const RANKS: usize = HOMES << 16;

/// The mapped segments, with blank ones in stock. A segment is found by its number and home in a table,
/// without search. The table has as many rows as the largest number that was mapped, of 64 bytes each.
#[derive(Drop)]
pub(crate) struct Store {
    segments: Vec<Segment>,
    /// 1 more than where a segment stands, 0 where it isn't mapped, by number and then by home.
    table: Vec<usize>,
    /// Blank segments, for each of which `segments` has room, and where there are some, `table` has for
    /// all ranks.
    pool: Vec<Segment>,
    alloc: Global,
}

impl Model for Store {
    ghost use Rattle.std.specs.Prelude.{vec_len};
    ghost use Rattle.bmx_segment.specs.Inside.Stores.{Mapped};

    ghost Value = { Mapped };

    ghost use Rattle.bmx_segment.specs.Inside.Stores.{IsStored};
    ghost use Rattle.std.specs.Vec.{vec_capacity};

    ghost view = { λ s. record { blocks = s.segments.items; spare = vec_len s.pool } };

    ghost invariant = { λ s. IsStored s.segments.items s.pool.items s.table.items (vec_capacity s.segments) (vec_capacity s.table) };
}

/// Where the table has the segment of a home and a number.
fn rank(home: NodeNo, number: u32) -> usize
    ensures value { result ≡ rank_of home number }
    ensures home { home < 8 }
{
    number as usize * HOMES + home.get() as usize
}

/// What a table says of a rank.
fn place_in(table: &[usize], rank: usize) -> Option<usize>
    ensures some { IfSome result (λ i. slice_index table.now rank ≡ i + 1) }
    ensures none { IfNone result (slice_index table.now rank ≡ 0) }
{
    if rank >= table.len() {
        return None;
    }
    table[rank].checked_sub(1)
}

/// Writes a row of a table, which has room for it.
fn set_row(table: &mut Vec<usize>, rank: usize, row: usize)
    requires { rank < vec_capacity table.old }
    ensures here { slice_index table.new.items rank ≡ row }
    ensures others { (k : ℕ) → k ≢ rank → slice_index table.new.items k ≡ slice_index table.old.items k }
    ensures capacity { vec_capacity table.old ≤ vec_capacity table.new }
{
    if rank >= table.len() {
        let Ok(()) = table.resize(rank + 1, 0) else {
            unreachable!()
        };
    }
    table[rank] = row;
}

/// So many blank segments.
fn blanks(alloc: Global, count: usize) -> Result<Vec<Segment>, NoMemory>
    ensures count { IfOk result (λ v. vec_len v ≡ count) }
    ensures blank { IfOk result (λ v. (i : ℕ) (d : Block) → i < count → IsBlank (slice_index_or v.items i d)) }
{
    let Some(home) = NodeNo::new(0) else {
        unreachable!()
    };
    let mut segments = Vec::new(alloc);
    for _ in 0..count {
        segments.push(Segment::blank(alloc, home, 1)?)?;
    }
    Ok(segments)
}

impl Store {
    /// Nothing mapped, nothing in stock. Takes no memory.
    pub(crate) fn new(alloc: Global) -> Store
        ensures { result ≡ record { blocks = []; spare = 0 } }
    {
        Store {
            segments: Vec::new(alloc),
            table: Vec::new(alloc),
            pool: Vec::new(alloc),
            alloc,
        }
    }

    /// How many segments can be mapped without memory.
    pub(crate) fn spare(&self) -> usize
        ensures value { result ≡ self.now.spare }
        ensures bound { result < 2 ^ 63 }
    {
        self.pool.len()
    }

    /// How many segments are mapped.
    pub(crate) fn len(&self) -> usize
        ensures value { result ≡ length self.now.blocks }
        ensures few { result ≤ 2 ^ 19 }
        ensures apart { AreApart self.now.blocks }
    {
        self.segments.len()
    }

    /// The home and the number of the i-th mapped segment, from 0.
    pub(crate) fn at(&self, i: usize) -> (NodeNo, u32)
        requires { i < length self.now.blocks }
        ensures at { IsAt self.now.blocks (segment_key result.0 result.1) i }
        ensures numbers { (result.0 < 8) × (0 < result.1) × (result.1 ≤ 65535) }
    {
        let segment = &self.segments[i];
        (segment.home(), segment.number())
    }

    /// Where a mapped segment stands.
    fn place_of(&self, home: NodeNo, number: u32) -> Option<usize>
        ensures some { IfSome result (λ i. IsAt self.now.blocks (segment_key home number) i) }
        ensures none { IfNone result (block_at self.now.blocks (segment_key home number) ≡ None) }
        ensures blocks { AreBlocks self.now.blocks }
    {
        place_in(self.table.as_slice(), rank(home, number))
    }

    /// A mapped segment.
    fn segment(&self, home: NodeNo, number: u32) -> Option<&Segment>
        ensures value { option_copied result ≡ block_at self.now.blocks (segment_key home number) }
        ensures blocks { AreBlocks self.now.blocks }
    {
        match self.place_of(home, number) {
            Some(place) => Some(&self.segments[place]),
            None => None,
        }
    }

    /// Where the segment of an address stands, which is mapped.
    fn place_at(&self, address: Address) -> usize
        requires { IsSome (block_at self.now.blocks (key_at address)) }
        ensures at { IsAt self.now.blocks (key_at address) result }
        ensures blocks { AreBlocks self.now.blocks }
    {
        let table = self.table.as_slice();
        table[rank(address.home(), address.segment())] - 1
    }

    /// The segment of an address, which is mapped.
    fn segment_at(&self, address: Address) -> &Segment
        requires { IsSome (block_at self.now.blocks (key_at address)) }
        ensures { block_at self.now.blocks (key_at address) ≡ Some result.now }
    {
        &self.segments[self.place_at(address)]
    }

    /// Whether a segment is mapped.
    pub(crate) fn is_mapped(&self, home: NodeNo, number: u32) -> bool
        ensures { result ≡ is_some (block_at self.now.blocks (segment_key home number)) }
    {
        self.place_of(home, number).is_some()
    }

    /// How many live headers a segment has, 0 where it isn't mapped.
    pub(crate) fn live(&self, home: NodeNo, number: u32) -> u32
        ensures { result ≡ live_of (block_at self.now.blocks (segment_key home number)) }
    {
        match self.segment(home, number) {
            Some(segment) => segment.live(),
            None => 0,
        }
    }

    /// The header that begins at an address.
    #[inline]
    pub(crate) fn header(&self, address: Address) -> Option<Header>
        ensures value { result ≡ header_at self.now.blocks address }
        ensures fits { IfSome result (λ h. IsHeader h × (index_of address + 4 + h.size ≤ 1024)) }
        ensures stands { IfSome result (λ h. CanStandAt self.now.blocks address h.name h.size) }
        ensures apart { AreApart self.now.blocks }
    {
        let segment = self.segment(address.home(), address.segment())?;
        segment.header(address.index() as usize)
    }

    /// The name in the header that begins at an address.
    pub(crate) fn name(&self, address: Address) -> Option<Name>
        ensures { result ≡ option_map (λ (h : HeaderOf). h.name) (header_at self.now.blocks address) }
    {
        let segment = self.segment(address.home(), address.segment())?;
        segment.name(address.index() as usize)
    }

    /// Whether a header of that name and size can begin at an address.
    pub(crate) fn can_stand(&self, address: Address, header: &Header) -> bool
        requires { header.now.size ≤ 32 }
        ensures { IsTrue result ↔ CanStandAt self.now.blocks address header.now.name header.now.size }
    {
        match self.segment(address.home(), address.segment()) {
            Some(segment) => segment.can_stand(address.index() as usize, header),
            None => false,
        }
    }

    /// The word of a field of the live header at an address.
    pub(crate) fn field(&self, address: Address, field: usize) -> u64
        requires { HasFieldAt self.now.blocks address field }
        ensures { result ≡ word_at self.now.blocks (address + 4 + field) }
    {
        let segment = self.segment_at(address);
        segment.field(address.index() as usize, field)
    }

    /// Makes `spare` at least n.
    pub(crate) fn reserve(&mut self, n: usize) -> Result<(), NoMemory>
        ensures ok { OnOk result (self.new ≡ record self.old { spare = max self.old.spare n }) }
        ensures err { OnErr result (self.new ≡ self.old) }
        ensures free { n ≤ self.old.spare → IsOk result }
    {
        let spare = self.pool.len();
        if n <= spare {
            return Ok(());
        }
        self.table.reserve(RANKS.saturating_sub(self.table.len()))?;
        self.segments.reserve(n)?;
        let mut more = blanks(self.alloc, n - spare)?;
        self.pool.append(&mut more)?;
        Ok(())
    }

    /// Maps a segment that isn't mapped, from the stock.
    fn insert(&mut self, home: NodeNo, number: u32)
        requires some { 0 < number }
        requires few { number < 2 ^ 16 }
        requires spare { 0 < self.old.spare }
        requires absent { block_at self.old.blocks (segment_key home number) ≡ None }
        ensures mapped { Maps self.old.blocks self.new.blocks home number 1 }
        ensures spare { self.new.spare + 1 ≡ self.old.spare }
    {
        let rank = rank(home, number);
        let Some(mut segment) = self.pool.pop() else {
            unreachable!()
        };
        segment.renumber(home, number);
        let Ok(()) = self.segments.push(segment) else {
            unreachable!()
        };
        set_row(&mut self.table, rank, self.segments.len());
    }

    /// Maps a segment. Where it is mapped nothing changes.
    pub(crate) fn map(&mut self, home: NodeNo, number: u32) -> Result<(), NoMemory>
        requires some { 0 < number }
        requires few { number < 2 ^ 16 }
        ensures ok { OnOk result (Maps self.old.blocks self.new.blocks home number 1) }
        ensures spare { OnOk result (self.new.spare ≡ self.old.spare - (if is_some (block_at self.old.blocks (segment_key home number)) then 0 else 1)) }
        ensures err { OnErr result (self.new ≡ self.old) }
        ensures free { 0 < self.old.spare → IsOk result }
    {
        if self.is_mapped(home, number) {
            return Ok(());
        }
        self.reserve(1)?;
        self.insert(home, number);
        Ok(())
    }

    /// Leaves at most so many blank segments in stock.
    fn keep(&mut self, spare: usize)
        ensures { self.new ≡ record self.old { spare = min self.old.spare spare } }
    {
        self.pool.truncate(spare);
    }

    /// Maps some segments in a row, all or none, and keeps the stock as it is.
    pub(crate) fn map_range(&mut self, home: NodeNo, first: u32, more: u32) -> Result<(), NoMemory>
        requires some { 0 < first }
        requires few { first + more ≤ 2 ^ 16 }
        ensures ok { OnOk result (Maps self.old.blocks self.new.blocks home first more) }
        ensures spare { self.new.spare ≡ self.old.spare }
        ensures err { OnErr result (self.new ≡ self.old) }
    {
        let spare = self.spare();
        self.reserve(spare + more as usize)?;
        for number in first..first + more {
            let Ok(()) = self.map(home, number) else {
                unreachable!()
            };
        }
        self.keep(spare);
        Ok(())
    }

    /// Takes a segment away. Where it isn't mapped nothing changes.
    pub(crate) fn remove(&mut self, home: NodeNo, number: u32)
        ensures blocks { Puts (block_at self.old.blocks) (block_at self.new.blocks) (segment_key home number) None }
        ensures listed { (i : ℕ) → IsAt self.old.blocks (segment_key home number) i → TakesOut self.old.blocks self.new.blocks i }
        ensures spare { self.new.spare ≡ self.old.spare }
    {
        let Some(place) = self.place_of(home, number) else {
            return;
        };
        let last = &self.segments[self.segments.len() - 1];
        let moved = rank(last.home(), last.number());
        self.table[moved] = place + 1;
        self.table[rank(home, number)] = 0;
        self.segments.swap_remove(place);
    }

    /// Sets a header.
    pub(crate) fn set_header(&mut self, address: Address, header: &Header) -> Result<(), Clash>
        requires { header.now.size ≤ 32 }
        ensures ok { IsOk result ↔ CanStandAt self.old.blocks address header.now.name header.now.size }
        ensures set { OnOk result (Sets self.old.blocks self.new.blocks address header.now) }
        ensures spare { self.new.spare ≡ self.old.spare }
        ensures err { OnErr result (self.new ≡ self.old) }
    {
        let index = address.index() as usize;
        let Some(place) = self.place_of(address.home(), address.segment()) else {
            return Err(Clash);
        };
        let segment = &mut self.segments[place];
        if !segment.can_stand(index, header) {
            return Err(Clash);
        }
        segment.set_header(index, header);
        Ok(())
    }

    /// Writes the words of all fields of the header at an address.
    pub(crate) fn fill(&mut self, address: Address, size: usize, words: &[u64])
        requires there { IsSome (header_at self.old.blocks address) }
        requires size { (h : HeaderOf) → header_at self.old.blocks address ≡ Some h → h.size ≡ size }
        requires enough { size ≤ length words.now }
        ensures filled { Fills self.old.blocks self.new.blocks address size words.now }
        ensures apart { AreApart self.old.blocks }
        ensures spare { self.new.spare ≡ self.old.spare }
    {
        let index = address.index() as usize;
        let Some(place) = self.place_of(address.home(), address.segment()) else {
            unreachable!()
        };
        let segment = &mut self.segments[place];
        segment.fill(index, size, words);
    }

    /// Puts the header that begins at an address into another state. Where none begins nothing
    /// changes.
    pub(crate) fn set_state(&mut self, address: Address, state: State)
        ensures set { MatchOption (header_at self.old.blocks address) (self.new ≡ self.old) (λ h. Sets self.old.blocks self.new.blocks address (record h { state = state })) }
        ensures spare { self.new.spare ≡ self.old.spare }
    {
        let index = address.index() as usize;
        let Some(place) = self.place_of(address.home(), address.segment()) else {
            return;
        };
        let segment = &mut self.segments[place];
        let Some(there) = segment.header(index) else {
            return;
        };
        segment.set_header(index, &Header { state, ..there });
    }

    /// Writes a field of the live header at an address, and its kind.
    #[inline]
    pub(crate) fn set_field(&mut self, address: Address, field: usize, kind: Kind, word: u64)
        requires { HasFieldAt self.old.blocks address field }
        ensures written { Writes self.old.blocks self.new.blocks address field (kind_number kind) word }
        ensures apart { AreApart self.old.blocks }
        ensures spare { self.new.spare ≡ self.old.spare }
    {
        let index = address.index() as usize;
        let place = self.place_at(address);
        let segment = &mut self.segments[place];
        segment.set_field(index, field, kind, word);
    }
}

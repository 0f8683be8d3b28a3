//! One segment: its words, and where headers begin.
ghost use Rattle.std.specs.Prelude.{◌≡◌, ℕ, ◌+◌, ◌-◌, ◌*◌, ◌/◌, ◌%◌, ◌^◌, ◌<◌, ◌≤◌, ◌↔◌, ◌==◌, ◌++◌, take, drop, true, length, IsTrue, IfOk, IfNone, IfSome, slice_index};
ghost use Rattle.std.specs.Int.{bit_at};
ghost use Rattle.std.specs.Option.{option_map};
ghost use Rattle.bmx_segment.specs.Blocks.{Block, is_start, header_in, CanStand, HasField, with_header, with_field, live_at, live_in, blank_block, blank_words};
ghost use Rattle.bmx_segment.specs.Headers.{IsHeader, size_in, kind_number};
ghost use Rattle.bmx_segment.specs.Inside.Blocks.{IsBlock, with_words};
ghost use Rattle.bmx_segment.specs.declared.headers.Header.{Header as HeaderOf};

use crate::headers::{Header, Kind, held_moves, live_in_mark, size_in};
use bmx_types::{Name, NoMemory, NodeNo};
use std::alloc::Global;
use std::marker::Model;

/// How many words a segment has.
pub const SEGMENT_WORDS: usize = 1024;

/// How many words stand in front of an object's fields.
pub const HEADER_WORDS: usize = 4;

/// How many bits a number has that says where headers begin.
const BITS: usize = 64;

/// One mapped segment: 8 KiB of words, and 168 bytes beside them.
#[derive(Drop)]
pub(crate) struct Segment {
    home: NodeNo,
    number: u32,
    /// How many live headers it has.
    live: u32,
    words: Vec<u64>,
    /// A bit for each word: whether a header begins there.
    starts: [u64; 16],
}

impl Model for Segment {
    ghost use Rattle.bmx_segment.specs.Blocks.{Block};
    ghost use Rattle.bmx_segment.specs.Inside.Blocks.{IsSegment};

    ghost Value = { Block };

    ghost view = { λ s. record { home = s.home; number = s.number; words = s.words.items; starts = s.starts } };

    ghost invariant = { λ s. IsSegment (record { home = s.home; number = s.number; words = s.words.items; starts = s.starts }) s.live };
}

/// As many words as a segment has, all 0.
fn blank_words(alloc: Global) -> Result<Vec<u64>, NoMemory>
    ensures { IfOk result (λ v. v.items ≡ blank_words) }
{
    Ok(vec![in alloc; 0; SEGMENT_WORDS]?)
}

/// Writes some words in a row.
fn write_words(words: &mut Vec<u64>, at: usize, new: &[u64])
    requires { at + length new.now ≤ length words.old.items }
    ensures { words.new.items ≡ take at words.old.items ++ new.now ++ drop (at + length new.now) words.old.items }
{
    words[at..at + new.len()].copy_from_slice(new);
}

/// The bits of two numbers in a row, from one of the first on.
fn joined(low: u64, high: u64, bit: usize) -> u64
    requires some { 0 < bit }
    requires few { bit < 64 }
    ensures low { (j : ℕ) → bit + j < 64 → bit_at result j ≡ bit_at low (bit + j) }
    ensures high { (j : ℕ) → j < 64 → 64 ≤ bit + j → bit_at result j ≡ bit_at high (bit + j - 64) }
{
    low >> bit | high << (BITS - bit)
}

impl Segment {
    /// A segment with no header, all words 0.
    pub(crate) fn blank(alloc: Global, home: NodeNo, number: u32) -> Result<Segment, NoMemory>
        requires home { home < 8 }
        requires some { 0 < number }
        requires few { number < 2 ^ 16 }
        ensures { IfOk result (λ s. s ≡ blank_block home number) }
    {
        Ok(Segment {
            home,
            number,
            live: 0,
            words: blank_words(alloc)?,
            starts: [0; 16],
        })
    }

    /// Gives the same words to another segment.
    pub(crate) fn renumber(&mut self, home: NodeNo, number: u32)
        requires home { home < 8 }
        requires some { 0 < number }
        requires few { number < 2 ^ 16 }
        ensures { self.new ≡ record self.old { home = home; number = number } }
    {
        self.home = home;
        self.number = number;
    }

    /// Whose it is.
    pub(crate) fn home(&self) -> NodeNo
        ensures { result ≡ self.now.home }
    {
        self.home
    }

    /// Its number there.
    pub(crate) fn number(&self) -> u32
        ensures value { result ≡ self.now.number }
        ensures block { IsBlock self.now }
    {
        self.number
    }

    /// Whether a header begins at a word.
    fn begins(&self, index: usize) -> bool
        requires { index < 1024 }
        ensures value { result ≡ is_start self.now.starts index }
        ensures block { IsBlock self.now }
    {
        self.starts[index / 64] >> (index % 64) & 1 == 1
    }

    /// The header that begins at a word.
    #[inline]
    pub(crate) fn header(&self, index: usize) -> Option<Header>
        requires { index < 1024 }
        ensures value { result ≡ header_in self.now index }
        ensures stands { IfSome result (λ h. CanStand self.now index h.name h.size) }
        ensures block { IsBlock self.now }
    {
        let words = self.words.as_slice();
        if !self.begins(index) {
            return None;
        }
        Some(Header::from_words(
            words[index],
            words[index + 1],
            words[index + 2],
            words[index + 3],
        ))
    }

    /// The name in the header that begins at a word.
    pub(crate) fn name(&self, index: usize) -> Option<Name>
        requires { index < 1024 }
        ensures { result ≡ option_map (λ (h : HeaderOf). h.name) (header_in self.now index) }
    {
        let words = self.words.as_slice();
        if !self.begins(index) {
            return None;
        }
        Name::from_word(words[index + 1])
    }

    /// 1 where a live header begins at a word, else 0.
    fn live_at(&self, index: usize) -> u32
        requires { index < 1024 }
        ensures { result ≡ live_at (header_in self.now index) }
    {
        let words = self.words.as_slice();
        if !self.begins(index) {
            return 0;
        }
        live_in_mark(words[index])
    }

    /// The bits that say whether headers begin, of the 64 words from one on, the first in the lowest.
    fn starts_from(&self, index: usize) -> u64
        requires { index < 1024 }
        ensures { (j : ℕ) → j < 64 → index + j < 1024 → is_start self.now.starts (index + j) ≡ (bit_at result j == 1) }
    {
        let (place, bit) = (index / BITS, index % BITS);
        if bit == 0 || place + 1 == self.starts.len() {
            return self.starts[place] >> bit;
        }
        joined(self.starts[place], self.starts[place + 1], bit)
    }

    /// How many fields the header has that begins at a word.
    fn size_at(&self, index: usize) -> usize
        requires bound { index < 1024 }
        ensures { result ≡ size_in (slice_index self.now.words index) }
    {
        size_in(self.words[index])
    }

    /// Whether no header begins from one word up to another, of at most 64 words.
    fn is_free(&self, index: usize, end: usize) -> bool
        requires bound { index < 1024 }
        requires few { end ≤ index + 64 }
        requires inside { end ≤ 1024 }
        ensures { IsTrue result ↔ ((j : ℕ) → index ≤ j → j < end → is_start self.now.starts j ≡ true → ⊥) }
    {
        let begins = self.starts_from(index);
        if begins == 0 {
            return true;
        }
        index + begins.trailing_zeros() as usize >= end
    }

    /// The same bits of the 64 words before one, or of as many as there are.
    fn starts_before(&self, index: usize) -> u64
        requires { index < 1024 }
        ensures bits { (j : ℕ) → index - 64 + j < index → is_start self.now.starts (index - 64 + j) ≡ (bit_at result j == 1) }
        ensures few { result < 2 ^ (index - (index - 64)) }
    {
        if index >= BITS {
            self.starts_from(index - BITS)
        } else {
            self.starts[0] % (1 << index)
        }
    }

    /// The last word before one, of the 64 before it, at which a header begins.
    fn start_before(&self, index: usize) -> Option<usize>
        requires { index < 1024 }
        ensures some { IfSome result (λ i. (i < index) × (is_start self.now.starts i ≡ true) × ((j : ℕ) → i < j → j < index → is_start self.now.starts j ≡ true → ⊥)) }
        ensures none { IfNone result ((j : ℕ) → index ≤ j + 64 → j < index → is_start self.now.starts j ≡ true → ⊥) }
    {
        match self.starts_before(index).checked_ilog2() {
            Some(last) => Some(index.saturating_sub(BITS) + last as usize),
            None => None,
        }
    }

    /// Whether the header that begins at a word has that name and size.
    fn is_same(&self, index: usize, header: &Header) -> bool
        requires bound { index < 1024 }
        requires begins { is_start self.now.starts index ≡ true }
        ensures { IsTrue result ↔ CanStand self.now index header.now.name header.now.size }
    {
        let words = self.words.as_slice();
        words[index + 1] == header.name.word() && size_in(words[index]) == header.size as usize
    }

    /// Whether that header can be set at a word. Looks at the header there, or else at the bits of the
    /// words of the object and at the last header before it.
    pub(crate) fn can_stand(&self, index: usize, header: &Header) -> bool
        requires bound { index < 1024 }
        requires few { header.now.size ≤ 32 }
        ensures { IsTrue result ↔ CanStand self.now index header.now.name header.now.size }
    {
        let end = index + HEADER_WORDS + header.size as usize;
        if end > SEGMENT_WORDS {
            return false;
        }
        if self.begins(index) {
            return self.is_same(index, header);
        }
        if !self.is_free(index, end) {
            return false;
        }
        match self.start_before(index) {
            Some(other) => other + HEADER_WORDS + self.size_at(other) <= index,
            None => true,
        }
    }

    /// Sets a header at a word.
    pub(crate) fn set_header(&mut self, index: usize, header: &Header)
        requires bound { index < 1024 }
        requires few { header.now.size ≤ 32 }
        requires free { CanStand self.old index header.now.name header.now.size }
        ensures set { self.new ≡ with_header self.old index header.now }
        ensures header { IsHeader header.now }
        ensures block { IsBlock self.old }
    {
        let was = self.live_at(index);
        let words = self.words.as_slice();
        let held = held_moves(words[index], words[index + 2]);
        let third = header.state.third(held);
        let fourth = header.state.fourth(words[index + 3]);
        self.live = self.live - was + header.state.live();
        self.words[index] = header.mark();
        self.words[index + 1] = header.name.word();
        self.words[index + 2] = third;
        self.words[index + 3] = fourth;
        self.starts[index / BITS] |= 1 << (index % BITS);
    }

    /// Writes the words of all fields of the header that begins at a word.
    pub(crate) fn fill(&mut self, index: usize, size: usize, words: &[u64])
        requires bound { index < 1024 }
        requires begins { is_start self.old.starts index ≡ true }
        requires size { size_in (slice_index self.old.words index) ≡ size }
        requires enough { size ≤ length words.now }
        ensures filled { self.new ≡ with_words self.old index size words.now }
        ensures block { IsBlock self.old }
    {
        write_words(&mut self.words, index + HEADER_WORDS, &words[..size]);
    }

    /// The word of a field of the live header that begins at a word.
    pub(crate) fn field(&self, index: usize, field: usize) -> u64
        requires bound { index < 1024 }
        requires field { HasField self.now index field }
        ensures { result ≡ slice_index self.now.words (index + 4 + field) }
    {
        let words = self.words.as_slice();
        words[index + HEADER_WORDS + field]
    }

    /// Writes a field of the live header that begins at a word, and its kind.
    #[inline]
    pub(crate) fn set_field(&mut self, index: usize, field: usize, kind: Kind, word: u64)
        requires bound { index < 1024 }
        requires field { HasField self.old index field }
        ensures set { self.new ≡ with_field self.old index field (kind_number kind) word }
        ensures block { IsBlock self.old }
    {
        let words = self.words.as_slice();
        let kinds = words[index + 3];
        self.words[index + 3] = kind.put(field, kinds);
        self.words[index + HEADER_WORDS + field] = word;
    }

    /// How many live headers it has.
    pub(crate) fn live(&self) -> u32
        ensures { result ≡ live_in self.now }
    {
        self.live
    }
}

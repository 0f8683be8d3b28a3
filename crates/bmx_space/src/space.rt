//! Where a collection moves objects to. It touches segments alone.
ghost use Rattle.std.specs.Prelude.{◌≡◌, ℕ, ◌+◌, ◌-◌, ◌<◌, ◌≤◌, ◌↔◌, IsTrue, IsErrOf, OnOk, OnErr, Some, None};
ghost use Rattle.bmx_segment.specs.declared.segments.PlaceError.TheVariants.{Full};
ghost use Rattle.bmx_segment.specs.Heaps.{made_of, Makes, PlacesIn, CanSet};
ghost use Rattle.bmx_space.specs.Spaces.{Reserved, IsOwn, IsReady, nothing, segments_for, next_number, after_next, opened, opened_last};
ghost use Rattle.bmx_space.specs.Sweeps.{Sweeps};

use crate::sweep::sweep_at;
use bmx_segment::{PlaceError, Segments};
use bmx_types::{Address, BunchNo};
use std::marker::Model;

/// How many words of a segment are sure to be handed out before an object doesn't fit: all 1,024 but for 35,
/// one less than the largest object takes.
const SURE_WORDS: u64 = 989;

/// How many words of an object aren't fields.
const HEADER_WORDS: u64 = 4;

/// The segments reserved for the objects that a collection moves. They are used in the order of their numbers,
/// each up to the first object that doesn't fit. Contracts see their bunch, the numbers of the segment in use
/// and of the one behind the last, the last one used, and how many words can still be handed out.
#[derive(Drop)]
pub struct Space {
    bunch: Option<BunchNo>,
    next: u32,
    end: u32,
    used: Option<u32>,
    words: u64,
}

impl Model for Space {
    ghost use Rattle.bmx_space.specs.Spaces.{Reserved};

    ghost Value = { Reserved };

    ghost view = { λ s. record { bunch = s.bunch; next = s.next; end = s.end; used = s.used; words = s.words } };
}

impl Space {
    /// Nothing is reserved.
    pub fn new() -> Space
        ensures { result ≡ nothing }
    {
        Space {
            bunch: None,
            next: 0,
            end: 0,
            used: None,
            words: 0,
        }
    }

    /// Makes segments of a bunch for objects that take so many words together, header and fields: one for
    /// each 989 words begun. What was reserved before is given up. It is full where so many more segments
    /// may not be made. Linear in the segments that it makes.
    pub fn reserve(
        &mut self,
        segments: &mut Segments,
        bunch: BunchNo,
        words: u64,
    ) -> Result<(), PlaceError>
        ensures full { IsErrOf result Full ↔ (segments.old.limit < made_of segments.old + segments_for words) }
        ensures ok { OnOk result (Makes segments.old segments.new bunch (segments_for words)) }
        ensures reserved { OnOk result (self.new ≡ record { bunch = Some bunch; next = made_of segments.old + 1; end = made_of segments.old + 1 + segments_for words; used = None; words = words }) }
        ensures ready { OnOk result (IsReady self.new segments.new) }
        ensures err { OnErr result (segments.new ≡ segments.old) }
        ensures err_space { OnErr result (self.new ≡ self.old) }
    {
        let more = words.div_ceil(SURE_WORDS);
        if segments.made() as u64 + more >= u32::MAX as u64 {
            return Err(PlaceError::Full);
        }
        let more = more as u32;
        let next = segments.open(bunch, more)?;
        *self = Space {
            bunch: Some(bunch),
            next,
            end: next + more,
            used: None,
            words,
        };
        Ok(())
    }

    /// Hands out the next words of the segments reserved, for an object of so many fields: those of the segment
    /// in use, or of the next one where they don't fit. Takes constant time and no memory.
    pub fn next(&mut self, segments: &mut Segments, size: u8) -> Address
        requires few { size ≤ 32 }
        requires ready { IsReady self.old segments.old }
        requires words { 4 + size ≤ self.old.words }
        ensures placed { PlacesIn segments.old segments.new (next_number self.old segments.old size) size result }
        ensures free { (name : ℕ) → CanSet segments.new result name size }
        ensures space { self.new ≡ after_next self.old (next_number self.old segments.old size) size }
        ensures ready { IsReady self.new segments.new }
    {
        let number = self.next_number(segments, size);
        self.next = number;
        self.used = Some(number);
        self.words -= HEADER_WORDS + size as u64;
        segments.hand_out(number, size)
    }

    /// The segment from which the next object gets its words.
    fn next_number(&self, segments: &Segments, size: u8) -> u32
        requires few { size ≤ 32 }
        requires ready { IsReady self.now segments.now }
        requires words { 4 + size ≤ self.now.words }
        ensures { result ≡ next_number self.now segments.now size }
    {
        prove!(self.next < self.end);
        if HEADER_WORDS + size as u64 <= segments.left(self.next) as u64 {
            self.next
        } else {
            self.next + 1
        }
    }

    /// Ends the collection's moves: the last segment used becomes the open one of its bunch, where that has
    /// none open. Nothing is reserved any more. Takes constant time and no memory.
    pub fn finish(&mut self, segments: &mut Segments)
        requires { IsReady self.old segments.old }
        ensures opened { segments.new ≡ opened_last self.old segments.old }
        ensures space { self.new ≡ nothing }
    {
        if let Some(bunch) = self.bunch {
            if let Some(number) = self.used {
                open_last(segments, bunch, number);
            }
        }
        *self = Space::new();
    }

    /// Drops each mapped segment that isn't open and has no live header, and tells how many these were. No
    /// word of the node may lead into one. Looks at each mapped segment once, in constant time, and takes no
    /// memory.
    pub fn sweep(&mut self, segments: &mut Segments) -> u32
        ensures swept { Sweeps segments.old segments.new result }
        ensures space { self.new ≡ self.old }
    {
        let mut swept = 0;
        for i in (0..segments.mapped()).rev() {
            swept += sweep_at(segments, i);
        }
        swept
    }
}

/// Makes an own segment the open one of its bunch, where that has none open.
fn open_last(segments: &mut Segments, bunch: BunchNo, number: u32)
    requires { IsOwn segments.old (Some bunch) number }
    ensures { segments.new ≡ opened segments.old bunch number }
{
    if !segments.has_open(bunch) {
        segments.set_open(number);
    }
}

#[cfg(test)]
mod tests;

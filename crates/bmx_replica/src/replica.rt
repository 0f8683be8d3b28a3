//! A node's objects by name: entries and heap, kept as one. Only here do they change.
ghost use Rattle.std.specs.Prelude.{◌≡◌, ◌≢◌, ℕ, ◌+◌, ◌<◌, ◌≤◌, ◌↔◌, [], true, min, replicate, Some, None, IsTrue, IsOk, IsErrOf, IsSome, IsSomeAnd, IfOk, IfSome, IfNone, OnOk, OnErr, All, is_some, length, map, not};
ghost use Rattle.std.specs.Option.{option_map};
ghost use Rattle.bmx_types.specs.Words.{home_of, segment_of, index_of};
ghost use Rattle.bmx_replica.specs.declared.replica.LearnError.TheVariants.{NoMemory as out_of_memory, Clash as no_fit};
ghost use Rattle.bmx_segment.specs.Headers.{kind_number};
ghost use Rattle.bmx_segment.specs.Stores.{AreApart, Lays};
ghost use Rattle.bmx_segment.specs.Heaps.{CanSet, IsHeap, made_of, room_of, handed_of};
ghost use Rattle.bmx_segment.specs.declared.segments.PlaceError.TheVariants.{Full};
ghost use Rattle.bmx_replica.specs.Slots.{slot_of};
ghost use Rattle.bmx_replica.specs.Chains.{Means, name_at};
ghost use Rattle.bmx_replica.specs.Layouts.{Moves, CanLie, blank_header, kinds_of};
ghost use Rattle.bmx_replica.specs.Replicas.{entry_of, info_in, copy_of, field_of, value_in, word_in, IsCurrent, HasTargets, CanMove, Accepts, Same, HasTarget, IsField, IsReplica, ReachesTarget, WritesField, ClearsCopy, MakesObject, Learns, MovesObject, Forgets, Repoints, Installs};
ghost use Rattle.bmx_replica.specs.Inside.Slots.{PutsSlot};
ghost use Rattle.bmx_replica.specs.Inside.Layouts.{Readies};
ghost use Rattle.bmx_replica.specs.Inside.Replicas.{IsFound, OthersStay, AreHeld, Tells};
ghost use Rattle.bmx_replica.specs.Letters.{values_told};

use crate::directory::{Directory, Slot};
use crate::layout::{FIELDS, NO_WORDS, field_words, kind_bits, kind_in};
use crate::words::Word;
use bmx_msg::{Field, Fields};
use bmx_segment::{Clash, HEADER_WORDS, Header, Kind, PlaceError, SEGMENT_WORDS, Segments, State};
use bmx_types::{Address, BunchNo, Info, Name, NoMemory, NodeNo, Place, Val};
use std::alloc::Global;
use std::marker::Model;
use std::mem;

/// Why a place isn't learned.
#[derive(Clone, Copy, Debug, PartialEq, Eq)]
pub enum LearnError {
    NoMemory,
    /// It doesn't fit what the node has.
    Clash,
}

impl From<NoMemory> for LearnError {
    ghost use Rattle.std.specs.Prelude.{◌≡◌};
    ghost use Rattle.bmx_replica.specs.declared.replica.LearnError.TheVariants.{NoMemory as out_of_memory};

    ghost from_gives = { λ _ e. e ≡ out_of_memory };

    fn from(_error: NoMemory) -> LearnError {
        LearnError::NoMemory
    }
}

impl From<Clash> for LearnError {
    ghost use Rattle.std.specs.Prelude.{◌≡◌};
    ghost use Rattle.bmx_replica.specs.declared.replica.LearnError.TheVariants.{Clash as no_fit};

    ghost from_gives = { λ _ e. e ≡ no_fit };

    fn from(_error: Clash) -> LearnError {
        LearnError::Clash
    }
}

/// What a node has of objects: under each name where the object lies, and in the segments there its
/// header and, where it has a copy, its fields. Contracts see an entry for each name, and the heap.
#[derive(Drop)]
pub struct Replica {
    me: NodeNo,
    directory: Directory,
    pub(crate) segments: Segments,
    alloc: Global,
}

impl Model for Replica {
    ghost use Rattle.std.specs.Prelude.{◌≡◌, min};
    ghost use Rattle.bmx_segment.specs.Stores.{AreApart};
    ghost use Rattle.bmx_replica.specs.Replicas.{Holding, IsReplica};

    ghost Value = { Holding };

    ghost view = { λ r. record { slots = r.directory.slots; heap = r.segments; spare = min r.directory.spare r.segments.spare } };

    ghost invariant = { λ r. (r.me ≡ r.segments.me) × IsReplica r.directory.slots r.segments.blocks × AreApart r.segments.blocks };
}

/// The parts of a replica, lent out of it: its names, and its segments, for calls that leave the header and
/// the words of every name's object as they are.
#[derive(Drop)]
pub struct Lent {
    directory: Directory,
    pub segments: Segments,
}

/// Where the object of a name stands, and its header there.
#[derive(Clone, Copy)]
pub(crate) struct Found {
    pub(crate) slot: Slot,
    pub(crate) header: Header,
}

impl Replica {
    ghost use Rattle.bmx_replica.specs.Lending.{slots_in, room_in};

    /// No name, nothing made or mapped. Takes no memory.
    pub fn new(alloc: Global, me: NodeNo, limit: u32) -> Replica
        requires { limit ≤ 65535 }
        ensures slots { result.slots ≡ [] }
        ensures heap { result.heap ≡ record { me = me; limit = limit; own = []; current = replicate 16 None; blocks = []; spare = 0 } }
    {
        Replica {
            me,
            directory: Directory::new(alloc),
            segments: Segments::new(alloc, me, limit),
            alloc,
        }
    }

    /// Lends the segments, with the names, which the replica is without until they are given back. Takes no
    /// memory.
    pub fn lend(&mut self) -> Lent
        ensures slots { slots_in result ≡ self.old.slots }
        ensures segments { result.segments ≡ self.old.heap }
        ensures spare { min (room_in result) result.segments.spare ≡ self.old.spare }
        ensures replica { IsReplica self.old.slots self.old.heap.blocks }
        ensures left { self.new.slots ≡ [] }
        ensures nothing { self.new.heap ≡ record { me = self.old.heap.me; limit = 0; own = []; current = replicate 16 None; blocks = []; spare = 0 } }
    {
        let nothing = Replica::new(self.alloc, self.me, 0);
        let Replica {
            directory,
            segments,
            ..
        } = mem::replace(self, nothing);
        Lent {
            directory,
            segments,
        }
    }

    /// Takes back what was lent: the segments of its own node, in which each name's object still stands.
    pub fn give_back(&mut self, lent: Lent)
        requires replica { IsReplica (slots_in lent) lent.segments.blocks }
        requires me { lent.segments.me ≡ self.old.heap.me }
        ensures { self.new ≡ record { slots = slots_in lent; heap = lent.segments; spare = min (room_in lent) lent.segments.spare } }
    {
        let Lent {
            directory,
            segments,
        } = lent;
        look(&segments);
        self.directory = directory;
        self.segments = segments;
    }

    /// The segments.
    pub fn segments(&self) -> &Segments
        ensures heap { result.now ≡ self.now.heap }
        ensures replica { IsReplica self.now.slots self.now.heap.blocks }
        ensures kept { IsHeap self.now.heap }
        ensures apart { AreApart self.now.heap.blocks }
    {
        let _made = self.segments.made();
        &self.segments
    }

    /// Where the object of a name stands, None where the name has no entry.
    pub(crate) fn find(&self, name: Name) -> Option<Found>
        ensures slot { option_map (λ f. f.slot) result ≡ slot_of self.now.slots name }
        ensures found { IfSome result (λ f. IsFound self.now.slots self.now.heap.blocks name f.slot f.header) }
        ensures entry { is_some result ≡ is_some (entry_of self.now name) }
        ensures few { IfSome result (λ f. f.header.size ≤ 32) }
        ensures stands { IfSome result (λ f. CanSet self.now.heap f.slot.address f.header.name f.header.size) }
        ensures replica { IsReplica self.now.slots self.now.heap.blocks }
    {
        let slot = self.directory.get(name)?;
        let Some(header) = self.segments.header(slot.address) else {
            unreachable!()
        };
        Some(Found { slot, header })
    }

    /// What the node knows of the object of a name, None where the name has no entry. Expected constant
    /// time, but for finding the segment.
    pub fn info(&self, name: Name) -> Option<Info>
        ensures { result ≡ option_map (info_in name) (entry_of self.now name) }
    {
        let Found { slot, header } = self.find(name)?;
        let State::Live { moves, .. } = header.state else {
            unreachable!()
        };
        Some(Info {
            name,
            bunch: header.bunch,
            size: header.size,
            place: Place {
                address: slot.address,
                moves,
            },
        })
    }

    /// Whether the name has an entry with a copy.
    pub fn has_copy(&self, name: Name) -> bool
        ensures { IsTrue result ↔ IsSome (copy_of self.now name) }
    {
        match self.directory.get(name) {
            Some(slot) => slot.has_copy,
            None => false,
        }
    }

    /// The name that an address word means, None where following it ends at no header. It looks at one
    /// header, since each header of a chain has the name of the last.
    pub fn meaning(&self, w: u64) -> Option<Name>
        ensures some { IfSome result (λ name. Means self.now.heap.blocks w name) }
        ensures none { IfNone result ((name : ℕ) → ¬ Means self.now.heap.blocks w name) }
        ensures header { IfSome result (λ name. name_at self.now.heap.blocks w ≡ Some name) }
        ensures replica { IsReplica self.now.slots self.now.heap.blocks }
    {
        let segments = &self.segments;
        let address = Address::from_word(w)?;
        match segments.name(address) {
            Some(name) => Some(name),
            None => None,
        }
    }

    /// Whether two address words mean one name.
    pub fn same(&self, a: u64, b: u64) -> bool
        ensures { IsTrue result ↔ ((name : ℕ) × Means self.now.heap.blocks a name × Means self.now.heap.blocks b name) }
    {
        match (self.meaning(a), self.meaning(b)) {
            (Some(x), Some(y)) => x == y,
            _ => false,
        }
    }

    /// What a word holds.
    pub fn value(&self, word: Word) -> Val
        requires { IsField self.now.heap.blocks (kind_number word.kind) word.word }
        ensures { result ≡ value_in self.now.heap.blocks (kind_number word.kind) word.word }
    {
        match word.kind {
            Kind::Null => Val::Null,
            Kind::Int => Val::Int(word.word.cast_signed()),
            Kind::Ref => match self.meaning(word.word) {
                Some(name) => Val::Ref(name),
                None => unreachable!(),
            },
            Kind::Far => unreachable!(),
        }
    }

    /// The word that holds a value.
    pub fn word(&self, value: Val) -> Word
        requires { HasTarget self.now value }
        ensures word { result ≡ word_in self.now value }
        ensures field { IsField self.now.heap.blocks (kind_number result.kind) result.word }
        ensures reach { ReachesTarget self.now value result }
        ensures holds { value_in self.now.heap.blocks (kind_number result.kind) result.word ≡ value }
    {
        match value {
            Val::Null => Word {
                kind: Kind::Null,
                word: 0,
            },
            Val::Int(number) => Word {
                kind: Kind::Int,
                word: number.cast_unsigned(),
            },
            Val::Ref(name) => {
                let Some(slot) = self.directory.get(name) else {
                    unreachable!()
                };
                Word {
                    kind: Kind::Ref,
                    word: slot.address.word(),
                }
            }
        }
    }

    /// The value in a field of a copy that was found.
    fn field_in(&self, found: &Found, i: u8) -> Val
        requires found { IsFound self.now.slots self.now.heap.blocks found.now.header.name found.now.slot found.now.header }
        requires copy { found.now.slot.has_copy ≡ true }
        requires field { i < found.now.header.size }
        requires few { found.now.header.size ≤ 32 }
        requires replica { IsReplica self.now.slots self.now.heap.blocks }
        ensures { field_of self.now found.now.header.name i ≡ Some result }
    {
        let Found { slot, header } = *found;
        let State::Live { kinds, .. } = header.state else {
            unreachable!()
        };
        let word = Word {
            kind: kind_in(kinds, i),
            word: self.segments.word(slot.address, i),
        };
        self.value(word)
    }

    /// The value in a field of a name's copy.
    pub fn read_field(&self, name: Name, i: u8) -> Val
        requires { IsSome (field_of self.now name i) }
        ensures { field_of self.now name i ≡ Some result }
    {
        let Some(found) = self.find(name) else {
            unreachable!()
        };
        self.field_in(&found, i)
    }

    /// The value in a field of a name's copy, None where the name has no copy or the copy no such field.
    pub fn field(&self, name: Name, i: u8) -> Option<Val>
        ensures { result ≡ field_of self.now name i }
    {
        let Some(found) = self.find(name) else {
            return None;
        };
        if !found.slot.has_copy || i >= found.header.size {
            return None;
        }
        Some(self.field_in(&found, i))
    }

    /// Writes a field of a name's copy. A reference is stored as the current address of its name.
    pub fn write_field(&mut self, name: Name, i: u8, v: Val)
        requires field { IsSome (field_of self.old name i) }
        requires target { HasTarget self.old v }
        ensures { WritesField self.old self.new name i v }
    {
        self.put_field(name, i, v);
    }

    /// The same.
    fn put_field(&mut self, name: Name, i: u8, v: Val)
        requires field { IsSome (field_of self.old name i) }
        requires target { HasTarget self.old v }
        ensures writes { WritesField self.old self.new name i v }
        ensures others { OthersStay self.old self.new name i }
        ensures fields { IsReplica self.old.slots self.old.heap.blocks }
    {
        let Word { kind, word } = self.word(v);
        let Some(slot) = self.directory.get(name) else {
            unreachable!()
        };
        self.segments.set_word(slot.address, i, kind, word);
    }

    /// Writes a field of a copy again, so that a reference is stored as the current address of its name.
    fn repoint_field(&mut self, name: Name, i: u8)
        requires field { IsSome (field_of self.old name i) }
        requires targets { HasTargets self.old }
        ensures done { Repoints self.old self.new }
        ensures current { IsCurrent self.new name i }
    {
        let value = self.read_field(name, i);
        self.put_field(name, i, value);
    }

    /// Writes all fields of a name's copy again.
    fn repoint_fields(&mut self, name: Name)
        requires targets { HasTargets self.old }
        ensures done { Repoints self.old self.new }
        ensures current { (i : ℕ) → IsCurrent self.new name i }
    {
        let Some(found) = self.find(name) else {
            return;
        };
        if !found.slot.has_copy {
            return;
        }
        for i in 0..found.header.size {
            self.repoint_field(name, i);
        }
    }

    /// Stores each reference in each copy as the current address of its name, so that no chain is longer
    /// than the moves from now on. Every word means what it meant. Walks all names.
    pub fn repoint(&mut self)
        requires { HasTargets self.old }
        ensures done { Repoints self.old self.new }
        ensures current { (name i : ℕ) → IsCurrent self.new name i }
    {
        for place in 0..self.directory.len() {
            let (name, _) = self.directory.at(place);
            self.repoint_fields(name);
        }
    }

    /// Clears the fields of a name, which has no copy from now on. Where it has no entry nothing changes.
    pub fn clear_copy(&mut self, name: Name)
        ensures { ClearsCopy self.old self.new name }
    {
        let Some(found) = self.find(name) else {
            return;
        };
        let Found { slot, header } = found;
        let State::Live { moves, .. } = header.state else {
            unreachable!()
        };
        let state = State::Live { moves, kinds: 0 };
        let cleared = Header { state, ..header };
        let Ok(()) = self.segments.lay(slot.address, &cleared, &NO_WORDS) else {
            unreachable!()
        };
        let has_copy = false;
        self.directory.set(name, Slot { has_copy, ..slot });
    }

    /// Gives a name a copy with these fields, whether it had one before or not. A reference is stored as
    /// the current address of its name. Takes no memory. Linear in the fields.
    pub fn install(&mut self, name: Name, fields: &Fields)
        requires size { IsSomeAnd (entry_of self.old name) (λ e. length fields.now ≡ e.size) }
        requires targets { All (λ v. HasTarget self.old v) (values_told fields.now) }
        ensures { Installs self.old self.new name (values_told fields.now) }
    {
        let Some(found) = self.find(name) else {
            unreachable!()
        };
        let Found { slot, header } = found;
        let State::Live { moves, .. } = header.state else {
            unreachable!()
        };
        let (kinds, words) = self.words_told(fields.as_slice());
        let state = State::Live { moves, kinds };
        let filled = Header { state, ..header };
        let Ok(()) = self.segments.lay(slot.address, &filled, &words) else {
            unreachable!()
        };
        let has_copy = true;
        self.directory.set(name, Slot { has_copy, ..slot });
    }

    /// The kinds of fields, and their words.
    fn words_told(&self, fields: &[Field]) -> (u64, [u64; FIELDS])
        requires few { length fields.now ≤ 32 }
        requires targets { All (λ v. HasTarget self.now v) (values_told fields.now) }
        ensures kinds { result.0 ≡ kinds_of (map (word_in self.now) (values_told fields.now)) }
        ensures words { AreHeld self.now (values_told fields.now) result.1 }
    {
        let mut kinds = 0;
        let mut words = NO_WORDS;
        for (i, field) in fields.iter().enumerate() {
            let Word { kind, word } = self.word_told(field);
            kinds += kind_bits(kind, i);
            words[i] = word;
        }
        (kinds, words)
    }

    /// Makes an object of a bunch under a new name, with null fields, where the segments find a place. It
    /// is full where they are.
    pub fn make(&mut self, name: Name, bunch: BunchNo, size: u8) -> Result<(), PlaceError>
        requires absent { entry_of self.old name ≡ None }
        requires few { size ≤ 32 }
        ensures made { OnOk result (MakesObject self.old self.new name bunch size) }
        ensures full { IsErrOf result Full → (self.old.heap.limit ≤ made_of self.old.heap) × (room_of self.old.heap bunch < 4 + size) }
        ensures room { OnOk result (¬ ((self.old.heap.limit ≤ made_of self.old.heap) × (room_of self.old.heap bunch < 4 + size))) }
        ensures err { OnErr result (Same self.old self.new) }
    {
        self.directory.reserve(1)?;
        let address = self.segments.place(bunch, size)?;
        let place = Place { address, moves: 0 };
        let info = Info {
            name,
            bunch,
            size,
            place,
        };
        let Ok(()) = add_object(&mut self.directory, &mut self.segments, &info, true) else {
            unreachable!()
        };
        Ok(())
    }

    /// The same for an object that the store opens with, without a limit on segments.
    pub fn make_birth(&mut self, name: Name, bunch: BunchNo, size: u8) -> Result<(), NoMemory>
        requires absent { entry_of self.old name ≡ None }
        requires few { size ≤ 32 }
        requires more { made_of self.old.heap < 65535 }
        ensures made { OnOk result (MakesObject self.old self.new name bunch size) }
        ensures err { OnErr result (Same self.old self.new) }
    {
        self.directory.reserve(1)?;
        let address = self.segments.place_birth(bunch, size)?;
        let place = Place { address, moves: 0 };
        let info = Info {
            name,
            bunch,
            size,
            place,
        };
        let Ok(()) = add_object(&mut self.directory, &mut self.segments, &info, true) else {
            unreachable!()
        };
        Ok(())
    }

    /// Whether the object of an Info can lie where it says.
    pub(crate) fn can_lie(&self, info: &Info) -> bool
        requires { info.now.size ≤ 32 }
        ensures { IsTrue result ↔ CanLie self.now.heap info.now.place.address info.now.name info.now.size }
    {
        let address = info.place.address;
        if self.segments.is_mapped(address.home(), address.segment()) {
            self.segments.can_set(address, &blank_header(info))
        } else {
            is_handed(&self.segments, self.me, address, info.size)
        }
    }

    /// Learns where an object lies: a name not there gets an entry without a copy; of a larger moves the
    /// entry and its copy are moved and the old header forwards; else nothing changes. It clashes exactly
    /// where the bunch or the size differs from the entry's, a larger moves comes with the entry's own
    /// address, or the object can't lie there; then nothing changes, as where memory is wanting. It takes
    /// none while `spare` is at least 1.
    pub fn learn(&mut self, info: &Info) -> Result<(), LearnError>
        requires { info.now.size ≤ 32 }
        ensures ok { OnOk result (Learns self.old self.new info.now) }
        ensures clash { IsErrOf result no_fit → ¬ Accepts self.old.heap info.now (entry_of self.old info.now.name) }
        ensures err { OnErr result (Same self.old self.new) }
        ensures free { 0 < self.old.spare → ¬ IsErrOf result out_of_memory }
    {
        match self.hear(info) {
            Ok(_) => Ok(()),
            Err(why) => Err(why),
        }
    }

    /// The same, and whether the name had no entry.
    pub fn hear(&mut self, info: &Info) -> Result<bool, LearnError>
        requires { info.now.size ≤ 32 }
        ensures new { IfOk result (λ new. new ≡ not (is_some (entry_of self.old info.now.name))) }
        ensures ok { OnOk result (Learns self.old self.new info.now) }
        ensures clash { IsErrOf result no_fit → ¬ Accepts self.old.heap info.now (entry_of self.old info.now.name) }
        ensures err { OnErr result (Same self.old self.new) }
        ensures free { 0 < self.old.spare → ¬ IsErrOf result out_of_memory }
    {
        if self.knows(info) {
            return Ok(false);
        }
        match self.find(info.name) {
            Some(found) => match self.learn_again(info, &found) {
                Ok(()) => Ok(false),
                Err(why) => Err(why),
            },
            None => match self.learn_new(info) {
                Ok(()) => Ok(true),
                Err(why) => Err(why),
            },
        }
    }

    /// Whether an Info tells nothing new of an object that stands where it says. It looks nothing up.
    #[inline(always)]
    fn knows(&self, info: &Info) -> bool
        ensures learned { IsTrue result → Learns self.now self.now info.now }
        ensures known { IsTrue result → is_some (entry_of self.now info.now.name) ≡ true }
    {
        match self.segments.header(info.place.address) {
            Some(header) => tells(&header, info),
            None => false,
        }
    }

    /// Learns where an object of a new name lies.
    fn learn_new(&mut self, info: &Info) -> Result<(), LearnError>
        requires few { info.now.size ≤ 32 }
        requires none { slot_of self.old.slots info.now.name ≡ None }
        ensures ok { OnOk result (Learns self.old self.new info.now) }
        ensures clash { IsErrOf result no_fit → ¬ Accepts self.old.heap info.now (entry_of self.old info.now.name) }
        ensures err { OnErr result (Same self.old self.new) }
        ensures free { 0 < self.old.spare → ¬ IsErrOf result out_of_memory }
    {
        self.directory.reserve(1)?;
        map_for(&mut self.segments, self.me, info)?;
        add_object(&mut self.directory, &mut self.segments, info, false)?;
        Ok(())
    }

    /// Learns where an object of a name with an entry lies.
    fn learn_again(&mut self, info: &Info, found: &Found) -> Result<(), LearnError>
        requires few { info.now.size ≤ 32 }
        requires found { IsFound self.old.slots self.old.heap.blocks info.now.name found.now.slot found.now.header }
        requires small { found.now.header.size ≤ 32 }
        ensures ok { OnOk result (Learns self.old self.new info.now) }
        ensures clash { IsErrOf result no_fit → ¬ Accepts self.old.heap info.now (entry_of self.old info.now.name) }
        ensures err { OnErr result (Same self.old self.new) }
        ensures free { 0 < self.old.spare → ¬ IsErrOf result out_of_memory }
    {
        let Found { slot, header } = *found;
        let State::Live { moves, .. } = header.state else {
            unreachable!()
        };
        if header.bunch != info.bunch || header.size != info.size {
            return Err(LearnError::Clash);
        }
        if info.place.moves <= moves {
            return Ok(());
        }
        if info.place.address == slot.address {
            return Err(LearnError::Clash);
        }
        map_for(&mut self.segments, self.me, info)?;
        re_place(&mut self.directory, &mut self.segments, found, info.place)?;
        Ok(())
    }

    /// Makes `spare` at least n: so many names can then be learned without memory.
    pub fn reserve(&mut self, n: u32) -> Result<(), NoMemory>
        ensures slots { self.new.slots ≡ self.old.slots }
        ensures heap { self.new.heap ≡ record self.old.heap { spare = self.new.heap.spare } }
        ensures ok { OnOk result (n ≤ self.new.spare) }
        ensures spare { self.old.spare ≤ self.new.spare }
        ensures free { n ≤ self.old.spare → IsOk result }
    {
        self.directory.reserve(n as usize)?;
        self.segments.reserve(n)
    }

    /// Takes the entry of a name away; its header is dead. Where it has no entry nothing changes. A word
    /// that leads to the object still means the name.
    pub fn forget(&mut self, name: Name)
        ensures { Forgets self.old self.new name }
    {
        let Some(found) = self.find(name) else {
            return;
        };
        self.segments.kill(found.slot.address);
        self.directory.remove(name);
    }

    /// Moves the object of a name, with its copy, to words that were handed out for it: its moves rise by
    /// 1, and the old header forwards.
    pub fn relocate(&mut self, name: Name, to: Address)
        requires { IsSomeAnd (entry_of self.old name) (λ e. CanMove self.old.heap to e) }
        ensures { MovesObject self.old self.new name to }
    {
        let Some(found) = self.find(name) else {
            unreachable!()
        };
        let State::Live { moves, .. } = found.header.state else {
            unreachable!()
        };
        let place = Place {
            address: to,
            moves: moves + 1,
        };
        let Ok(()) = re_place(&mut self.directory, &mut self.segments, &found, place) else {
            unreachable!()
        };
    }
}

/// Whether a header is that of an Info's object, moved no less often than the Info says.
#[inline(always)]
fn tells(header: &Header, info: &Info) -> bool
    ensures { IsTrue result → Tells header.now info.now }
{
    let State::Live { moves, .. } = header.state else {
        return false;
    };
    header.name == info.name
        && header.bunch == info.bunch
        && header.size == info.size
        && info.place.moves <= moves
}

/// Looks at a header, for what all headers keep: no two share a word.
fn look(segments: &Segments)
    ensures { AreApart segments.now.blocks }
{
    let Some(first) = Address::from_word(1 << 32) else {
        unreachable!()
    };
    let _header = segments.header(first);
}

/// Moves an object to a place, with its fields, and forwards its old header. It clashes exactly where a
/// header can't be set there, and nothing changes then.
fn re_place(
    directory: &mut Directory,
    segments: &mut Segments,
    found: &Found,
    to: Place,
) -> Result<(), Clash>
    requires found { IsFound directory.old.slots segments.old.blocks found.now.header.name found.now.slot found.now.header }
    requires few { found.now.header.size ≤ 32 }
    requires apart { found.now.slot.address ≢ to.address }
    ensures ok { IsOk result ↔ CanSet segments.old to.address found.now.header.name found.now.header.size }
    ensures moved { OnOk result (Moves segments.old.blocks segments.new.blocks found.now.slot.address to found.now.header) }
    ensures apart { OnOk result (AreApart segments.new.blocks) }
    ensures rest { segments.new ≡ record segments.old { blocks = segments.new.blocks } }
    ensures slots { OnOk result (PutsSlot directory.old.slots directory.new.slots found.now.header.name (Some (record found.now.slot { address = to.address }))) }
    ensures spare { directory.new.spare ≡ directory.old.spare }
    ensures err { OnErr result (segments.new ≡ segments.old) }
    ensures err_slots { OnErr result (directory.new ≡ directory.old) }
{
    let Found { slot, header } = *found;
    let State::Live { kinds, .. } = header.state else {
        unreachable!()
    };
    let words = field_words(segments, slot.address, &header);
    let moves = to.moves;
    let state = State::Live { moves, kinds };
    let moved = Header { state, ..header };
    segments.lay(to.address, &moved, &words)?;
    segments.forward(slot.address, to.address);
    let address = to.address;
    directory.set(header.name, Slot { address, ..slot });
    Ok(())
}

/// The header of an object whose fields are null.
fn blank_header(info: &Info) -> Header
    ensures { result ≡ blank_header info.now }
{
    let state = State::Live {
        moves: info.place.moves,
        kinds: 0,
    };
    Header {
        bunch: info.bunch,
        size: info.size,
        name: info.name,
        state,
    }
}

/// Adds an object with null fields under a name. It clashes exactly where its header can't be set, and
/// nothing changes then.
fn add_object(
    directory: &mut Directory,
    segments: &mut Segments,
    info: &Info,
    has_copy: bool,
) -> Result<(), Clash>
    requires few { info.now.size ≤ 32 }
    requires room { 0 < directory.old.spare }
    ensures ok { IsOk result ↔ CanSet segments.old info.now.place.address info.now.name info.now.size }
    ensures laid { OnOk result (Lays segments.old.blocks segments.new.blocks info.now.place.address (blank_header info.now) (λ i. 0)) }
    ensures apart { OnOk result (AreApart segments.new.blocks) }
    ensures rest { segments.new ≡ record segments.old { blocks = segments.new.blocks } }
    ensures slots { OnOk result (PutsSlot directory.old.slots directory.new.slots info.now.name (Some (record { address = info.now.place.address; has_copy = has_copy }))) }
    ensures spare { directory.old.spare ≤ directory.new.spare + 1 }
    ensures err { OnErr result (segments.new ≡ segments.old) }
    ensures err_slots { OnErr result (directory.new ≡ directory.old) }
{
    let address = info.place.address;
    segments.lay(address, &blank_header(info), &NO_WORDS)?;
    directory.add(info.name, Slot { address, has_copy });
    Ok(())
}

/// Whether an object of so many fields stays within the segment of an address, and its words were handed
/// out where the segment is the node's own.
fn is_handed(segments: &Segments, me: NodeNo, address: Address, size: u8) -> bool
    requires few { size ≤ 32 }
    requires me { me ≡ segments.now.me }
    ensures { IsTrue result ↔ ((index_of address + 4 + size ≤ 1024) × (home_of address ≡ segments.now.me → index_of address + 4 + size ≤ handed_of segments.now (segment_of address))) }
{
    let end = address.index() + HEADER_WORDS as u32 + size as u32;
    if end > SEGMENT_WORDS as u32 {
        return false;
    }
    if address.home() != me {
        return true;
    }
    let number = address.segment();
    number <= segments.made() && end <= SEGMENT_WORDS as u32 - segments.left(number)
}

/// Maps the segment in which an object is to lie. It clashes where the object can't lie there since the
/// segment isn't mapped and no such words were handed out in it.
fn map_for(segments: &mut Segments, me: NodeNo, info: &Info) -> Result<(), LearnError>
    requires few { info.now.size ≤ 32 }
    requires me { me ≡ segments.old.me }
    ensures ok { OnOk result (Readies segments.old segments.new info.now.place.address info.now.name info.now.size) }
    ensures clash { IsErrOf result no_fit → ¬ CanLie segments.old info.now.place.address info.now.name info.now.size }
    ensures err { OnErr result (segments.new ≡ segments.old) }
    ensures free { 0 < segments.old.spare → ¬ IsErrOf result out_of_memory }
{
    let address = info.place.address;
    if segments.is_mapped(address.home(), address.segment()) {
        return Ok(());
    }
    if !is_handed(segments, me, address, info.size) {
        return Err(LearnError::Clash);
    }
    segments.map(address)?;
    Ok(())
}

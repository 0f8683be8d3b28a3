//! Objects as they are found by words, and values with their words: what a program's command on a register
//! needs, without a look-up by name.
ghost use Rattle.std.specs.Prelude.{◌≡◌, ℕ, ◌<◌, ◌↔◌, true, None, IsTrue, IsSome, IfSome, IfNone, is_some, nat_lt};
ghost use Rattle.std.specs.Option.{option_map};
ghost use Rattle.bmx_segment.specs.Headers.{kind_number};
ghost use Rattle.bmx_replica.specs.Chains.{Means, name_at, is_live};
ghost use Rattle.bmx_replica.specs.Replicas.{entry_of, info_in, copy_of, field_of, value_in, word_in, target_in, HasTarget, IsField, IsReplica, StandsAt, IsHolding, WritesField};
ghost use Rattle.bmx_replica.specs.Letters.{value_told};

use crate::layout::kind_in;
use crate::letters::value_told;
use crate::replica::{Found, Replica};
use crate::words::Word;
use bmx_msg::Field;
use bmx_segment::{Header, Kind, State};
use bmx_types::{Address, Info, Name, Place, Val};

/// An object where it stands: its address, and its live header there.
#[derive(Clone, Copy)]
pub struct Object {
    pub address: Address,
    pub header: Header,
}

/// A value, and the word that holds it.
#[derive(Clone, Copy)]
pub struct Held {
    pub value: Val,
    pub word: Word,
}

impl Replica {
    /// The object of a name where it stands, None where the name has no entry. Expected constant time.
    pub fn object(&self, name: Name) -> Option<Object>
        ensures stands { IfSome result (λ o. StandsAt self.now o) }
        ensures named { IfSome result (λ o. o.header.name ≡ name) }
        ensures some { is_some result ≡ is_some (entry_of self.now name) }
    {
        let Found { slot, header } = self.find(name)?;
        let address = slot.address;
        Some(Object { address, header })
    }

    /// The object of a name where it stands, None where the name has no copy. Expected constant time.
    pub fn copied(&self, name: Name) -> Option<Object>
        ensures stands { IfSome result (λ o. StandsAt self.now o) }
        ensures named { IfSome result (λ o. o.header.name ≡ name) }
        ensures some { is_some result ≡ is_some (copy_of self.now name) }
    {
        let Found { slot, header } = self.find(name)?;
        if !slot.has_copy {
            return None;
        }
        let address = slot.address;
        Some(Object { address, header })
    }

    /// The object of an Info's name where it stands, None where the name has no entry. The name is looked up
    /// only where its object isn't where the Info says.
    #[inline(always)]
    pub(crate) fn object_told(&self, info: &Info) -> Option<Object>
        ensures stands { IfSome result (λ o. StandsAt self.now o) }
        ensures named { IfSome result (λ o. o.header.name ≡ info.now.name) }
        ensures some { is_some result ≡ is_some (entry_of self.now info.now.name) }
        ensures replica { IsReplica self.now.slots self.now.heap.blocks }
    {
        let segments = &self.segments;
        let address = info.place.address;
        match segments.header(address) {
            Some(header) if is_live_of(&header, info.name) => Some(Object { address, header }),
            _ => self.object(info.name),
        }
    }

    /// What the node knows of the object of an Info's name, None where the name has no entry.
    #[inline(always)]
    pub(crate) fn known_of(&self, info: &Info) -> Option<Info>
        ensures { result ≡ option_map (info_in info.now.name) (entry_of self.now info.now.name) }
    {
        match self.object_told(info) {
            Some(object) => Some(self.info_at(&object)),
            None => None,
        }
    }

    /// The word that holds what a field of a letter tells.
    #[inline(always)]
    pub(crate) fn word_told(&self, field: &Field) -> Word
        requires { HasTarget self.now (value_told field.now) }
        ensures word { result ≡ word_in self.now (value_told field.now) }
        ensures field { IsField self.now.heap.blocks (kind_number result.kind) result.word }
        ensures holds { value_in self.now.heap.blocks (kind_number result.kind) result.word ≡ value_told field.now }
    {
        match field {
            Field::Ref(info) => {
                let Some(object) = self.object_told(info) else {
                    unreachable!()
                };
                let kind = Kind::Ref;
                let word = object.address.word();
                Word { kind, word }
            }
            _ => self.word(value_told(field)),
        }
    }

    /// Whether the name of an object has a copy. It is looked up only where all fields are null.
    pub fn is_copied(&self, object: &Object) -> bool
        requires { StandsAt self.now object.now }
        ensures { IsTrue result ↔ IsSome (copy_of self.now object.now.header.name) }
    {
        let _segments = &self.segments;
        let State::Live { kinds, .. } = object.header.state else {
            unreachable!()
        };
        if kinds != 0 {
            return true;
        }
        self.has_copy(object.header.name)
    }

    /// What the node knows of an object where it stands. It looks nothing up.
    pub fn info_at(&self, object: &Object) -> Info
        requires { StandsAt self.now object.now }
        ensures { option_map (info_in object.now.header.name) (entry_of self.now object.now.header.name) ≡ Some result }
    {
        let _segments = &self.segments;
        let Object { address, header } = *object;
        let State::Live { moves, .. } = header.state else {
            unreachable!()
        };
        Info {
            name: header.name,
            bunch: header.bunch,
            size: header.size,
            place: Place { address, moves },
        }
    }

    /// The object of the name that an address word means, None where it means none or the name has no
    /// entry. Where the object stands at that address, no name is looked up.
    #[inline(always)]
    pub fn object_at(&self, w: u64) -> Option<Object>
        ensures stands { IfSome result (λ o. StandsAt self.now o) }
        ensures means { IfSome result (λ o. name_at self.now.heap.blocks w ≡ Some o.header.name) }
        ensures none { IfNone result ((name : ℕ) → Means self.now.heap.blocks w name → entry_of self.now name ≡ None) }
        ensures replica { IsReplica self.now.slots self.now.heap.blocks }
    {
        let segments = &self.segments;
        let address = Address::from_word(w)?;
        let header = segments.header(address)?;
        match header.state {
            State::Live { .. } => Some(Object { address, header }),
            _ => self.object(header.name),
        }
    }

    /// The word in a field of an object, None where it has no such field.
    pub fn field_word(&self, object: &Object, i: u8) -> Option<Word>
        requires { StandsAt self.now object.now }
        ensures some { is_some result ≡ nat_lt i object.now.header.size }
        ensures entry { IsSome (entry_of self.now object.now.header.name) }
        ensures field { IfSome result (λ w. IsField self.now.heap.blocks (kind_number w.kind) w.word) }
        ensures value { IsSome (copy_of self.now object.now.header.name) → field_of self.now object.now.header.name i ≡ option_map (λ w. value_in self.now.heap.blocks (kind_number w.kind) w.word) result }
    {
        let segments = &self.segments;
        if i >= object.header.size {
            return None;
        }
        let State::Live { kinds, .. } = object.header.state else {
            unreachable!()
        };
        let word = segments.word(object.address, i);
        let kind = kind_in(kinds, i);
        Some(Word { kind, word })
    }

    /// The object that the word of a reference refers to.
    #[inline(always)]
    fn referred(&self, w: u64) -> Object
        requires field { IsField self.now.heap.blocks 2 w }
        requires target { HasTarget self.now (value_in self.now.heap.blocks 2 w) }
        ensures stands { StandsAt self.now result }
        ensures named { value_in self.now.heap.blocks 2 w ≡ Val.Ref result.header.name }
        ensures replica { IsReplica self.now.slots self.now.heap.blocks }
    {
        let Some(object) = self.object_at(w) else {
            unreachable!()
        };
        object
    }

    /// The object that a word refers to, None where it holds no reference.
    #[inline(always)]
    pub fn object_of(&self, word: Word) -> Option<Object>
        requires field { IsField self.now.heap.blocks (kind_number word.kind) word.word }
        requires target { HasTarget self.now (value_in self.now.heap.blocks (kind_number word.kind) word.word) }
        ensures stands { IfSome result (λ o. StandsAt self.now o) }
        ensures named { option_map (λ o. o.header.name) result ≡ target_in (value_in self.now.heap.blocks (kind_number word.kind) word.word) }
    {
        match word.kind {
            Kind::Null => None,
            Kind::Int => None,
            Kind::Ref => Some(self.referred(word.word)),
            Kind::Far => unreachable!(),
        }
    }

    /// A value with the word that holds it, a reference by the current address of its name.
    pub fn held(&self, value: Val) -> Held
        requires { HasTarget self.now value }
        ensures value { result.value ≡ value }
        ensures held { IsHolding self.now result }
    {
        let word = self.word(value);
        self.held_by(word)
    }

    /// What a word holds, with the word that holds it by the current address of its name. Where the object
    /// stands at the word's address, no name is looked up.
    pub fn held_by(&self, word: Word) -> Held
        requires field { IsField self.now.heap.blocks (kind_number word.kind) word.word }
        requires target { HasTarget self.now (value_in self.now.heap.blocks (kind_number word.kind) word.word) }
        ensures value { result.value ≡ value_in self.now.heap.blocks (kind_number word.kind) word.word }
        ensures held { IsHolding self.now result }
    {
        match word.kind {
            Kind::Null => Held {
                value: Val::Null,
                word,
            },
            Kind::Int => Held {
                value: Val::Int(word.word.cast_signed()),
                word,
            },
            Kind::Ref => {
                let Object { address, header } = self.referred(word.word);
                let kind = Kind::Ref;
                let word = address.word();
                Held {
                    value: Val::Ref(header.name),
                    word: Word { kind, word },
                }
            }
            Kind::Far => unreachable!(),
        }
    }

    /// Writes a value to a field of the copy of an object's name. A name is looked up where the value refers
    /// to one.
    pub fn store_at(&mut self, object: &Object, i: u8, value: Val)
        requires stands { StandsAt self.old object.now }
        requires field { IsSome (field_of self.old object.now.header.name i) }
        requires target { HasTarget self.old value }
        ensures { WritesField self.old self.new object.now.header.name i value }
    {
        let at = object.address;
        let Word { kind, word } = self.word(value);
        self.segments.set_word(at, i, kind, word);
    }

    /// Writes a field of the copy of an object's name.
    pub fn write_at(&mut self, object: &Object, i: u8, held: Held)
        requires stands { StandsAt self.old object.now }
        requires copy { IsSome (copy_of self.old object.now.header.name) }
        requires field { i < object.now.header.size }
        requires held { IsHolding self.old held }
        ensures { WritesField self.old self.new object.now.header.name i held.value }
    {
        let Word { kind, word } = held.word;
        self.segments.set_word(object.address, i, kind, word);
    }
}

/// Whether a header is that of the name's object.
fn is_live_of(header: &Header, name: Name) -> bool
    ensures live { IsTrue result → (is_live header.now.state ≡ true) × (header.now.name ≡ name) }
{
    match header.state {
        State::Live { .. } => header.name == name,
        _ => false,
    }
}

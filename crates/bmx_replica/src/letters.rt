//! Whether a replica can learn what a letter tells, without memory and before anything changes.
ghost use Rattle.std.specs.Prelude.{◌≡◌, ◌<◌, ◌≤◌, ◌↔◌, [], ◌∷◌, false, filter_map, List, All, IsTrue};
ghost use Rattle.bmx_types.specs.Words.{index_of};
ghost use Rattle.bmx_types.specs.declared.addresses.Info.{Info as InfoOf};
ghost use Rattle.bmx_replica.specs.Layouts.{LiesOn};
ghost use Rattle.bmx_replica.specs.Replicas.{Holding, IsReplica, AcceptsOn, Accepts, Learns, entry_of};
ghost use Rattle.bmx_replica.specs.Letters.{info_told, value_told, infos_told, infos_in, sketch_of, is_newer, CanLearn};
ghost use Rattle.bmx_replica.specs.Inside.Letters.{after, brings_place, known_with, known_after, told_beside, Clears};

use crate::replica::Replica;
use bmx_msg::{Field, Msg};
use bmx_segment::HEADER_WORDS;
use bmx_types::{Info, Name, Val};

/// The value in a field of a letter.
pub(crate) fn value_told(field: &Field) -> Val
    ensures { result ≡ value_told field.now }
{
    match field {
        Field::Null => Val::Null,
        Field::Int(number) => Val::Int(*number),
        Field::Ref(info) => Val::Ref(info.name),
    }
}

/// What an Info tells of an object of which something may be known.
#[derive(Clone, Copy)]
enum News {
    /// Another bunch or size, or more moves at the same address.
    Clash,
    /// No newer place.
    Old,
    /// A place that is taken where the object can lie there.
    New,
}

/// What an Info tells beside what is known of its object.
#[inline(always)]
fn told(info: &Info, known: &Option<Info>) -> News
    ensures { result ≡ told_beside info.now known.now }
{
    let Some(known) = known else {
        return News::New;
    };
    if !(known.bunch == info.bunch && known.size == info.size) {
        return News::Clash;
    }
    if !(known.place.moves < info.place.moves) {
        return News::Old;
    }
    if known.place.address == info.place.address {
        return News::Clash;
    }
    News::New
}

/// Whether an Info brings a place beside what is known of its object.
fn brings_place(info: &Info, known: Option<Info>) -> bool
    ensures { result ≡ brings_place info.now known }
{
    match known {
        Some(known) => known.place.moves < info.place.moves,
        None => true,
    }
}

/// What is known of an object once an Info of it is learned.
fn known_with(info: &Info, known: Option<Info>) -> Info
    ensures { result ≡ known_with info.now known }
{
    match known {
        Some(known) => {
            if known.place.moves < info.place.moves {
                let place = info.place;
                Info { place, ..known }
            } else {
                known
            }
        }
        None => *info,
    }
}

/// What is known of a name once the Info in a field is learned, if there is one.
fn known_told(field: &Field, name: Name, known: Option<Info>) -> Option<Info>
    ensures { result ≡ known_after known name (filter_map info_told (field.now ∷ [])) }
{
    match field {
        Field::Ref(info) if info.name == name => Some(known_with(info, known)),
        _ => known,
    }
}

/// What is known of a name once the Infos of an object and of some of its fields are learned.
fn known_after(known: Option<Info>, name: Name, object: &Info, fields: &[Field]) -> Option<Info>
    ensures { result ≡ known_after known name (infos_told object.now fields.now) }
{
    let first = known_told(&Field::Ref(*object), name, known);
    let mut known = first;
    for field in fields {
        known = known_told(field, name, known);
    }
    known
}

/// Whether the object of an Info leaves the place of another one to it.
fn clears(other: &Info, info: &Info) -> bool
    ensures clears { IsTrue result ↔ Clears other.now info.now }
    ensures range { index_of other.now.place.address < 1024 }
{
    let (there, here) = (other.place.address, info.place.address);
    let start = there.index();
    if there == here {
        return other.name == info.name && other.size == info.size;
    }
    if there.home() != here.home() || there.segment() != here.segment() {
        return true;
    }
    let words = HEADER_WORDS as u32;
    start + words + other.size as u32 <= here.index()
        || here.index() + words + info.size as u32 <= start
}

impl Replica {
    /// Whether learning the Infos of a message one after another, the granted object's first and then
    /// those of its fields in order, would clash. It takes no memory and changes nothing. A name is looked
    /// up only where its object isn't where the Info says; an Info that brings a place is compared with those
    /// before it besides.
    pub fn clashes(&self, msg: &Msg) -> bool
        requires { All (λ (i : InfoOf). i.size ≤ 32) (infos_in msg.now) }
        ensures { (result ≡ false) ↔ CanLearn (sketch_of self.now) (infos_in msg.now) }
    {
        match msg {
            Msg::ReadGrant { info, fields } => !self.accepts_all(info, fields.as_slice()),
            Msg::WriteGrant { info, fields } => !self.accepts_all(info, fields.as_slice()),
            _ => false,
        }
    }

    /// Whether the Infos of an object and of its fields can be learned one after another.
    fn accepts_all(&self, object: &Info, fields: &[Field]) -> bool
        requires { All (λ (i : InfoOf). i.size ≤ 32) (infos_told object.now fields.now) }
        ensures { IsTrue result ↔ CanLearn (sketch_of self.now) (infos_told object.now fields.now) }
    {
        if !self.accepts(object) {
            return false;
        }
        for (place, field) in fields.iter().enumerate() {
            if let Field::Ref(info) = field {
                if !self.accepts_after(object, &fields[..place], info) {
                    return false;
                }
            }
        }
        true
    }

    /// Whether an Info can be learned.
    fn accepts(&self, info: &Info) -> bool
        requires { info.now.size ≤ 32 }
        ensures { IsTrue result ↔ Accepts self.now.heap info.now (entry_of self.now info.now.name) }
    {
        match told(info, &self.known_of(info)) {
            News::Clash => false,
            News::Old => true,
            News::New => self.can_lie(info),
        }
    }

    /// Whether an Info can be learned once those of an object and of some of its fields are learned.
    fn accepts_after(&self, object: &Info, fields: &[Field], info: &Info) -> bool
        requires few { info.now.size ≤ 32 }
        requires learned { CanLearn (sketch_of self.now) (infos_told object.now fields.now) }
        ensures { let s = after (sketch_of self.now) (infos_told object.now fields.now) in IsTrue result ↔ AcceptsOn s.ground info.now (s.entry info.now.name) }
    {
        let known = self.known_of(info);
        if let News::Old = told(info, &known) {
            return true;
        }
        match told(info, &known_after(known, info.name, object, fields)) {
            News::Clash => false,
            News::Old => true,
            News::New => self.lies_after(object, fields, info),
        }
    }

    /// Whether an object can lie where an Info says, once those of an object and of some of its fields
    /// are learned.
    fn lies_after(&self, object: &Info, fields: &[Field], info: &Info) -> bool
        requires few { info.now.size ≤ 32 }
        requires learned { CanLearn (sketch_of self.now) (infos_told object.now fields.now) }
        ensures { let s = after (sketch_of self.now) (infos_told object.now fields.now) in IsTrue result ↔ LiesOn s.ground info.now.place.address info.now.name info.now.size }
    {
        if !self.can_lie(info) {
            return false;
        }
        if !clears(object, info) && brings_place(object, self.known_of(object)) {
            return false;
        }
        for (place, field) in fields.iter().enumerate() {
            if let Field::Ref(other) = field {
                if !clears(other, info) && self.brings_after(object, &fields[..place], other) {
                    return false;
                }
            }
        }
        true
    }

    /// Whether an Info brings a place once those of an object and of some of its fields are learned.
    fn brings_after(&self, object: &Info, fields: &[Field], info: &Info) -> bool
        ensures { result ≡ is_newer info.now ((after (sketch_of self.now) (infos_told object.now fields.now)).entry info.now.name) }
    {
        let known = known_after(self.known_of(info), info.name, object, fields);
        brings_place(info, known)
    }
}

/// A law: once an Info was learned, Infos can be learned exactly where they could be learned behind it.
pub fn learning_goes_on()
    ensures { (old new : Holding) (i : InfoOf) (more : List InfoOf) → IsReplica old.slots old.heap.blocks → Learns old new i → CanLearn (sketch_of old) (i ∷ more) ↔ CanLearn (sketch_of new) more }
{}

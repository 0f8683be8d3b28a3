//! What letters tell of objects.
ghost use Rattle.std.specs.Prelude.{◌≡◌, ℕ, ◌≤◌, true, false, map, Some, All, IfOk, IfSome, IfNone};
ghost use Rattle.bmx_types.specs.declared.addresses.Info.{Info as InfoOf};
ghost use Rattle.bmx_types.specs.declared.addresses.Place.{Place};
ghost use Rattle.bmx_token.specs.declared.parts.Part.{Part};
ghost use Rattle.bmx_protocol.specs.Nodes.{NodeState, field_of};
ghost use Rattle.bmx_protocol.specs.Rules.{infos, told_field, told_fields, heard_field};
ghost use Rattle.bmx_protocol.specs.Strays.{some_clash};
ghost use Rattle.bmx_segment.specs.Headers.{kind_number};
ghost use Rattle.bmx_memory.specs.Contents.{room_of, value_at};
ghost use Rattle.bmx_replica.specs.Replicas.{StandsAt, IsField};
ghost use Rattle.bmx_memory.specs.Shown.{shown, known_with, Sees, HasEntry, with_copy, has_copy};
ghost use Rattle.bmx_memory.specs.Letters.{FitsFields};

use crate::memory::Memory;
use bmx_msg::{Field, Fields, Msg};
use bmx_replica::{Object, Word};
use bmx_types::{Items, Name, NoMemory, Val};
use std::alloc::Global;

impl Memory {
    /// Whether the Infos of a message clash with what the node has, as they are learnt one after another.
    /// At most quadratic in the fields that bring a newer place.
    pub fn clashes(&self, msg: &Msg) -> bool
        requires { All (λ (i : InfoOf). i.size ≤ 32) (infos msg.now) }
        ensures { (from : ℕ) (parts : ℕ → Part) → let m = shown self.now in result ≡ some_clash m.me from (known_with m.object parts) m.places (infos msg.now) }
    {
        self.replica.clashes(msg)
    }

    /// The name has a copy with the fields that a letter tells.
    pub fn install(&mut self, name: Name, fields: &Fields)
        requires { FitsFields (shown self.old) name fields.now }
        ensures shown { shown self.new ≡ with_copy (shown self.old) name (Some (map heard_field fields.now)) }
        ensures room { room_of self.new ≡ room_of self.old }
    {
        self.seen = None;
        self.replica.install(name, fields);
        let _sound = self.replica.segments();
    }

    /// The fields of a name's copy, as a letter tells them; none where there is no copy. It looks up the name,
    /// and no other where the object of each reference stands where the field's word says.
    pub fn fields(&self, alloc: Global, name: Name) -> Result<Fields, NoMemory>
        ensures { (s : NodeState) (lies : ℕ → Place) → Sees (shown self.now) s lies → IfOk result (λ fields. fields ≡ told_fields s lies name) }
    {
        let Some(object) = self.copied_object(name) else {
            return Ok(Items::new(alloc));
        };
        let info = self.replica.info_at(&object);
        let mut fields = Vec::with_capacity(alloc, usize::from(info.size))?;
        for i in 0..info.size {
            let Some(word) = self.word_of(&object, i) else {
                return Ok(Items::from_vec(fields));
            };
            fields.push(self.told(word))?;
        }
        Ok(Items::from_vec(fields))
    }

    /// The object of a name where it stands, None where the name has no copy.
    fn copied_object(&self, name: Name) -> Option<Object>
        ensures some { IfSome result (λ o. StandsAt self.now.replica o × (o.header.name ≡ name) × (has_copy (shown self.now) name ≡ true)) }
        ensures none { IfNone result (has_copy (shown self.now) name ≡ false) }
    {
        self.replica.copied(name)
    }

    /// What a word holds, as a letter tells it.
    #[inline(always)]
    fn told(&self, word: Word) -> Field
        requires field { IsField self.now.replica.heap.blocks (kind_number word.kind) word.word }
        requires known { HasEntry (shown self.now) (value_at self.now.replica word) }
        ensures { (s : NodeState) (lies : ℕ → Place) → Sees (shown self.now) s lies → result ≡ told_field s lies (field_of (value_at self.now.replica word)) }
    {
        if let Some(object) = self.replica.object_of(word) {
            return Field::Ref(self.replica.info_at(&object));
        }
        match self.replica.value(word) {
            Val::Null => Field::Null,
            Val::Int(number) => Field::Int(number),
            Val::Ref(_) => unreachable!(),
        }
    }
}

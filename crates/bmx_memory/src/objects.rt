//! Objects as registers lead to them: what a command on a register needs, without a look-up by name.
ghost use Rattle.std.specs.Prelude.{◌≡◌, ◌<◌, true, IsSome, IfSome};
ghost use Rattle.std.specs.Option.{option_map};
ghost use Rattle.bmx_segment.specs.Headers.{kind_number};
ghost use Rattle.bmx_replica.specs.Replicas.{StandsAt, IsField, target_in};
ghost use Rattle.bmx_memory.specs.Contents.{value_at};
ghost use Rattle.bmx_memory.specs.Shown.{shown, HasEntry, value_of, has_copy};
ghost use Rattle.bmx_memory.specs.Inside.Keeping.{IsSeen};

use crate::memory::{Memory, Seen};
use bmx_replica::{Object, Word};
use bmx_types::Val;

impl Memory {
    /// The object to which a register refers, where it stands, None where it refers to none.
    fn object_in(&self, register: u8) -> Option<Object>
        requires { register < 16 }
        ensures stands { IfSome result (λ o. StandsAt self.now.replica o) }
        ensures named { option_map (λ o. o.header.name) result ≡ target_in ((shown self.now).register register) }
    {
        self.replica.object_of(self.registers.at(register))
    }

    /// Finds the object to which a register refers, so that what is asked of both from now on, until something
    /// changes, needs no look-up.
    #[inline(never)]
    pub fn look_at(&mut self, register: u8)
        requires { register < 16 }
        ensures { self.new ≡ self.old }
    {
        self.seen = self.seen_in(register);
    }

    /// A register with the object to which it refers, None where it refers to none.
    fn seen_in(&self, register: u8) -> Option<Seen>
        requires { register < 16 }
        ensures { IfSome result (IsSeen self.now) }
    {
        let object = self.object_in(register)?;
        Some(Seen { register, object })
    }

    /// The word in a field of an object with a copy, None where it has no such field.
    pub(crate) fn word_of(&self, object: &Object, i: u8) -> Option<Word>
        requires stands { StandsAt self.now.replica object.now }
        requires copy { has_copy (shown self.now) object.now.header.name ≡ true }
        ensures value { option_map (value_at self.now.replica) result ≡ value_of (shown self.now) object.now.header.name i }
        ensures field { IfSome result (λ w. IsField self.now.replica.heap.blocks (kind_number w.kind) w.word) }
        ensures known { IfSome result (λ w. HasEntry (shown self.now) (value_at self.now.replica w)) }
    {
        self.replica.field_word(object, i)
    }

    /// The value in a field of an object's copy, None where it has no copy or no such field. A name is looked up
    /// where all fields are null.
    pub(crate) fn field_at(&self, object: &Object, i: u8) -> Option<Val>
        requires { StandsAt self.now.replica object.now }
        ensures value { result ≡ value_of (shown self.now) object.now.header.name i }
        ensures known { IfSome result (λ v. HasEntry (shown self.now) v) }
    {
        if !self.replica.is_copied(object) {
            return None;
        }
        let word = self.word_of(object, i)?;
        Some(self.replica.value(word))
    }
}

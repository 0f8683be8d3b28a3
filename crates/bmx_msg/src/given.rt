//! The names that a message gives, one by one.
ghost use Rattle.std.specs.Prelude.{◌≡◌, [], ◌∷◌, ◌++◌, ◌+◌, ◌<◌, length, drop, IfNone, IfSome, option_to_list};
ghost use Rattle.std.specs.Iterator.{YieldsFirst, item_count};
ghost use Rattle.bmx_msg.specs.Letters.{targets, given};

use crate::letters::{Field, Msg};
use bmx_types::Name;
use std::marker::Model;

/// The names that a message gives and that weren't taken yet, in order. Contracts see their list.
#[derive(Drop)]
pub struct Given<'a> {
    object: Option<Name>,
    fields: &'a [Field],
}

impl<'a> Model for Given<'a> {
    ghost use Rattle.std.specs.Prelude.{ℕ, List, ◌++◌, option_to_list};
    ghost use Rattle.bmx_msg.specs.Letters.{targets};

    ghost Value = { List ℕ };

    ghost view = { λ g. option_to_list g.object ++ targets g.fields.now };
}

impl<'a> Given<'a> {
    fn of(object: Option<Name>, fields: &'a [Field]) -> Given<'a>
        ensures { result ≡ option_to_list object ++ targets fields.now }
    {
        Given { object, fields }
    }
}

impl<'a> Iterator for Given<'a> {
    type Item = Name;

    ghost next_gives = { YieldsFirst (λ names. names) };

    ghost remaining = { item_count (λ names. names) };

    fn next(&mut self) -> Option<Name> {
        if let Some(name) = self.object.take() {
            return Some(name);
        }
        let (i, name) = first_target(self.fields)?;
        self.fields = &self.fields[i + 1..];
        Some(name)
    }
}

/// The first object that fields refer to, and the index of that field. Linear in how many stand before
/// it.
fn first_target(fields: &[Field]) -> Option<(usize, Name)>
    ensures none { IfNone result (targets fields.now ≡ []) }
    ensures within { IfSome result (λ found. found.0 < length fields.now) }
    ensures first { IfSome result (λ found. targets fields.now ≡ found.1 ∷ targets (drop (found.0 + 1) fields.now)) }
{
    for (i, field) in fields.iter().enumerate() {
        if let Field::Ref(info) = field {
            return Some((i, info.name));
        }
    }
    None
}

/// The names that a message gives, in order: a read grant its object and then the targets of its
/// fields, a write grant the targets, any other message none. It takes no memory.
pub fn gives(msg: &Msg) -> Given<'_>
    ensures { result ≡ given msg.now }
{
    match msg {
        Msg::ReadGrant { info, fields } => Given::of(Some(info.name), fields.as_slice()),
        Msg::WriteGrant { fields, .. } => Given::of(None, fields.as_slice()),
        _ => Given::of(None, &[]),
    }
}

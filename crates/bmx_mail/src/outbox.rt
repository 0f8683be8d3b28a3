//! The letters that a step posts. It numbers none.
ghost use Rattle.std.specs.Prelude.{◌≡◌, ◌-◌, ◌<◌, [], ◌∷◌, ◌++◌, IfOk};

use bmx_msg::Letter;
use bmx_protocol::{Sending, Sent};
use bmx_types::{Items, NoMemory};
use std::alloc::Global;
use std::marker::Model;

/// Letters of one stamp in the order in which they were posted, and room for more. Contracts see the stamp, the
/// letters, and for how many more there is room.
#[derive(Drop)]
pub struct Outbox {
    stamp: u64,
    letters: Vec<Sending>,
    room: usize,
}

impl Model for Outbox {
    ghost use Rattle.std.specs.Prelude.{◌+◌, ◌≤◌, vec_len, vec_capacity};
    ghost use Rattle.bmx_mail.specs.Mails.{OutboxState};

    ghost Value = { OutboxState };

    ghost view = { λ o. record { stamp = o.stamp; letters = o.letters.items; room = o.room } };

    ghost invariant = { λ o. vec_len o.letters + o.room ≤ vec_capacity o.letters };
}

impl Outbox {
    /// No letter, and room for so many.
    pub(crate) fn new(alloc: Global, stamp: u64, room: usize) -> Result<Outbox, NoMemory>
        ensures { IfOk result (λ outbox. outbox ≡ record { stamp = stamp; letters = []; room = room }) }
    {
        Ok(Outbox {
            stamp,
            letters: Vec::with_capacity(alloc, room)?,
            room,
        })
    }

    /// The stamp of its letters.
    pub(crate) fn stamp(&self) -> u64
        ensures { result ≡ self.now.stamp }
    {
        self.stamp
    }

    /// Puts a letter behind the others. Takes no memory.
    pub(crate) fn push(&mut self, sending: Sending)
        requires { 0 < self.old.room }
        ensures { self.new ≡ record self.old { letters = self.old.letters ++ sending ∷ []; room = self.old.room - 1 } }
    {
        let Ok(()) = self.letters.push(sending) else {
            unreachable!()
        };
        self.room -= 1;
    }

    /// The letters, in the order in which they were posted.
    pub fn into_letters(self) -> Sent
        ensures { result ≡ self.letters }
    {
        let Outbox { letters, .. } = self;
        Items::from_vec(letters)
    }
}

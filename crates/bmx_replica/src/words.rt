//! Values and registers as words.
ghost use Rattle.std.specs.Prelude.{◌≡◌, ◌<◌, Some, length, replicate, slice_get, slice_set};
ghost use Rattle.bmx_segment.specs.declared.headers.Kind.TheVariants.{Null};

use bmx_segment::Kind;
use std::marker::Model;

/// How many registers a node has.
const REGISTERS: usize = 16;

/// A value as a field or a register holds it: 0 for null, a number in two's complement, an address.
#[derive(Clone, Copy, Debug, PartialEq, Eq)]
pub struct Word {
    pub kind: Kind,
    pub word: u64,
}

/// The registers of a node as words. Contracts see a list of 16.
#[derive(Drop)]
pub struct Words {
    words: [Word; REGISTERS],
}

impl Model for Words {
    ghost use Rattle.std.specs.Prelude.{List};
    ghost use Rattle.bmx_replica.specs.declared.words.Word.{Word};

    ghost Value = { List Word };

    ghost view = { λ w. w.words };
}

impl Words {
    /// All null.
    pub fn new() -> Words
        ensures { result ≡ replicate 16 (record { kind = Null; word = 0 }) }
    {
        let null = Word {
            kind: Kind::Null,
            word: 0,
        };
        Words {
            words: [null; REGISTERS],
        }
    }

    /// What a register holds.
    pub fn at(&self, register: u8) -> Word
        requires { register < 16 }
        ensures word { slice_get self.now register ≡ Some result }
        ensures all { length self.now ≡ 16 }
    {
        self.words[register as usize]
    }

    /// Puts a word into a register.
    pub fn set(&mut self, register: u8, word: Word)
        requires { register < 16 }
        ensures { self.new ≡ slice_set self.old register word }
    {
        self.words[register as usize] = word;
    }
}

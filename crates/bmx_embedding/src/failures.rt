//! What can go wrong, in words and as an exit code.
ghost use Rattle.std.specs.Prelude.{◌≡◌};
ghost use Rattle.bmx_embedding.specs.declared.failures.Failure.TheVariants as failure;

use crate::words::reason;
use bmx_types::{NoMemory, Refusal};
use std::{fmt, io};

/// Why the program can't go on.
#[derive(Clone, Copy, Debug, PartialEq, Eq)]
pub enum Failure {
    /// No memory was found. Nothing has changed: the same call may be made again.
    NoMemory,
    /// A node made a step, and no memory was found for one of its letters. The store is to be given up.
    LettersLost,
    /// The store has no node of that number.
    NoNode,
    /// The node has made as many steps as a node may.
    Worn,
    /// A node was handed a letter that doesn't fit it.
    Stray,
    /// A command still waits, whatever was done.
    Stuck,
    /// A command was refused that was not to be.
    Refused(Refusal),
    /// The text could not be written.
    WriteFault,
}

impl Failure {
    /// The exit code of the program.
    pub fn code(&self) -> u8 {
        match self {
            Failure::NoMemory | Failure::LettersLost => 1,
            Failure::NoNode | Failure::Worn | Failure::Stray | Failure::Stuck => 2,
            Failure::Refused(_) => 3,
            Failure::WriteFault => 5,
        }
    }
}

impl fmt::Display for Failure {
    fn fmt<W: fmt::Write>(&self, f: &mut fmt::Formatter<W>) -> fmt::Result {
        match *self {
            Failure::NoMemory => write!(f, "no memory"),
            Failure::LettersLost => write!(f, "no memory for a letter"),
            Failure::NoNode => write!(f, "no node of that number"),
            Failure::Worn => write!(f, "a node has made too many steps"),
            Failure::Stray => write!(f, "a letter doesn't fit its receiver"),
            Failure::Stuck => write!(f, "a command waits for ever"),
            Failure::Refused(why) => {
                let why = reason(why);
                write!(f, "a command was refused: {why}")
            }
            Failure::WriteFault => write!(f, "write failed"),
        }
    }
}

impl From<NoMemory> for Failure {
    ghost from_gives = { λ _ e. e ≡ failure.NoMemory };

    fn from(_error: NoMemory) -> Failure {
        Failure::NoMemory
    }
}

impl From<io::Error> for Failure {
    ghost from_gives = { λ _ e. e ≡ failure.WriteFault };

    fn from(_error: io::Error) -> Failure {
        Failure::WriteFault
    }
}

//! How a program ends: its line on standard error, and its exit code.
ghost use Rattle.std.specs.Prelude.{◌≡◌, Some, IfOk};
ghost use Rattle.std.specs.Process.{exit_status};
ghost use Rattle.bmx_world.specs.Statuses.{code_of, line_of, cause_word as cause_word_lem};

use bmx_script::{Bad, BadCause};
use bmx_types::{NoMemory, Text};
use std::alloc::Global;
use std::fmt;
use std::process::{ExitCode, Termination};

/// How the program ended.
#[derive(Clone, Copy, Debug, PartialEq, Eq)]
pub enum Status {
    /// The whole script ran, and no command was refused.
    Done,
    /// Memory was missing.
    NoMemory,
    /// The word of that place, from 0, doesn't fit, or is missing.
    Usage(u64),
    /// The bytes are no script.
    BadScript(Bad),
    /// The script could not be read.
    ReadFault,
    /// The text could not be written.
    WriteFault,
    /// No node could do anything more, and a program wasn't done.
    Stuck,
    /// The whole script ran, and some command was refused.
    SomeRefused,
    /// The run had as many events as it was allowed, before its end.
    Spent,
}

impl Status {
    /// The exit code of the program.
    pub fn code(&self) -> u8
        ensures { result ≡ code_of self.now }
    {
        match self {
            Status::Done => 0,
            Status::NoMemory => 1,
            Status::Usage(_) => 2,
            Status::BadScript(_) => 3,
            Status::ReadFault => 4,
            Status::WriteFault => 5,
            Status::Stuck => 7,
            Status::SomeRefused => 8,
            Status::Spent => 9,
        }
    }

    /// The line on standard error, without its line feed; empty where there is none.
    pub fn line(&self, alloc: Global) -> Result<Text, NoMemory>
        ensures { IfOk result (λ text. text ≡ line_of self.now) }
    {
        Ok(Text::from_string(self.to_string(alloc)?))
    }
}

/// The line on standard error, without its line feed.
impl fmt::Display for Status {
    ghost output = { λ status. Some (line_of status) };

    fn fmt<W: fmt::Write>(&self, f: &mut fmt::Formatter<W>) -> fmt::Result {
        match *self {
            Status::Done | Status::SomeRefused => Ok(()),
            Status::NoMemory => write!(f, "bmx: no memory"),
            Status::Usage(word) => write!(f, "bmx: usage at word {word}"),
            Status::BadScript(bad) => {
                let line = u64::from(bad.line);
                let cause = cause_word(bad.cause);
                write!(f, "bmx: line {line}: {cause}")
            }
            Status::ReadFault => write!(f, "bmx: read failed"),
            Status::WriteFault => write!(f, "bmx: write failed"),
            Status::Stuck => write!(f, "bmx: stuck"),
            Status::Spent => write!(f, "bmx: budget spent"),
        }
    }
}

/// The end of the program: its line goes to standard error, where there is one, and its code is the exit
/// code, whatever becomes of that line. It takes no memory.
impl Termination for Status {
    fn report<R: Eprint>(self, rt: &R) -> ExitCode
        ensures { exit_status result ≡ code_of self }
    {
        match self {
            Status::Done | Status::SomeRefused => {}
            _ => {
                let _ = rt.eprintln(self);
            }
        }
        ExitCode::from(self.code())
    }
}

fn cause_word(cause: BadCause) -> &'static str
    ensures { result.now ≡ cause_word_lem cause }
{
    match cause {
        BadCause::Form => "form",
        BadCause::Range => "range",
        BadCause::Long => "long",
        BadCause::End => "end",
    }
}

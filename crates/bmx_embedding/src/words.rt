//! Commands, answers and letters in plain words.
use crate::store::Parcel;
use bmx_msg::{Field, Fields, Msg};
use bmx_protocol::NodeAnswer;
use bmx_types::{Command, Name, Operand, Refusal, Val};
use std::fmt;

/// A name, as `0.2`.
#[derive(Clone, Copy)]
struct Named(Name);

impl fmt::Display for Named {
    fn fmt<W: fmt::Write>(&self, f: &mut fmt::Formatter<W>) -> fmt::Result {
        let node = self.0.node().get();
        let count = self.0.count();
        write!(f, "{node}.{count}")
    }
}

/// What an operand means in this program.
#[derive(Clone, Copy)]
struct Meant(Operand);

impl fmt::Display for Meant {
    fn fmt<W: fmt::Write>(&self, f: &mut fmt::Formatter<W>) -> fmt::Result {
        match self.0 {
            Operand::Register(_) => write!(f, "the object"),
            Operand::Anchor(_) => write!(f, "the anchor"),
            Operand::Int(number) => write!(f, "{number}"),
            Operand::Null => write!(f, "nothing"),
        }
    }
}

/// A command.
#[derive(Clone, Copy)]
pub struct Asked(pub Command);

impl fmt::Display for Asked {
    fn fmt<W: fmt::Write>(&self, f: &mut fmt::Formatter<W>) -> fmt::Result {
        match self.0 {
            Command::New { .. } => write!(f, "makes an object"),
            Command::Copy { value, .. } => {
                let value = Meant(value);
                write!(f, "keeps {value}")
            }
            Command::Drop { .. } => write!(f, "forgets the object"),
            Command::Read { on } => {
                let on = Meant(on);
                write!(f, "takes {on} to read it")
            }
            Command::Write { on } => {
                let on = Meant(on);
                write!(f, "takes {on} to write it")
            }
            Command::Done { on } => {
                let on = Meant(on);
                write!(f, "gives {on} back")
            }
            Command::Set { on, value, .. } => {
                let (on, value) = (Meant(on), Meant(value));
                write!(f, "puts {value} into {on}")
            }
            Command::Add { on, by, .. } => {
                let on = Meant(on);
                write!(f, "adds {by} to {on}")
            }
            Command::Get { on, .. } => {
                let on = Meant(on);
                write!(f, "follows {on}")
            }
            Command::Show { on, .. } => {
                let on = Meant(on);
                write!(f, "reads {on}")
            }
            Command::Same { left, right } => {
                let (left, right) = (Meant(left), Meant(right));
                write!(f, "compares {left} with {right}")
            }
        }
    }
}

/// An answer.
#[derive(Clone, Copy)]
pub struct Told(pub NodeAnswer);

impl fmt::Display for Told {
    fn fmt<W: fmt::Write>(&self, f: &mut fmt::Formatter<W>) -> fmt::Result {
        match self.0 {
            NodeAnswer::Nil => write!(f, "done"),
            NodeAnswer::Value(Val::Null) => write!(f, "nothing"),
            NodeAnswer::Value(Val::Int(number)) => write!(f, "{number}"),
            NodeAnswer::Value(Val::Ref(name)) => {
                let name = Named(name);
                write!(f, "object {name}")
            }
            NodeAnswer::Yes => write!(f, "yes"),
            NodeAnswer::No => write!(f, "no"),
            NodeAnswer::Wait => write!(f, "waits"),
            NodeAnswer::Refused(why) => {
                let why = reason(why);
                write!(f, "refused, {why}")
            }
            NodeAnswer::Idle => write!(f, "nothing to serve"),
            NodeAnswer::Stray => write!(f, "the letter doesn't fit"),
        }
    }
}

/// Why a command is refused.
pub fn reason(why: Refusal) -> &'static str {
    match why {
        Refusal::Empty => "what it is on is no object",
        Refusal::NoToken => "it doesn't hold the token",
        Refusal::Index => "the object has no such field",
        Refusal::Held => "it holds a token already",
        Refusal::Number => "that is no number",
        Refusal::Full => "the node is full",
    }
}

/// The fields that a grant brings, those that hold something.
#[derive(Clone, Copy)]
struct Brought<'a>(&'a Fields);

impl fmt::Display for Brought<'_> {
    fn fmt<W: fmt::Write>(&self, f: &mut fmt::Formatter<W>) -> fmt::Result {
        for field in self.0.as_slice() {
            match *field {
                Field::Null => {}
                Field::Int(number) => write!(f, " {number}")?,
                Field::Ref(info) => {
                    let name = Named(info.name);
                    write!(f, " {name}")?;
                }
            }
        }
        Ok(())
    }
}

impl fmt::Display for Parcel {
    fn fmt<W: fmt::Write>(&self, f: &mut fmt::Formatter<W>) -> fmt::Result {
        let from = self.from.get();
        let to = self.to.get();
        write!(f, "{from} to {to}: ")?;
        match &self.letter.msg {
            Msg::ReadReq { name, asker } => {
                let (name, asker) = (Named(*name), asker.get());
                write!(f, "node {asker} wants to read {name}")
            }
            Msg::WriteReq { name, asker } => {
                let (name, asker) = (Named(*name), asker.get());
                write!(f, "node {asker} wants to write {name}")
            }
            Msg::ReadGrant { info, fields } => {
                let (name, brought) = (Named(info.name), Brought(fields));
                write!(f, "read {name}, which holds{brought}")
            }
            Msg::WriteGrant { info, fields } => {
                let (name, brought) = (Named(info.name), Brought(fields));
                write!(f, "you own {name}, which holds{brought}")
            }
            Msg::Inval { name } => {
                let name = Named(*name);
                write!(f, "give up your copy of {name}")
            }
            Msg::InvAck { name } => {
                let name = Named(*name);
                write!(f, "my copy of {name} is gone")
            }
        }
    }
}

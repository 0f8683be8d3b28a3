//! Letters between nodes, as data.
ghost use Rattle.std.specs.Prelude.{◌≡◌, IfOk};

use bmx_types::{Info, Items, Name, NoMemory, NodeNo};
use std::alloc::Global;

/// What a field holds, as a letter tells it.
#[derive(Clone, Copy, Debug, PartialEq, Eq)]
pub enum Field {
    Null,
    Int(i64),
    /// A reference to an object, with what its receiver needs to know of it.
    Ref(Info),
}

/// The fields of an object, in order.
pub type Fields = Items<Field>;

/// What a letter says. The first four speak of a token: who asks for it, in which mode, and the grant,
/// with the object's fields as its owner has them.
#[derive(Debug, Drop)]
pub enum Msg {
    /// The asker wants to read the object.
    ReadReq { name: Name, asker: NodeNo },
    /// The asker wants to write the object.
    WriteReq { name: Name, asker: NodeNo },
    /// The receiver may read the object.
    ReadGrant { info: Info, fields: Fields },
    /// The receiver owns the object from now on.
    WriteGrant { info: Info, fields: Fields },
    /// The receiver is to give up its copy.
    Inval { name: Name },
    /// The sender has given up its copy.
    InvAck { name: Name },
}

impl Msg {
    /// An equal message. Linear in its fields.
    fn copy(&self, alloc: Global) -> Result<Msg, NoMemory>
        ensures { IfOk result (λ msg. msg ≡ self.now) }
    {
        let copy = match self {
            Msg::ReadReq { name, asker } => Msg::ReadReq {
                name: *name,
                asker: *asker,
            },
            Msg::WriteReq { name, asker } => Msg::WriteReq {
                name: *name,
                asker: *asker,
            },
            Msg::ReadGrant { info, fields } => Msg::ReadGrant {
                info: *info,
                fields: fields.copy(alloc)?,
            },
            Msg::WriteGrant { info, fields } => Msg::WriteGrant {
                info: *info,
                fields: fields.copy(alloc)?,
            },
            Msg::Inval { name } => Msg::Inval { name: *name },
            Msg::InvAck { name } => Msg::InvAck { name: *name },
        };
        Ok(copy)
    }
}

/// A letter: its number among those from its sender to its receiver, counted from 1, the stamp of the
/// event that sent it, and what it says.
#[derive(Debug, Drop)]
pub struct Letter {
    pub seq: u64,
    pub stamp: u64,
    pub msg: Msg,
}

impl Letter {
    /// An equal letter. Linear in its fields.
    pub fn copy(&self, alloc: Global) -> Result<Letter, NoMemory>
        ensures { IfOk result (λ letter. letter ≡ self.now) }
    {
        Ok(Letter {
            seq: self.seq,
            stamp: self.stamp,
            msg: self.msg.copy(alloc)?,
        })
    }
}

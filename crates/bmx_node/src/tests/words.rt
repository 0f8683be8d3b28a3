//! What steps answer and send, and what nodes have, in words. A name is its word.

use crate::Node;
use bmx_msg::{Field, Fields, Msg};
use bmx_protocol::{Done, Entry, NodeAnswer, ViewField, ViewFields};
use bmx_token::Role;
use bmx_types::{Info, Val};
use std::alloc::{AllocError, Global};
use std::test::Fail;

/// What a step comes to: the stamp, the answer, and each letter with its receiver, its number, and its stamp where that
/// is another.
pub(super) fn told(alloc: Global, stamp: u64, done: &Done) -> Result<String, AllocError> {
    let mut text = format!(in alloc; "{stamp}")?;
    write_answer(&mut text, &done.answer)?;
    for sending in done.letters.iter() {
        let letter = &sending.letter;
        write!(text, " -> {} #{}", sending.to.get(), letter.seq)?;
        if letter.stamp != stamp {
            write!(text, " at {}", letter.stamp)?;
        }
        write_msg(&mut text, &letter.msg)?;
    }
    Ok(text)
}

fn write_answer(text: &mut String, answer: &NodeAnswer) -> Result<(), AllocError> {
    match answer {
        NodeAnswer::Nil => Ok(()),
        NodeAnswer::Value(value) => write_value(text, value),
        other => write!(text, " {other:?}"),
    }
}

fn write_value(text: &mut String, value: &Val) -> Result<(), AllocError> {
    match value {
        Val::Null => write!(text, " null"),
        Val::Int(number) => write!(text, " int {number}"),
        Val::Ref(name) => write!(text, " ref {}", name.word()),
    }
}

fn write_msg(text: &mut String, msg: &Msg) -> Result<(), AllocError> {
    match msg {
        Msg::ReadReq { name, asker } => write!(text, " reads {} {}", name.word(), asker.get()),
        Msg::WriteReq { name, asker } => write!(text, " writes {} {}", name.word(), asker.get()),
        Msg::ReadGrant { info, fields } => write_grant(text, "read", info, fields),
        Msg::WriteGrant { info, fields } => write_grant(text, "write", info, fields),
        Msg::Inval { name } => write!(text, " recall {}", name.word()),
        Msg::InvAck { name } => write!(text, " return {}", name.word()),
    }
}

/// A grant, by its first field.
fn write_grant(
    text: &mut String,
    kind: &str,
    info: &Info,
    fields: &Fields,
) -> Result<(), AllocError> {
    write!(text, " {kind}")?;
    write_info(text, info)?;
    match fields.iter().next() {
        Some(Field::Int(number)) => write!(text, ", int {number}"),
        Some(Field::Ref(target)) => {
            write!(text, ",")?;
            write_info(text, target)
        }
        _ => Ok(()),
    }
}

/// A name with its object's bunch, size, home, segment, word and moves.
fn write_info(text: &mut String, info: &Info) -> Result<(), AllocError> {
    let (address, moves) = (info.place.address, info.place.moves);
    let (home, segment, index) = (address.home().get(), address.segment(), address.index());
    write!(
        text,
        " {} {} {}",
        info.name.word(),
        info.bunch.get(),
        info.size
    )?;
    write!(text, " {home}/{segment}/{index} {moves}")
}

/// What a node has: its counts and its first register, and a line for each entry and each record.
pub(super) fn shown(alloc: Global, node: &Node) -> Result<String, Fail> {
    let view = node.view(alloc)?;
    let (issued, taken) = (view.issued.as_slice(), view.taken.as_slice());
    let mut text = format!(in alloc; "{} {} {issued:?} {taken:?}", view.clock, view.made)?;
    if let Some(value) = view.registers.iter().next() {
        write_value(&mut text, value)?;
    }
    for entry in view.entries.iter() {
        write!(text, "\n")?;
        if let Some(info) = node.memory().info(entry.name) {
            write_info(&mut text, &info)?;
        }
        write_entry(&mut text, entry)?;
    }
    for record in view.records.iter() {
        write!(text, "\n {} from {}", record.name.word(), record.from.get())?;
        write!(text, ": {} {}", record.sent, record.got)?;
    }
    Ok(text)
}

/// A token, with the first field of a copy.
fn write_entry(text: &mut String, entry: &Entry) -> Result<(), AllocError> {
    match entry.role {
        Role::Owner => write!(text, ": owner")?,
        Role::Parent(parent) => write!(text, ": asks {}", parent.get())?,
    }
    if let Some(fields) = &entry.copy {
        write_copy(text, fields)?;
    }
    write_token(text, entry)
}

fn write_copy(text: &mut String, fields: &ViewFields) -> Result<(), AllocError> {
    match fields.iter().next() {
        Some(ViewField::Int(number)) => write!(text, " int {number}"),
        Some(ViewField::Ref(name)) => write!(text, " ref {}", name.word()),
        _ => write!(text, " null"),
    }
}

/// How the token is held and wanted, who reads and who asks, and whether there is anything else of it.
fn write_token(text: &mut String, entry: &Entry) -> Result<(), AllocError> {
    if let Some(mode) = entry.held {
        write!(text, " held {mode:?}")?;
    }
    if let Some(mode) = entry.want {
        write!(text, " wants {mode:?}")?;
    }
    for reader in entry.readers.iter() {
        write!(text, " reader {}", reader.get())?;
    }
    for ask in entry.queue.iter() {
        write!(text, " asked {} {:?}", ask.asker.get(), ask.mode)?;
    }
    if entry.ready || entry.due.is_some() || !entry.waiting.is_empty() {
        write!(text, " and more")?;
    }
    Ok(())
}

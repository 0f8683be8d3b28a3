//! Whom a node gave which name, and how many letters it issued and took. It knows nothing of tokens and words.
ghost use Rattle.std.specs.Prelude.{◌≡◌, ◌+◌, ◌-◌, ◌^◌, ◌≤◌, ◌<◌, [], ◌∷◌, ◌++◌, length, Some, None, OnOk, OnErr, IfOk};
ghost use Rattle.bmx_types.specs.Updates.{put, put_at};
ghost use Rattle.bmx_msg.specs.Letters.{given};
ghost use Rattle.bmx_owner.specs.Records.{record_or_blank, IsInOrder};
ghost use Rattle.bmx_protocol.specs.Nodes.{AreNumbers};
ghost use Rattle.bmx_protocol.specs.Changes.{Gets, Takes};
ghost use Rattle.bmx_protocol.specs.Steps.{sent_changes};
ghost use Rattle.bmx_mail.specs.Mails.{entering_of, issued_of, taken_of, CanIssue, Tracks, KnowsBunch, TellsBunches, given_infos, with_names_given, next_letter};

use crate::outbox::Outbox;
use bmx_msg::{Field, Letter, Msg};
use bmx_owner::{RecordList, Records};
use bmx_protocol::{Numbers, Sending};
use bmx_types::{BunchNo, Items, Name, NoMemory, NodeNo};
use std::alloc::Global;
use std::marker::Model;

/// The most nodes of a store.
const NODES: usize = 8;

/// The entering records of the names that a node gave, and how many letters were issued to each node and taken from
/// it. Contracts see the records in order, how many more can be kept without memory, and the counts.
#[derive(Drop)]
pub struct Mail {
    records: Records,
    issued: [u64; NODES],
    taken: [u64; NODES],
}

impl Model for Mail {
    ghost use Rattle.bmx_mail.specs.Mails.{MailState};

    ghost Value = { MailState };

    ghost view = { λ m. record { records = m.records.list; spare = m.records.spare; issued = m.issued; taken = m.taken } };
}

impl Mail {
    /// No record, and no letter yet. Takes no memory.
    pub fn new(alloc: Global) -> Mail
        ensures records { result.records ≡ [] }
        ensures issued { issued_of result ≡ (λ _. 0) }
        ensures taken { taken_of result ≡ (λ _. 0) }
    {
        Mail {
            records: Records::new(alloc),
            issued: [0; NODES],
            taken: [0; NODES],
        }
    }

    /// Makes room for so many more records. Linear in how many more than there was room for, and in the records where
    /// it must move them.
    pub fn reserve(&mut self, n: u32) -> Result<(), NoMemory>
        ensures rest { self.new ≡ record self.old { spare = self.new.spare } }
        ensures ok { OnOk result (n ≤ self.new.spare) }
        ensures spare { self.old.spare ≤ self.new.spare }
    {
        self.records.reserve(n)
    }

    /// A name that the store opens with, of an object of that bunch, is given to a node by no letter: there is a record
    /// of it from now on. Takes no memory, and logarithmic time to search; a new record moves those behind it.
    pub fn enter(&mut self, name: Name, bunch: BunchNo, node: NodeNo)
        requires { 0 < self.old.spare }
        ensures rest { self.new ≡ record self.old { records = self.new.records; spare = self.new.spare } }
        ensures entering { entering_of self.new ≡ put_at (entering_of self.old) name node (Some (record_or_blank self.old.records name bunch node)) }
        ensures spare { self.old.spare ≤ self.new.spare + 1 }
    {
        self.records.give(name, bunch, node, 0);
    }

    /// Letter number `seq` from a node handed the object of that name and bunch over. Takes no memory, and logarithmic
    /// time to search; a new record moves those behind it.
    pub fn take_over(&mut self, name: Name, bunch: BunchNo, from: NodeNo, seq: u64)
        requires { 0 < self.old.spare }
        ensures change { Tracks self.old self.new (Gets name from seq ∷ []) (KnowsBunch name bunch) }
        ensures rest { self.new ≡ record self.old { records = self.new.records; spare = self.new.spare } }
        ensures spare { self.old.spare ≤ self.new.spare + 1 }
    {
        self.records.take_over(name, bunch, from, seq);
    }

    /// One letter more was taken from a node.
    pub fn count_taken(&mut self, from: NodeNo)
        requires { taken_of self.old from + 1 < 2 ^ 64 }
        ensures change { Tracks self.old self.new (Takes from ∷ []) (λ _. Unit {0}) }
        ensures rest { self.new ≡ record self.old { taken = self.new.taken } }
    {
        self.taken[from.get() as usize] += 1;
    }

    /// How many letters were issued to a node.
    pub fn issued(&self, to: NodeNo) -> u64
        ensures { result ≡ issued_of self.now to }
    {
        self.issued[to.get() as usize]
    }

    /// How many letters were taken from a node.
    pub fn taken(&self, from: NodeNo) -> u64
        ensures { result ≡ taken_of self.now from }
    {
        self.taken[from.get() as usize]
    }

    /// A list of all records, by rising name and then by rising node.
    pub fn records(&self, alloc: Global) -> Result<RecordList, NoMemory>
        ensures list { IfOk result (λ records. records ≡ self.now.records) }
        ensures order { IsInOrder self.now.records }
    {
        let _count = self.records.len();
        self.records.list(alloc)
    }

    /// How many letters were issued to each of so many nodes.
    pub fn all_issued(&self, alloc: Global, nodes: u8) -> Result<Numbers, NoMemory>
        ensures { IfOk result (λ numbers. AreNumbers nodes numbers (issued_of self.now)) }
    {
        numbers(alloc, &self.issued, nodes)
    }

    /// How many letters were taken from each of so many nodes.
    pub fn all_taken(&self, alloc: Global, nodes: u8) -> Result<Numbers, NoMemory>
        ensures { IfOk result (λ numbers. AreNumbers nodes numbers (taken_of self.now)) }
    {
        numbers(alloc, &self.taken, nodes)
    }

    /// An outbox for letters of a stamp, with room for so many. A number that no count reaches is want of memory.
    pub fn outbox(&self, alloc: Global, stamp: u64, room: usize) -> Result<Outbox, NoMemory>
        ensures outbox { IfOk result (λ outbox. outbox ≡ record { stamp = stamp; letters = []; room = room }) }
        ensures counts { OnOk result (CanIssue self.now room) }
    {
        if !can_issue(&self.issued, room) {
            return Err(NoMemory);
        }
        Outbox::new(alloc, stamp, room)
    }

    /// Posts a message to a node, as the next letter to it: the names that it gives are recorded, a new record with the
    /// bunch that the message tells, and it is counted. Takes no memory. Linear in the fields of a grant, with a
    /// logarithmic search for each name; a new record moves those behind it.
    pub fn post(&mut self, outbox: &mut Outbox, to: NodeNo, msg: Msg)
        requires spare { length (given msg) ≤ self.old.spare }
        requires room { 0 < outbox.old.room }
        requires counts { CanIssue self.old outbox.old.room }
        ensures outbox { outbox.new ≡ record outbox.old { letters = outbox.old.letters ++ next_letter self.old outbox.old.stamp to msg ∷ []; room = outbox.old.room - 1 } }
        ensures change { Tracks self.old self.new (sent_changes (next_letter self.old outbox.old.stamp to msg)) (λ s. TellsBunches s msg) }
        ensures records { self.new.records ≡ with_names_given self.old.records (given_infos msg) to (issued_of self.old to + 1) }
        ensures issued { issued_of self.new ≡ put (issued_of self.old) to (issued_of self.old to + 1) }
        ensures taken { self.new.taken ≡ self.old.taken }
        ensures counts { CanIssue self.new outbox.new.room }
        ensures spare { self.old.spare ≤ self.new.spare + length (given msg) }
    {
        let seq = self.issued[to.get() as usize] + 1;
        give_all(&mut self.records, &msg, to, seq);
        self.issued[to.get() as usize] = seq;
        let stamp = outbox.stamp();
        outbox.push(Sending {
            to,
            letter: Letter { seq, stamp, msg },
        });
    }
}

ghost use Rattle.std.specs.Prelude.{ℕ, ◌↔◌, IsTrue, slice_index, filter_map};
ghost use Rattle.bmx_msg.specs.Letters.{targets};
ghost use Rattle.bmx_protocol.specs.Rules.{info_in};

/// The counts of so many nodes.
fn numbers(alloc: Global, counts: &[u64], nodes: u8) -> Result<Numbers, NoMemory>
    ensures { IfOk result (λ numbers. AreNumbers nodes numbers (slice_index counts.now)) }
{
    let mut numbers: Numbers = Items::new(alloc);
    for node in 0..nodes {
        let count = counts.get(node as usize).copied().unwrap_or(0);
        numbers.push(count)?;
    }
    Ok(numbers)
}

/// Whether so many letters more to any node can be counted.
fn can_issue(issued: &[u64], room: usize) -> bool
    ensures { IsTrue result ↔ ((node : ℕ) → slice_index issued.now node + room < 2 ^ 64) }
{
    if room == 0 {
        return true;
    }
    let most = u64::MAX - room as u64;
    for count in issued {
        if *count > most {
            return false;
        }
    }
    true
}

/// Notes that letter number `seq` gives a node the names that a message gives.
fn give_all(records: &mut Records, msg: &Msg, to: NodeNo, seq: u64)
    requires { length (given msg.now) ≤ records.old.spare }
    ensures list { records.new.list ≡ with_names_given records.old.list (given_infos msg.now) to seq }
    ensures spare { records.old.spare ≤ records.new.spare + length (given msg.now) }
{
    match msg {
        Msg::ReadGrant { info, fields } => {
            records.give(info.name, info.bunch, to, seq);
            give_fields(records, fields.as_slice(), to, seq);
        }
        Msg::WriteGrant { fields, .. } => give_fields(records, fields.as_slice(), to, seq),
        _ => {}
    }
}

/// Notes that letter number `seq` gives a node the names to which fields refer.
fn give_fields(records: &mut Records, fields: &[Field], to: NodeNo, seq: u64)
    requires { length (targets fields.now) ≤ records.old.spare }
    ensures list { records.new.list ≡ with_names_given records.old.list (filter_map info_in fields.now) to seq }
    ensures spare { records.old.spare ≤ records.new.spare + length (targets fields.now) }
{
    for field in fields {
        if let Field::Ref(info) = field {
            records.give(info.name, info.bunch, to, seq);
        }
    }
}

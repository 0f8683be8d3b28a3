//! Which names a node gave to which other nodes. It knows nothing of tokens and letters.
ghost use Rattle.std.specs.Prelude.{◌≡◌, ◌+◌, ◌^◌, ◌≤◌, ◌<◌, ◌↔◌, [], length, slice_get, Some, OnOk, OnErr, IfOk, IsTrue, MatchResult};
ghost use Rattle.std.specs.List.Sorted.{IsStrictlyIncreasing};

use crate::told::{SEEN, Told, end_names, place_of};
use bmx_shelves::Shelves;
use bmx_types::{BunchNo, Items, Name, Names, NoMemory, NodeNo};
use std::alloc::Global;
use std::marker::Model;

/// What a node keeps of one name that it has given to one other node: the object must stay while that
/// node may refer to it by way of this one.
#[derive(Clone, Copy, Debug, PartialEq, Eq)]
pub struct Record {
    pub name: Name,
    /// The bunch of the named object.
    pub bunch: BunchNo,
    /// The other node, from which references enter.
    pub from: NodeNo,
    /// The number of the last letter to that node that gave it the name, 0 where none did.
    pub sent: u64,
    /// The number of the last letter from that node by which this one took the object over, 0 where
    /// none did.
    pub got: u64,
}

/// Records in order.
pub type RecordList = Items<Record>;

impl Record {
    ghost use Rattle.bmx_owner.specs.Records.{is_of, is_under, is_settled, is_ahead};

    /// Whether it is the record of that name and node.
    pub(crate) fn is_of(&self, name: Name, node: NodeNo) -> bool
        ensures { result ≡ is_of name node self.now }
    {
        self.name == name && self.from == node
    }

    /// Whether it is of that bunch and node.
    pub(crate) fn is_under(&self, bunch: BunchNo, node: NodeNo) -> bool
        ensures { result ≡ is_under bunch node self.now }
    {
        self.bunch == bunch && self.from == node
    }

    /// Whether no letter later than a table bears on it: one made when its maker had issued `sent`
    /// letters to this node and taken `got` from it.
    pub(crate) fn is_settled(&self, sent: u64, got: u64) -> bool
        ensures { result ≡ is_settled sent got self.now }
    {
        self.sent <= got && self.got <= sent
    }

    /// Whether it stands before the record of that name and node: its name is smaller, or its name is
    /// that one and its node is smaller.
    pub(crate) fn is_ahead(&self, name: Name, node: NodeNo) -> bool
        ensures { result ≡ is_ahead name node self.now }
    {
        let (word, other) = (self.name.word(), name.word());
        word < other || word == other && self.from.get() < node.get()
    }
}

/// Entering records by rising name, those of one name by rising node, at most one of each name and
/// node. Contracts see the list, and `spare`: how many more records can be kept without memory.
#[derive(Drop)]
pub struct Records {
    records: Vec<Record>,
    /// The names of the records from each node, on a linked list of its own. There is none before room
    /// was made.
    names: Option<Shelves<Name>>,
    /// For how many more records there is room.
    room: usize,
}

impl Model for Records {
    ghost use Rattle.std.specs.Prelude.{vec_len, vec_capacity};
    ghost use Rattle.bmx_owner.specs.Records.{Entering};
    ghost use Rattle.bmx_owner.specs.Inside.Named.{Kept};

    ghost Value = { Entering };

    ghost view = { λ a. record { list = a.records.items; spare = a.room } };

    ghost invariant = { λ a. Kept a.records.items (vec_len a.records) (vec_capacity a.records) a.room a.names };
}

impl Records {
    ghost use Rattle.bmx_owner.specs.Records.{IsInOrder, find_record, has_record, with_record, given, taken_over, cleaned, stale_count, sent_by, got_by, record_or_blank};
    ghost use Rattle.bmx_types.specs.Updates.{put_at};
    ghost use Rattle.bmx_owner.specs.Inside.Search.{StandsAt, FitsAt};

    /// No record, and no memory taken.
    pub fn new(alloc: Global) -> Records
        ensures list { result.list ≡ [] }
        ensures spare { result.spare ≡ 0 }
    {
        Records {
            records: Vec::new(alloc),
            names: None,
            room: 0,
        }
    }

    /// Makes room for so many more records. Linear in how many more than there was room for, and in the
    /// records where it must move them.
    pub fn reserve(&mut self, n: u32) -> Result<(), NoMemory>
        ensures list { self.new.list ≡ self.old.list }
        ensures ok { OnOk result (n ≤ self.new.spare) }
        ensures err { OnErr result (self.new.spare < n) }
        ensures spare { self.old.spare ≤ self.new.spare }
    {
        let n = n as usize;
        if n > self.room {
            self.records.reserve(n)?;
            let alloc = *self.records.allocator();
            make_room(&mut self.names, alloc, (n - self.room) as u32)?;
            self.room = n;
        }
        Ok(())
    }

    /// How many records there are.
    pub fn len(&self) -> usize
        ensures value { result ≡ length self.now.list }
        ensures order { IsInOrder self.now.list }
    {
        self.records.len()
    }

    /// Whether there is none.
    pub fn is_empty(&self) -> bool
        ensures { IsTrue result ↔ (length self.now.list ≡ 0) }
    {
        self.records.is_empty()
    }

    /// The i-th record from 0, by rising name and then by rising node.
    pub fn at(&self, i: usize) -> Record
        requires { i < length self.now.list }
        ensures { slice_get self.now.list i ≡ Some result }
    {
        self.records[i]
    }

    /// A list of all records, by rising name and then by rising node.
    pub fn list(&self, alloc: Global) -> Result<RecordList, NoMemory>
        ensures { IfOk result (λ records. records ≡ self.now.list) }
    {
        Ok(Items::from_vec(Vec::from_slice(alloc, self.records.as_slice())?))
    }

    /// Notes that letter number `seq` gives the name, of an object of that bunch, to the node: `sent`
    /// becomes the larger of what it was and `seq`. A new record has `got` 0; one that stands keeps its
    /// bunch. Searches in logarithmic time; a new record moves those behind it.
    pub fn give(&mut self, name: Name, bunch: BunchNo, to: NodeNo, seq: u64)
        requires { 0 < self.old.spare }
        ensures list { self.new.list ≡ given self.old.list name bunch to seq }
        ensures change { find_record self.new.list ≡ put_at (find_record self.old.list) name to (Some (sent_by seq (record_or_blank self.old.list name bunch to))) }
        ensures spare { self.old.spare ≤ self.new.spare + 1 }
    {
        match self.search(name, to) {
            Ok(i) => {
                let record = self.records[i];
                if record.sent < seq {
                    self.replace(
                        i,
                        Record {
                            sent: seq,
                            ..record
                        },
                    );
                }
            }
            Err(i) => self.insert(
                i,
                Record {
                    name,
                    bunch,
                    from: to,
                    sent: seq,
                    got: 0,
                },
            ),
        }
    }

    /// Notes that by letter number `seq` from the node the object of that name and bunch was taken
    /// over: `got` becomes the larger of what it was and `seq`. A new record has `sent` 0; one that
    /// stands keeps its bunch. Searches in logarithmic time; a new record moves those behind it.
    pub fn take_over(&mut self, name: Name, bunch: BunchNo, from: NodeNo, seq: u64)
        requires { 0 < self.old.spare }
        ensures list { self.new.list ≡ taken_over self.old.list name bunch from seq }
        ensures change { find_record self.new.list ≡ put_at (find_record self.old.list) name from (Some (got_by seq (record_or_blank self.old.list name bunch from))) }
        ensures spare { self.old.spare ≤ self.new.spare + 1 }
    {
        match self.search(name, from) {
            Ok(i) => {
                let record = self.records[i];
                if record.got < seq {
                    self.replace(i, Record { got: seq, ..record });
                }
            }
            Err(i) => self.insert(
                i,
                Record {
                    name,
                    bunch,
                    from,
                    sent: 0,
                    got: seq,
                },
            ),
        }
    }

    /// Whether some record has the name. Takes logarithmic time.
    pub fn has(&self, name: Name) -> bool
        ensures { result ≡ has_record self.now.list name }
    {
        let word = name.word();
        let i = self.records.partition_point(|r| r.name.word() < word);
        match self.records.get(i) {
            Some(record) => record.name.word() == word,
            None => false,
        }
    }

    /// The record of that name and node, None where there is none. Takes logarithmic time.
    pub fn find(&self, name: Name, from: NodeNo) -> Option<Record>
        ensures { result ≡ find_record self.now.list name from }
    {
        match self.search(name, from) {
            Ok(i) => Some(self.records[i]),
            Err(_) => None,
        }
    }

    /// Ends records by a table of the bunch from that node, which lists the names that the node still
    /// refers to by way of this one, and was made when it had issued `sent` letters to this node and
    /// taken `got` from it. Removes each record of that bunch and node whose name isn't listed and on
    /// which no later letter bears: its `sent` is at most `got`, and its `got` at most `sent`. Answers
    /// how many went. Walks the records from that node alone, with a logarithmic search for each and one of
    /// the list for each that may go; where none goes that is all. Where some go, one pass looks at each record
    /// and moves those behind the first that goes, each once.
    pub fn clean(
        &mut self,
        bunch: BunchNo,
        from: NodeNo,
        sent: u64,
        got: u64,
        listed: &Names,
    ) -> u64
        requires { IsStrictlyIncreasing listed.now }
        ensures list { self.new.list ≡ cleaned self.old.list bunch from sent got listed.now }
        ensures count { result ≡ stale_count self.old.list bunch from sent got listed.now }
        ensures small { result < 2 ^ 63 }
        ensures spare { self.old.spare + result ≤ self.new.spare }
    {
        let told = Told {
            bunch,
            from,
            sent,
            got,
            listed,
        };
        let before = self.records.len();
        if walk(&mut self.names, self.records.as_slice(), &told) {
            self.records.retain(|r| !told.ends(r));
        }
        let gone = before - self.records.len();
        self.room += gone;
        gone as u64
    }

    /// Puts a record in the place of the one of the same name and node, which stands there.
    fn replace(&mut self, i: usize, entry: Record)
        requires { StandsAt self.old.list entry.name entry.from i }
        ensures list { self.new.list ≡ with_record entry self.old.list }
        ensures spare { self.new.spare ≡ self.old.spare }
    {
        self.records[i] = entry;
    }

    /// Puts a new record where it fits.
    fn insert(&mut self, i: usize, entry: Record)
        requires room { 0 < self.old.spare }
        requires fits { FitsAt self.old.list entry.name entry.from i }
        ensures list { self.new.list ≡ with_record entry self.old.list }
        ensures spare { self.new.spare + 1 ≡ self.old.spare }
    {
        let inserted = self.records.insert(i, entry).is_ok();
        prove!(inserted);
        note(&mut self.names, &entry);
        self.room -= 1;
    }

    /// Where the record of the name and the node stands, or else where it would.
    fn search(&self, name: Name, node: NodeNo) -> Result<usize, usize>
        ensures { MatchResult result (StandsAt self.now.list name node) (FitsAt self.now.list name node) }
    {
        place_of(self.records.as_slice(), name, node)
    }
}

ghost use Rattle.std.specs.Prelude.{ℕ, List, Option, not, filter, count_by, IsFalse};
ghost use Rattle.bmx_shelves.specs.Shelves.{Shelved};
ghost use Rattle.bmx_owner.specs.declared.entering.Record.{Record};
ghost use Rattle.bmx_owner.specs.Records.{IsInOrder, is_stale};
ghost use Rattle.bmx_owner.specs.Inside.Named.{AreShelved, HasOneMore};

/// Makes room for the names of so many more records.
fn make_room(names: &mut Option<Shelves<Name>>, alloc: Global, more: u32) -> Result<(), NoMemory>
    ensures ok { OnOk result ((list : List Record) (room : ℕ) → AreShelved list room names.old → AreShelved list (room + more) names.new) }
    ensures err { OnErr result ((list : List Record) (room : ℕ) → AreShelved list room names.old → AreShelved list room names.new) }
{
    if names.is_none() {
        *names = Some(Shelves::new(alloc, SEEN + 1)?);
    }
    let Some(shelves) = names else { unreachable!() };
    shelves.make_room(more)
}

/// Notes the name of a new record on its node's shelf.
fn note(names: &mut Option<Shelves<Name>>, entry: &Record)
    requires { (list : List Record) × (room : ℕ) × (0 < room) × AreShelved list room names.old }
    ensures { (old new : List Record) (room : ℕ) → AreShelved old (room + 1) names.old → HasOneMore entry.now old new → AreShelved new room names.new }
{
    let Some(shelves) = names else { unreachable!() };
    shelves.push(entry.from.get() as u32, entry.name);
}

/// Takes the names of the records off their shelf that a table ends. Answers whether there was one.
fn walk(names: &mut Option<Shelves<Name>>, records: &[Record], told: &Told) -> bool
    requires order { IsInOrder records.now }
    requires listed { IsStrictlyIncreasing told.now.listed.now }
    requires shelved { (room : ℕ) × AreShelved records.now room names.old }
    ensures names { (room : ℕ) → AreShelved records.now room names.old → AreShelved (filter (λ r. not (is_stale told.now.bunch told.now.from told.now.sent told.now.got told.now.listed.now r)) records.now) (room + count_by (is_stale told.now.bunch told.now.from told.now.sent told.now.got told.now.listed.now) records.now) names.new }
    ensures none { IsFalse result → filter (λ r. not (is_stale told.now.bunch told.now.from told.now.sent told.now.got told.now.listed.now r)) records.now ≡ records.now }
{
    match names {
        Some(shelves) => end_names(shelves, records, told),
        None => false,
    }
}

#[cfg(test)]
mod tests;

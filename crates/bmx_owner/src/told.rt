//! What a table says of records, and the walk that ends them.
ghost use Rattle.std.specs.Prelude.{◌≡◌, ◌+◌, ◌<◌, ◌==◌, not, [], filter, count_by, length, IsFalse, MatchResult};
ghost use Rattle.std.specs.List.{list_any};
ghost use Rattle.std.specs.List.Sorted.{IsStrictlyIncreasing};
ghost use Rattle.bmx_shelves.specs.Shelves.{on_shelf};
ghost use Rattle.bmx_owner.specs.Records.{IsInOrder, is_stale};
ghost use Rattle.bmx_owner.specs.Inside.Search.{StandsAt, FitsAt};
ghost use Rattle.bmx_owner.specs.Inside.Named.{ends_name, AreElsewhere};

use crate::entering::Record;
use bmx_shelves::{Judge, Shelves, end_items};
use bmx_types::{BunchNo, Name, Names, NodeNo};

/// The shelf of the names that a walk has looked at, behind those of the nodes.
pub(crate) const SEEN: u32 = 8;

/// What a table tells of records: its bunch and its maker, how many letters that had issued to this
/// node and taken from it, and the names that it lists.
#[derive(Clone, Copy)]
pub(crate) struct Told<'a> {
    pub(crate) bunch: BunchNo,
    pub(crate) from: NodeNo,
    pub(crate) sent: u64,
    pub(crate) got: u64,
    pub(crate) listed: &'a Names,
}

impl Told<'_> {
    /// Whether it ends the record.
    pub(crate) fn ends(&self, entry: &Record) -> bool
        requires { IsStrictlyIncreasing self.now.listed.now }
        ensures { result ≡ is_stale self.now.bunch self.now.from self.now.sent self.now.got self.now.listed.now entry.now }
    {
        entry.is_under(self.bunch, self.from)
            && entry.is_settled(self.sent, self.got)
            && !is_listed(self.listed, entry.name)
    }
}

/// The names that go: those whose records a table ends.
#[derive(Drop)]
struct Ended<'a> {
    records: &'a [Record],
    told: &'a Told<'a>,
}

impl Judge<Name> for Ended<'_> {
    ghost is_ready = { λ e. (IsInOrder e.records.now) × (IsStrictlyIncreasing e.told.now.listed.now) };

    ghost is_ended = { λ e name. ends_name e.told.now.bunch e.told.now.from e.told.now.sent e.told.now.got e.told.now.listed.now e.records.now name };

    fn ends(&self, name: Name) -> bool {
        match place_of(self.records, name, self.told.from) {
            Ok(i) => self.told.ends(&self.records[i]),
            Err(_) => false,
        }
    }
}

/// Takes the names off its maker's shelf whose records a table ends. Answers whether there was one.
pub(crate) fn end_names(names: &mut Shelves<Name>, records: &[Record], told: &Told) -> bool
    requires order { IsInOrder records.now }
    requires listed { IsStrictlyIncreasing told.now.listed.now }
    requires count { length names.old.shelves ≡ 9 }
    requires seen { on_shelf names.old.shelves 8 ≡ [] }
    ensures node { told.now.from < 8 }
    ensures count { length names.new.shelves ≡ 9 }
    ensures shelf { on_shelf names.new.shelves told.now.from ≡ filter (λ name. not (ends_name told.now.bunch told.now.from told.now.sent told.now.got told.now.listed.now records.now name)) (on_shelf names.old.shelves told.now.from) }
    ensures others { AreElsewhere told.now.from names.old.shelves names.new.shelves }
    ensures spare { names.new.spare ≡ names.old.spare + count_by (λ name. ends_name told.now.bunch told.now.from told.now.sent told.now.got told.now.listed.now records.now name) (on_shelf names.old.shelves told.now.from) }
    ensures none { IsFalse result → count_by (λ name. ends_name told.now.bunch told.now.from told.now.sent told.now.got told.now.listed.now records.now name) (on_shelf names.old.shelves told.now.from) ≡ 0 }
{
    end_items(
        names,
        told.from.get() as u32,
        SEEN,
        &Ended { records, told },
    )
}

/// Where the record of the name and the node stands, or else where it would. Takes logarithmic time.
pub(crate) fn place_of(records: &[Record], name: Name, node: NodeNo) -> Result<usize, usize>
    requires { IsInOrder records.now }
    ensures { MatchResult result (StandsAt records.now name node) (FitsAt records.now name node) }
{
    let i = records.partition_point(|r| r.is_ahead(name, node));
    match records.get(i) {
        Some(record) if record.is_of(name, node) => Ok(i),
        _ => Err(i),
    }
}

/// Whether rising names list this one. Takes logarithmic time.
fn is_listed(names: &Names, name: Name) -> bool
    requires { IsStrictlyIncreasing names.now }
    ensures { result ≡ list_any (λ x. x == name) names.now }
{
    names
        .as_slice()
        .binary_search_by_key(&name.word(), |x| x.word())
        .is_ok()
}

//! What one node tells another of a bunch, as a list of rows, and how it is made of what the node keeps.
ghost use Rattle.std.specs.Prelude.{◌≡◌, ℕ, List, IfOk, slice_get};
ghost use Rattle.bmx_types.specs.declared.names.Pair.{Pair};
ghost use Rattle.bmx_table.specs.Tables.{own_alone};

use bmx_types::{BunchNo, Name, Names, NoMemory, NodeNo, Pair, Pairs};
use std::alloc::Global;

/// What node `from` tells node `to` of a bunch, as it stood in one step of `from`. It stays true of
/// that step however late it comes, and however often.
#[derive(Debug, Drop)]
pub struct Table {
    /// The node that made it.
    pub from: NodeNo,
    /// The node that it is for, which may be the same.
    pub to: NodeNo,
    /// Which of the tables from `from` to `to` it is, from 1.
    pub number: u64,
    /// The stamp of the step that made it: larger than that of each step that the step had heard of.
    pub stamp: u64,
    /// The bunch of which it tells.
    pub bunch: BunchNo,
    /// How many letters `from` had issued to `to`.
    pub sent: u64,
    /// How many letters from `to` it had taken.
    pub got: u64,
    /// The number of the step at `from` that made it, from 1.
    pub clock: u64,
    /// The names of the bunch whose parent at `from` is `to`.
    pub names: Names,
    /// The references out of the bunch that have a stub at `from`; none where `to` is another node.
    pub stubs: Pairs,
    /// The references out of objects of the bunch that `from` has covered by way of `to`.
    pub intra: Pairs,
}

/// What a node has to tell of its bunches: three lists, handed out item by item. Each list is finite,
/// and stays as it is while it is read.
pub trait Rows {
    // The names of a bunch whose parent is a node.
    ghost children: { Self → ℕ → ℕ → List ℕ };

    // The references with a source in a bunch that have a stub.
    ghost stubs: { Self → ℕ → List Pair };

    // The references with a source in a bunch that are covered by way of a node.
    ghost covers: { Self → ℕ → ℕ → List Pair };

    /// The i-th name of the bunch, from 0, whose parent is `to`; None from their number on.
    fn child(&self, bunch: BunchNo, to: NodeNo, i: u64) -> Option<Name>
        ensures { result ≡ slice_get (children self.now bunch to) i };

    /// The i-th reference, from 0, with a source in the bunch that has a stub; None from their number
    /// on.
    fn stub(&self, bunch: BunchNo, i: u64) -> Option<Pair>
        ensures { result ≡ slice_get (stubs self.now bunch) i };

    /// The i-th reference, from 0, with a source in the bunch that is covered by way of `to`; None
    /// from their number on.
    fn intra(&self, bunch: BunchNo, to: NodeNo, i: u64) -> Option<Pair>
        ensures { result ≡ slice_get (covers self.now bunch to) i };
}

/// The table of a bunch that node `from` makes for node `to`: its rows for `to`, in order, the stubs
/// only where `to` is `from` itself. The numbers are as in `Table`. Takes one call of `rows` for each
/// item and one more for each list, and memory for the items alone.
pub fn snapshot<R: Rows>(
    alloc: Global,
    rows: &R,
    from: NodeNo,
    to: NodeNo,
    number: u64,
    stamp: u64,
    bunch: BunchNo,
    sent: u64,
    got: u64,
    clock: u64,
) -> Result<Table, NoMemory>
    ensures nodes { IfOk result (λ t. (t.from ≡ from) × (t.to ≡ to)) }
    ensures numbers { IfOk result (λ t. (t.number ≡ number) × (t.stamp ≡ stamp) × (t.bunch ≡ bunch)) }
    ensures counts { IfOk result (λ t. (t.sent ≡ sent) × (t.got ≡ got) × (t.clock ≡ clock)) }
    ensures names { IfOk result (λ t. t.names ≡ R.children rows.now bunch to) }
    ensures stubs { IfOk result (λ t. t.stubs ≡ own_alone from to (R.stubs rows.now bunch)) }
    ensures intra { IfOk result (λ t. t.intra ≡ R.covers rows.now bunch to) }
{
    let names = children_of(alloc, rows, bunch, to)?;
    let stubs = if from == to {
        stubs_of(alloc, rows, bunch)?
    } else {
        Pairs::new(alloc)
    };
    let intra = covers_of(alloc, rows, bunch, to)?;
    Ok(Table {
        from,
        to,
        number,
        stamp,
        bunch,
        sent,
        got,
        clock,
        names,
        stubs,
        intra,
    })
}

/// The names of the bunch whose parent is `to`.
fn children_of<R: Rows>(
    alloc: Global,
    rows: &R,
    bunch: BunchNo,
    to: NodeNo,
) -> Result<Names, NoMemory>
    ensures { IfOk result (λ names. names ≡ R.children rows.now bunch to) }
{
    let mut names = Vec::new(alloc);
    while let Some(name) = rows.child(bunch, to, names.len() as u64) {
        names.push(name)?;
    }
    Ok(Names::from_vec(names))
}

/// The references with a source in the bunch that have a stub.
fn stubs_of<R: Rows>(alloc: Global, rows: &R, bunch: BunchNo) -> Result<Pairs, NoMemory>
    ensures { IfOk result (λ pairs. pairs ≡ R.stubs rows.now bunch) }
{
    let mut pairs = Vec::new(alloc);
    while let Some(pair) = rows.stub(bunch, pairs.len() as u64) {
        pairs.push(pair)?;
    }
    Ok(Pairs::from_vec(pairs))
}

/// The references with a source in the bunch that are covered by way of `to`.
fn covers_of<R: Rows>(
    alloc: Global,
    rows: &R,
    bunch: BunchNo,
    to: NodeNo,
) -> Result<Pairs, NoMemory>
    ensures { IfOk result (λ pairs. pairs ≡ R.covers rows.now bunch to) }
{
    let mut pairs = Vec::new(alloc);
    while let Some(pair) = rows.intra(bunch, to, pairs.len() as u64) {
        pairs.push(pair)?;
    }
    Ok(Pairs::from_vec(pairs))
}

#[cfg(test)]
mod tests;

//! Tables that come early, and whose scions a table ends.
ghost use Rattle.std.specs.Prelude.{◌≡◌, ◌≤◌, [], IfOk};

use crate::{Applied, apply};
use bmx_inter::Inter;
use bmx_owner::{Record, Records};
use bmx_table::Table;
use bmx_types::{BunchNo, Name, Names, NodeNo, Pairs};
use std::alloc::Global;
use std::test::Fail;

fn node(n: u8) -> Result<NodeNo, Fail> {
    Ok(NodeNo::new(n).ok_or("no node")?)
}

fn bunch(b: u8) -> Result<BunchNo, Fail> {
    Ok(BunchNo::new(b).ok_or("no bunch")?)
}

/// A name of node 0.
fn name(count: u64) -> Result<Name, Fail> {
    Ok(Name::new(node(0)?, count).ok_or("no name")?)
}

/// A table of bunch 0 for node 0 that lists nothing.
fn lists_nothing(alloc: Global, from: u8, sent: u64, got: u64, clock: u64) -> Result<Table, Fail>
    ensures { IfOk result (λ t. t.names ≡ []) }
{
    Ok(Table {
        from: node(from)?,
        to: node(0)?,
        number: 1,
        stamp: 9,
        bunch: bunch(0)?,
        sent,
        got,
        clock,
        names: Names::new(alloc),
        stubs: Pairs::new(alloc),
        intra: Pairs::new(alloc),
    })
}

#[test]
fn a_table_waits_for_the_letters_before_it(rt: HostRuntime) -> Result<(), Fail> {
    let table = lists_nothing(rt.alloc(), 1, 5, 3, 7)?;
    let record = Record {
        name: name(2)?,
        bunch: bunch(0)?,
        from: node(1)?,
        sent: 3,
        got: 0,
    };
    let mut inter = Inter::new(rt.alloc());
    let mut records = Records::new(rt.alloc());
    records.reserve(1)?;
    records.give(record.name, record.bunch, record.from, 3);
    assert_eq!(rt; apply(&mut records, &mut inter, 4, &table), Applied::Early);
    assert_eq!(rt; records.find(record.name, record.from), Some(record));
    assert_eq!(rt;
        apply(&mut records, &mut inter, 5, &table),
        Applied::Removed(1)
    );
    assert!(rt; records.is_empty());
    assert_eq!(rt;
        apply(&mut records, &mut inter, 5, &table),
        Applied::Removed(0)
    );
    Ok(())
}

#[test]
fn scions_go_by_the_own_table_alone(rt: HostRuntime) -> Result<(), Fail> {
    let (source, of, target) = (name(2)?, bunch(0)?, name(3)?);
    let other = lists_nothing(rt.alloc(), 1, 5, 3, 7)?;
    let own = lists_nothing(rt.alloc(), 0, 0, 0, 7)?;
    let mut records = Records::new(rt.alloc());
    let mut inter = Inter::new(rt.alloc());
    inter.reserve(1)?;
    inter.pair(source, of, target, 7);
    assert_eq!(rt;
        apply(&mut records, &mut inter, 5, &other),
        Applied::Removed(0)
    );
    assert!(rt; inter.scion(0).is_some());
    assert_eq!(rt;
        apply(&mut records, &mut inter, 0, &own),
        Applied::Removed(1)
    );
    assert!(rt; inter.scion(0).is_none());
    assert!(rt; inter.stub(0).is_some());
    Ok(())
}

//! Records as they grow, and as tables end them.
ghost use Rattle.std.specs.Prelude.{◌≡◌, ◌≤◌, IfOk, []};

use crate::{Record, Records};
use bmx_types::{BunchNo, Name, Names, NodeNo};
use std::alloc::Global;
use std::test::Fail;

fn node(n: u8) -> Result<NodeNo, Fail> {
    Ok(NodeNo::new(n).ok_or("no node")?)
}

fn bunch(b: u8) -> Result<BunchNo, Fail> {
    Ok(BunchNo::new(b).ok_or("no bunch")?)
}

/// A name of node 0.
fn name(count: u64) -> Result<Name, Fail> {
    Ok(Name::new(node(0)?, count).ok_or("no name")?)
}

/// A record of bunch 0.
fn record(count: u64, from: u8, sent: u64, got: u64) -> Result<Record, Fail> {
    Ok(Record {
        name: name(count)?,
        bunch: bunch(0)?,
        from: node(from)?,
        sent,
        got,
    })
}

fn with_room(alloc: Global) -> Result<Records, Fail>
    ensures { IfOk result (λ records. 8 ≤ records.spare) }
{
    let mut records = Records::new(alloc);
    records.reserve(8)?;
    Ok(records)
}

#[test]
fn the_larger_letter_stands(rt: HostRuntime) -> Result<(), Fail> {
    let (given, taken) = (record(2, 1, 5, 0)?, record(2, 1, 5, 4)?);
    let (two, first, third, one) = (name(2)?, bunch(0)?, bunch(3)?, node(1)?);
    let mut records = with_room(rt.alloc())?;
    assert!(rt; records.is_empty());
    records.give(two, first, one, 5);
    records.give(two, first, one, 3);
    assert_eq!(rt; records.find(two, one), Some(given));
    records.take_over(two, third, one, 4);
    records.take_over(two, first, one, 2);
    assert_eq!(rt; records.list(rt.alloc())?.as_slice(), [taken].as_slice());
    Ok(())
}

#[test]
fn records_by_name_and_node(rt: HostRuntime) -> Result<(), Fail> {
    let (a, b, c) = (
        record(2, 4, 0, 6)?,
        record(2, 7, 2, 0)?,
        record(3, 1, 1, 0)?,
    );
    let (other, four) = (node(1)?, name(4)?);
    let mut records = with_room(rt.alloc())?;
    records.give(c.name, c.bunch, c.from, 1);
    records.give(b.name, b.bunch, b.from, 2);
    records.take_over(a.name, a.bunch, a.from, 6);
    assert_eq!(rt; records.list(rt.alloc())?.as_slice(), [a, b, c].as_slice());
    assert!(rt; records.len() == 3);
    assert_eq!(rt; records.at(1), b);
    assert_eq!(rt; records.find(b.name, b.from), Some(b));
    assert_eq!(rt; records.find(b.name, other), None);
    assert!(rt; records.has(c.name));
    assert!(rt; !records.has(four));
    Ok(())
}

/// What a table leaves of a record given by letter 3 and handed over by letter 4, of bunch 0 from node 1.
fn left(alloc: Global, of: u8, from: u8, sent: u64, got: u64) -> Result<u64, Fail> {
    let none = Names::new(alloc);
    let (two, first, one) = (name(2)?, bunch(0)?, node(1)?);
    let (of, from) = (bunch(of)?, node(from)?);
    let mut records = with_room(alloc)?;
    records.give(two, first, one, 3);
    records.take_over(two, first, one, 4);
    Ok(records.clean(of, from, sent, got, &none))
}

#[test]
fn what_a_table_ends(rt: HostRuntime) -> Result<(), Fail> {
    for (of, from, sent, got, went) in [
        (0, 1, 4, 3, 1),
        (0, 1, 5, 9, 1),
        (0, 1, 4, 2, 0),
        (0, 1, 3, 3, 0),
        (1, 1, 5, 9, 0),
        (0, 2, 5, 9, 0),
    ] {
        assert_eq!(rt;
            left(rt.alloc(), of, from, sent, got)?,
            went,
            "bunch {of} from {from}, sent {sent}, got {got}"
        );
    }
    Ok(())
}

#[test]
fn what_a_table_lists_stays(rt: HostRuntime) -> Result<(), Fail> {
    let (one, two, three) = (name(1)?, name(2)?, name(3)?);
    let (first, maker, kept) = (bunch(0)?, node(1)?, record(2, 1, 2, 0)?);
    let mut listed = Names::new(rt.alloc());
    listed.push(two)?;
    let mut records = with_room(rt.alloc())?;
    records.give(one, first, maker, 1);
    records.give(two, first, maker, 2);
    records.give(three, first, maker, 3);
    assert_eq!(rt; records.clean(first, maker, 0, 3, &listed), 2);
    assert_eq!(rt; records.list(rt.alloc())?.as_slice(), [kept].as_slice());
    Ok(())
}

//! Objects that move, are forgotten and are lent segments.
ghost use Rattle.std.specs.Prelude.{◌≡◌, ◌<◌};

use crate::{LearnError, Replica, Word, Words};
use bmx_segment::{Kind, PlaceError};
use bmx_types::{Address, BunchNo, Info, Name, NoMemory, NodeNo, Place, Val};
use std::test::Fail;

/// How many names the test of many has.
const MANY: u64 = 10_000;

/// How many objects of one field a segment has room for.
const OBJECTS: u64 = 204;

/// What a node tells of an object of one field that lies in a segment of another one.
fn told(name: Name, bunch: BunchNo, address: Address, moves: u64) -> Info
    ensures { result.size ≡ 1 }
{
    let place = Place { address, moves };
    let size = 1;
    Info {
        name,
        bunch,
        size,
        place,
    }
}

/// Makes an object of one field where the name has none.
fn make(replica: &mut Replica, name: Name, bunch: BunchNo) -> Result<bool, PlaceError> {
    if replica.info(name).is_some() {
        return Ok(false);
    }
    replica.make(name, bunch, 1)?;
    Ok(true)
}

/// Writes a number where the copy of the name has that field.
fn write(replica: &mut Replica, name: Name, i: u8, number: i64) -> bool {
    if replica.field(name, i).is_none() {
        return false;
    }
    replica.write_field(name, i, Val::Int(number));
    true
}

/// Reserves segments while they are lent.
fn reserve_lent(replica: &mut Replica, n: u32) -> Result<(), NoMemory> {
    let mut lent = replica.lend();
    let reserved = lent.segments.reserve(n);
    replica.give_back(lent);
    reserved
}

/// The same of an object of two fields.
fn told_larger(name: Name, bunch: BunchNo, address: Address, moves: u64) -> Info
    ensures { result.size ≡ 2 }
{
    let place = Place { address, moves };
    let size = 2;
    Info {
        name,
        bunch,
        size,
        place,
    }
}

/// Where the object of a name lies.
fn lies(replica: &Replica, name: Name) -> Option<Address> {
    let info = replica.info(name)?;
    Some(info.place.address)
}

/// Whether an object was made at node 0 and then learnt to lie in node 1's words for the i-th.
fn made_and_moved(replica: &mut Replica, bunch: BunchNo, i: u64) -> Option<bool>
    requires { i < 10000 }
{
    let name = Name::new(NodeNo::new(0)?, i + 1)?;
    let segment = (i / OBJECTS) as u32 + 1;
    let word = (i % OBJECTS) as u32 * 5;
    let to = Address::new(NodeNo::new(1)?, segment, word)?;
    let made = make(replica, name, bunch);
    let learnt = replica.learn(&told(name, bunch, to, 1));
    Some(made == Ok(true) && learnt.is_ok())
}

/// Whether the i-th object had a copy, and has no entry once it is forgotten.
fn forgotten(replica: &mut Replica, i: u64) -> Option<bool>
    requires { i < 10000 }
{
    let name = Name::new(NodeNo::new(0)?, i + 1)?;
    let had = replica.has_copy(name);
    replica.forget(name);
    Some(had && replica.info(name).is_none())
}

#[test]
fn a_larger_moves_wins(rt: HostRuntime) -> Result<(), Fail> {
    let node = NodeNo::new(0).ok_or("node")?;
    let other = NodeNo::new(1).ok_or("other")?;
    let bunch = BunchNo::new(2).ok_or("bunch")?;
    let name = Name::new(other, 5).ok_or("name")?;
    let first = Address::new(other, 1, 0).ok_or("first")?;
    let second = Address::new(other, 1, 100).ok_or("second")?;
    let mut replica = Replica::new(rt.alloc(), node, 4);
    let room = replica.reserve(1);
    let learnt = replica.learn(&told(name, bunch, first, 2));
    let older = replica.learn(&told(name, bunch, second, 1));
    let kept = lies(&replica, name);
    let larger = replica.learn(&told_larger(name, bunch, first, 2));
    let in_place = replica.learn(&told(name, bunch, first, 3));
    let newer = replica.learn(&told(name, bunch, second, 3));
    let moved = lies(&replica, name);
    let meant = replica.meaning(first.word());
    let alike = replica.same(first.word(), second.word());
    let unlike = replica.same(first.word(), 0);
    let copied = replica.has_copy(name);
    assert!(rt; room.is_ok());
    assert_eq!(rt; (learnt, older, newer), (Ok(()), Ok(()), Ok(())));
    assert_eq!(rt;
        (larger, in_place),
        (Err(LearnError::Clash), Err(LearnError::Clash))
    );
    assert_eq!(rt; (kept, moved), (Some(first), Some(second)));
    assert_eq!(rt; meant, Some(name));
    assert_eq!(rt; (alike, unlike, copied), (true, false, false));
    Ok(())
}

#[test]
fn a_moved_object_is_reached_by_its_old_address(rt: HostRuntime) -> Result<(), Fail> {
    let node = NodeNo::new(0).ok_or("node")?;
    let other = NodeNo::new(1).ok_or("other")?;
    let bunch = BunchNo::new(0).ok_or("bunch")?;
    let name = Name::new(node, 1).ok_or("name")?;
    let from = Address::new(node, 1, 0).ok_or("from")?;
    let to = Address::new(other, 1, 7).ok_or("to")?;
    let mut replica = Replica::new(rt.alloc(), node, 4);
    let made = make(&mut replica, name, bunch);
    let written = write(&mut replica, name, 0, -5);
    let first = lies(&replica, name);
    let learnt = replica.learn(&told(name, bunch, to, 1));
    let meant = replica.meaning(from.word());
    let alike = replica.same(from.word(), to.word());
    let held = replica.field(name, 0);
    replica.forget(name);
    let still_meant = replica.meaning(from.word());
    let gone = replica.info(name).is_none();
    assert_eq!(rt; (made, written, learnt), (Ok(true), true, Ok(())));
    assert_eq!(rt; first, Some(from));
    assert_eq!(rt; (meant, still_meant), (Some(name), Some(name)));
    assert_eq!(rt; (alike, gone), (true, true));
    assert_eq!(rt; held, Some(Val::Int(-5)));
    Ok(())
}

#[test]
fn lent_segments_come_back(rt: HostRuntime) -> Result<(), Fail> {
    let node = NodeNo::new(3).ok_or("node")?;
    let bunch = BunchNo::new(0).ok_or("bunch")?;
    let name = Name::new(node, 1).ok_or("name")?;
    let mut replica = Replica::new(rt.alloc(), node, 4);
    let made = make(&mut replica, name, bunch);
    let written = write(&mut replica, name, 0, -5);
    let reserved = reserve_lent(&mut replica, 2);
    let held = replica.field(name, 0);
    assert_eq!(rt; (made, written), (Ok(true), true));
    assert!(rt; reserved.is_ok());
    assert_eq!(rt; held, Some(Val::Int(-5)));
    Ok(())
}

#[test]
fn many_names(rt: HostRuntime) -> Result<(), Fail> {
    let node = NodeNo::new(0).ok_or("node")?;
    let bunch = BunchNo::new(0).ok_or("bunch")?;
    let mut replica = Replica::new(rt.alloc(), node, 64);
    let mut moved = true;
    for i in 0..MANY {
        moved = moved && made_and_moved(&mut replica, bunch, i) == Some(true);
    }
    let mut gone = true;
    for i in 0..MANY {
        gone = gone && forgotten(&mut replica, i) == Some(true);
    }
    assert!(rt; moved);
    assert!(rt; gone);
    Ok(())
}

#[test]
fn registers(rt: HostRuntime) {
    let mut words = Words::new();
    let word = Word {
        kind: Kind::Int,
        word: 3,
    };
    words.set(15, word);
    assert_eq!(rt; words.at(15), word);
    assert_eq!(rt; words.at(0).kind, Kind::Null);
}

//! Objects that are made, told, heard of and filled.
use crate::Memory;
use bmx_msg::{Fields, Msg};
use bmx_segment::PlaceError;
use bmx_types::{Address, BunchNo, Info, Items, Name, NoMemory, NodeNo, Place, Val};
use std::alloc::Global;
use std::test::Fail;

// What these answer, None or false where they may not be called.
fn make(memory: &mut Memory, name: Name, bunch: BunchNo) -> Option<Result<(), PlaceError>> {
    if memory.info(name).is_some() {
        return None;
    }
    Some(memory.make(name, bunch, 2))
}

fn birth(memory: &mut Memory, name: Name, bunch: BunchNo) -> Option<Result<(), NoMemory>> {
    let made = memory.replica().segments().made();
    if made >= 65535 || memory.info(name).is_some() {
        return None;
    }
    Some(memory.make_birth(name, bunch, 2))
}

fn refer(memory: &mut Memory, name: Name) -> bool {
    if memory.info(name).is_none() {
        return false;
    }
    memory.set_register(3, Val::Ref(name));
    true
}

fn write(memory: &mut Memory, name: Name, number: i64) -> bool {
    if memory.field(name, 0).is_none() {
        return false;
    }
    memory.write_field(name, 0, Val::Int(number));
    true
}

// Node 0 opens with 0.1 and makes 0.2, to which register 3 refers, writes 7 to its first field, tells it, and has no copy at last.
#[test]
fn an_object_is_made_and_told(rt: HostRuntime) -> Result<(), Fail> {
    let alloc = rt.alloc();
    let me = NodeNo::new(0).ok_or("node 0")?;
    let bunch = BunchNo::new(1).ok_or("bunch 1")?;
    let name = Name::new(me, 2).ok_or("0.2")?;
    let anchor = Name::new(me, 1).ok_or("0.1")?;
    let mut memory = Memory::new(alloc, me, 4);
    let born = birth(&mut memory, anchor, bunch);
    let made = make(&mut memory, name, bunch);
    let written = (refer(&mut memory, name), write(&mut memory, name, 7));
    let values = (
        memory.register(3),
        memory.field(name, 0),
        memory.field(name, 2),
    );
    let size = match memory.info(name) {
        Some(info) => info.size,
        None => 0,
    };
    let told = match memory.fields(alloc, name) {
        Ok(fields) => fields.len(),
        Err(NoMemory) => 0,
    };
    let before = memory.has_copy(name);
    memory.clear_copy(name);
    let after = (memory.has_copy(name), memory.field(name, 0));
    assert_eq!(rt; born, Some(Ok(())));
    assert_eq!(rt; made, Some(Ok(())));
    assert_eq!(rt; written, (true, true));
    assert_eq!(rt; values, (Val::Ref(name), Some(Val::Int(7)), None));
    assert_eq!(rt; (size, told), (2, 2));
    assert!(rt; before);
    assert_eq!(rt; after, (false, None));
    Ok(())
}

// An object that hasn't moved.
fn told(name: Name, bunch: BunchNo, address: Address, size: u8) -> Info {
    let place = Place { address, moves: 0 };
    Info {
        name,
        bunch,
        size,
        place,
    }
}

// Hears of an object, where that doesn't clash.
fn hear(alloc: Global, memory: &mut Memory, info: &Info) -> Result<bool, NoMemory> {
    if info.size > 32 {
        return Ok(false);
    }
    let fields: Fields = Items::new(alloc);
    let clashes = memory.clashes(&Msg::ReadGrant {
        info: *info,
        fields,
    });
    if clashes {
        return Ok(false);
    }
    memory.reserve(1)?;
    memory.learn(info);
    Ok(true)
}

// Gives a name a copy without fields, where its object has none.
fn fill(alloc: Global, memory: &mut Memory, name: Name) -> Option<bool> {
    let info = memory.info(name)?;
    if info.size > 0 {
        return Some(false);
    }
    let fields: Fields = Items::new(alloc);
    memory.install(name, &fields);
    Some(true)
}

// Node 0 hears of an object without fields in a segment of node 1, twice and then of another size, and gets a copy.
#[test]
fn an_object_is_heard_of(rt: HostRuntime) -> Result<(), Fail> {
    let alloc = rt.alloc();
    let me = NodeNo::new(0).ok_or("node 0")?;
    let other = NodeNo::new(1).ok_or("node 1")?;
    let bunch = BunchNo::new(1).ok_or("bunch 1")?;
    let name = Name::new(other, 2).ok_or("1.2")?;
    let address = Address::new(other, 1, 0).ok_or("a word of node 1")?;
    let first = told(name, bunch, address, 0);
    let larger = told(name, bunch, address, 1);
    let mut memory = Memory::new(alloc, me, 4);
    let heard = (
        hear(alloc, &mut memory, &first),
        hear(alloc, &mut memory, &first),
        hear(alloc, &mut memory, &larger),
    );
    let lies = match memory.info(name) {
        Some(info) => info.place.address == address,
        None => false,
    };
    let before = memory.has_copy(name);
    let filled = fill(alloc, &mut memory, name);
    let after = memory.has_copy(name);
    assert_eq!(rt; heard, (Ok(true), Ok(true), Ok(false)));
    assert!(rt; lies);
    assert_eq!(rt; (before, filled, after), (false, Some(true), true));
    Ok(())
}

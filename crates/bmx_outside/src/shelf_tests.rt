//! Shelves in memory and a folder, and their failures.
use crate::{Calls, DirShelf, MemShelf, NoFaultShelf, Shelf, ShelfError};
use bmx_types::Items;
use std::alloc::Global;
use std::fs;
use std::test::Fail;

/// Whether a shelf hasn't a name, and has two of them after three saves.
fn keeps_two_names<S: Shelf>(alloc: Global, shelf: &mut S) -> Result<bool, Fail> {
    let missing = shelf.load(alloc, "bmx_a.img").ok().ok_or("a load")?;
    shelf.save("bmx_a.img", b"first").ok().ok_or("a save")?;
    shelf.save("bmx_b.img", b"other").ok().ok_or("a save")?;
    shelf.save("bmx_a.img", b"second").ok().ok_or("a save")?;
    let first = shelf.load(alloc, "bmx_a.img").ok().ok_or("a load")?;
    let first = first.ok_or("the first file")?;
    let other = shelf.load(alloc, "bmx_b.img").ok().ok_or("a load")?;
    let other = other.ok_or("the other file")?;
    Ok(
        missing.is_none()
            && first.as_slice() == b"second".as_slice()
            && other.as_slice() == b"other".as_slice(),
    )
}

#[test]
fn a_shelf_in_memory(rt: HostRuntime) -> Result<(), Fail> {
    let mut shelf = NoFaultShelf::new(rt.alloc())?;
    assert!(rt; keeps_two_names(rt.alloc(), &mut shelf)?);
    Ok(())
}

#[test]
fn a_shelf_fails_at_its_calls(rt: HostRuntime) -> Result<(), Fail> {
    let mut fails: Calls = Items::new(rt.alloc());
    fails.push(2)?;
    let mut shelf = MemShelf::new(rt.alloc(), fails)?;
    shelf.save("a", b"1").ok().ok_or("the first call")?;
    assert!(rt; matches!(shelf.save("a", b"2"), Err(ShelfError::Failed)));
    assert_eq!(rt; shelf.faults(), 1);
    let found = shelf.load(rt.alloc(), "a").ok().ok_or("the third call")?;
    assert_eq!(rt; found.ok_or("the file")?.as_slice(), b"1".as_slice());
    Ok(())
}

#[test]
fn a_folder(rt: HostRuntime) -> Result<(), Fail> {
    let mut shelf = DirShelf::new(&rt);
    assert!(rt; keeps_two_names(rt.alloc(), &mut shelf)?);
    assert_eq!(rt; shelf.faults(), 0);
    assert!(rt; matches!(shelf.load(rt.alloc(), "."), Err(ShelfError::Failed)));
    assert_eq!(rt; shelf.faults(), 1);
    fs::remove_file(&rt, "bmx_a.img")?;
    fs::remove_file(&rt, "bmx_b.img")?;
    Ok(())
}

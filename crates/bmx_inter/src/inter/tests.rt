//! Pairs as they are stored, kept and ended.
ghost use Rattle.std.specs.Prelude.{◌==◌, ◌&&◌};

use crate::{Inter, Scion, Stub};
use bmx_mark::Keeps;
use bmx_types::{BunchNo, Name, NoMemory, NodeNo, Pair, Pairs};
use std::test::Fail;

/// Keeps one name, whose copy has one reference.
#[derive(Drop)]
struct One {
    name: Name,
    target: Name,
}

impl Keeps for One {
    ghost is_kept = { λ k name. name == k.name };

    ghost is_held = { λ k source target. source == k.name && target == k.target };

    fn kept(&self, name: Name) -> bool {
        name == self.name
    }

    fn holds(&self, source: Name, target: Name) -> bool {
        source == self.name && target == self.target
    }
}

// Stores a reference, with room for it.
fn store(
    inter: &mut Inter,
    source: Name,
    of: BunchNo,
    target: Name,
    clock: u64,
) -> Result<(), NoMemory> {
    inter.reserve(1)?;
    inter.pair(source, of, target, clock);
    Ok(())
}

// A reference stored in step 4 and again in step 9: a table of step 8 leaves its scion, one of step 9 ends it.
#[test]
fn a_table_ends_what_it_came_after(rt: HostRuntime) -> Result<(), Fail> {
    let node = NodeNo::new(0).ok_or("no node")?;
    let bunch = BunchNo::new(0).ok_or("no bunch")?;
    let source = Name::new(node, 2).ok_or("no name")?;
    let target = Name::new(node, 3).ok_or("no name")?;
    let none = Pairs::new(rt.alloc());
    let mut inter = Inter::new(rt.alloc());
    let first = store(&mut inter, source, bunch, target, 4);
    let again = store(&mut inter, source, bunch, target, 9);
    let early = inter.clean(bunch, 8, &none);
    let scion = inter.scion(0);
    let late = inter.clean(bunch, 9, &none);
    let left = inter.scion(0);
    let stub = inter.stub(0);
    assert_eq!(rt; (first, again), (Ok(()), Ok(())));
    assert_eq!(rt; (early, late), (0, 1));
    let stored = Scion {
        target,
        source,
        bunch,
        clock: 9,
    };
    assert_eq!(rt; (scion, left), (Some(stored), None));
    let stays = Stub {
        source,
        bunch,
        target,
    };
    assert_eq!(rt; stub, Some(stays));
    Ok(())
}

// A collection of bunch 0 that keeps 0.2, which refers to 0.7 and no more to 0.8: the stub of bunch 1 stays.
#[test]
fn a_collection_keeps_what_is_referred_to(rt: HostRuntime) -> Result<(), Fail> {
    let node = NodeNo::new(0).ok_or("no node")?;
    let bunch = BunchNo::new(0).ok_or("no bunch")?;
    let other = BunchNo::new(1).ok_or("no bunch")?;
    let name = Name::new(node, 2).ok_or("no name")?;
    let target = Name::new(node, 7).ok_or("no name")?;
    let gone = Name::new(node, 8).ok_or("no name")?;
    let mut inter = Inter::new(rt.alloc());
    let first = store(&mut inter, name, bunch, gone, 1);
    let second = store(&mut inter, name, bunch, target, 1);
    let third = store(&mut inter, target, other, gone, 1);
    inter.keep(bunch, &One { name, target });
    let stubs = (inter.stub(0), inter.stub(1), inter.stub(2));
    let scion = inter.scion(2);
    assert_eq!(rt; (first, second, third), (Ok(()), Ok(()), Ok(())));
    let kept = Stub {
        source: name,
        bunch,
        target,
    };
    let elsewhere = Stub {
        source: target,
        bunch: other,
        target: gone,
    };
    assert_eq!(rt; stubs, (Some(kept), Some(elsewhere), None));
    assert!(rt; scion.is_some());
    Ok(())
}

// Brought in another bunch, it is of that one alone: a table of the first doesn't tell of it.
#[test]
fn a_reference_is_of_its_last_bunch(rt: HostRuntime) -> Result<(), Fail> {
    let node = NodeNo::new(0).ok_or("no node")?;
    let bunch = BunchNo::new(0).ok_or("no bunch")?;
    let other = BunchNo::new(1).ok_or("no bunch")?;
    let source = Name::new(node, 2).ok_or("no name")?;
    let target = Name::new(node, 7).ok_or("no name")?;
    let none = Pairs::new(rt.alloc());
    let mut inter = Inter::new(rt.alloc());
    let first = store(&mut inter, source, bunch, target, 1);
    let second = store(&mut inter, source, other, target, 2);
    let by_first = inter.clean(bunch, 5, &none);
    let by_second = inter.clean(other, 5, &none);
    assert_eq!(rt; (first, second), (Ok(()), Ok(())));
    assert_eq!(rt; (by_first, by_second), (0, 1));
    Ok(())
}

// What a list that doesn't rise has stays all the same.
#[test]
fn a_list_that_does_not_rise(rt: HostRuntime) -> Result<(), Fail> {
    let node = NodeNo::new(0).ok_or("no node")?;
    let bunch = BunchNo::new(0).ok_or("no bunch")?;
    let small = Name::new(node, 2).ok_or("no name")?;
    let large = Name::new(node, 5).ok_or("no name")?;
    let mut listed = Pairs::new(rt.alloc());
    let later = listed.push(Pair {
        source: large,
        target: large,
    });
    let earlier = listed.push(Pair {
        source: small,
        target: large,
    });
    let mut inter = Inter::new(rt.alloc());
    let first = store(&mut inter, small, bunch, large, 1);
    let second = store(&mut inter, large, bunch, large, 1);
    let ended = inter.clean(bunch, 1, &listed);
    assert!(rt; later.is_ok() && earlier.is_ok());
    assert_eq!(rt; (first, second), (Ok(()), Ok(())));
    assert_eq!(rt; ended, 0);
    Ok(())
}

// Stubs of two bunches are given by source, whichever bunch they are of.
#[test]
fn the_order_goes_over_all_bunches(rt: HostRuntime) -> Result<(), Fail> {
    let node = NodeNo::new(0).ok_or("no node")?;
    let first = BunchNo::new(3).ok_or("no bunch")?;
    let second = BunchNo::new(1).ok_or("no bunch")?;
    let target = Name::new(node, 9).ok_or("no name")?;
    let mut inter = Inter::new(rt.alloc());
    for count in [4, 2, 1, 3] {
        let source = Name::new(node, count).ok_or("no name")?;
        let bunch = if count % 2 == 0 { first } else { second };
        store(&mut inter, source, bunch, target, count)?;
    }
    let mut sources = [0; 4];
    for i in 0..4 {
        let stub = inter.stub(i as u64).ok_or("no stub")?;
        sources[i] = stub.source.word();
    }
    let none = inter.stub(4);
    assert!(rt; sources[0] < sources[1] && sources[1] < sources[2] && sources[2] < sources[3]);
    assert_eq!(rt; none, None);
    Ok(())
}

//! What a table lists of rows by hand.
ghost use Rattle.std.specs.Prelude.{◌≡◌, ℕ, List, [], ◌==◌, if◌then◌else◌, slice_get};

use crate::{Rows, snapshot};
use bmx_types::{BunchNo, Name, Names, NodeNo, Pair, Pairs};
use std::alloc::Global;
use std::test::Fail;

fn node(n: u8) -> Result<NodeNo, Fail> {
    Ok(NodeNo::new(n).ok_or("no node")?)
}

/// A name of node 0.
fn name(count: u64) -> Result<Name, Fail> {
    Ok(Name::new(node(0)?, count).ok_or("no name")?)
}

fn pair(source: u64, target: u64) -> Result<Pair, Fail> {
    Ok(Pair {
        source: name(source)?,
        target: name(target)?,
    })
}

/// Rows of one bunch, the same for every node.
#[derive(Drop)]
struct Fixed {
    children: Names,
    stubs: Pairs,
    covers: Pairs,
}

impl Rows for Fixed {
    ghost children = { λ k _ _. k.children };

    ghost stubs = { λ k _. k.stubs };

    ghost covers = { λ k _ _. k.covers };

    fn child(&self, _bunch: BunchNo, _to: NodeNo, i: u64) -> Option<Name> {
        self.children.as_slice().get(i as usize).copied()
    }

    fn stub(&self, _bunch: BunchNo, i: u64) -> Option<Pair> {
        self.stubs.as_slice().get(i as usize).copied()
    }

    fn intra(&self, _bunch: BunchNo, _to: NodeNo, i: u64) -> Option<Pair> {
        self.covers.as_slice().get(i as usize).copied()
    }
}

fn some_rows(alloc: Global) -> Result<Fixed, Fail> {
    let mut children = Names::new(alloc);
    children.push(name(2)?)?;
    children.push(name(5)?)?;
    let mut stubs = Pairs::new(alloc);
    stubs.push(pair(2, 9)?)?;
    let mut covers = Pairs::new(alloc);
    covers.push(pair(3, 7)?)?;
    covers.push(pair(3, 8)?)?;
    covers.push(pair(4, 7)?)?;
    Ok(Fixed {
        children,
        stubs,
        covers,
    })
}

#[test]
fn what_a_table_lists(rt: HostRuntime) -> Result<(), Fail> {
    let rows = some_rows(rt.alloc())?;
    let bunch = BunchNo::new(3).ok_or("no bunch")?;
    let mut stub = Pairs::new(rt.alloc());
    stub.push(pair(2, 9)?)?;
    let none = Pairs::new(rt.alloc());
    for to in [1, 2] {
        let stubs = if to == 1 { &stub } else { &none };
        let table = snapshot(
            rt.alloc(),
            &rows,
            node(1)?,
            node(to)?,
            4,
            30,
            bunch,
            6,
            5,
            21,
        )?;
        assert_eq!(rt;
            (table.from, table.to, table.bunch),
            (node(1)?, node(to)?, bunch)
        );
        assert_eq!(rt; (table.number, table.stamp, table.clock), (4, 30, 21));
        assert_eq!(rt; (table.sent, table.got), (6, 5));
        assert_eq!(rt; table.names.as_slice(), [name(2)?, name(5)?].as_slice());
        assert_eq!(rt; table.stubs.as_slice(), stubs.as_slice());
        assert_eq!(rt;
            table.intra.as_slice(),
            [pair(3, 7)?, pair(3, 8)?, pair(4, 7)?].as_slice()
        );
    }
    Ok(())
}

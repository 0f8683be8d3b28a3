//! Items on shelves, in their order.
ghost use Rattle.std.specs.Prelude.{◌≡◌, ◌+◌, ◌≤◌, ◌<◌, length, IfOk};
ghost use Rattle.bmx_shelves.specs.Shelves.{on_shelf};

use super::*;
use std::test::Fail;

fn with_room(alloc: Global) -> Result<Shelves<u8>, Fail>
    ensures count { IfOk result (λ s. length s.shelves ≡ 2) }
    ensures spare { IfOk result (λ s. s.spare ≡ 3) }
{
    let mut shelves = Shelves::new(alloc, 2)?;
    shelves.make_room(1)?;
    shelves.make_room(2)?;
    Ok(shelves)
}

#[test]
fn items_go_in_order(rt: HostRuntime) -> Result<(), Fail> {
    let mut shelves = with_room(rt.alloc())?;
    assert_eq!(rt; shelves.front(0), None);
    shelves.push(0, 5);
    shelves.push(1, 6);
    shelves.push(0, 7);
    assert_eq!(rt; shelves.front(0), Some(5));
    assert_eq!(rt; shelves.front(1), Some(6));
    Ok(())
}

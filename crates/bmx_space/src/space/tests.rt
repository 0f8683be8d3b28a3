//! How many segments hold so many words.
use crate::Space;
use bmx_segment::{PlaceError, Segments};
use bmx_types::{Address, BunchNo, NodeNo};
use std::test::Fail;

/// 989 words need one segment and 990 two; with a limit of three no more is made.
#[test]
fn segments_for_words(rt: HostRuntime) -> Result<(), Fail> {
    let me = NodeNo::new(0).ok_or("no node")?;
    let bunch = BunchNo::new(0).ok_or("no bunch")?;
    let mut segments = Segments::new(rt.alloc(), me, 3);
    let mut space = Space::new();
    let one = space.reserve(&mut segments, bunch, 989);
    let made_for_one = segments.made();
    let two = space.reserve(&mut segments, bunch, 990);
    let made_for_two = segments.made();
    let full = space.reserve(&mut segments, bunch, 1);
    assert_eq!(rt; (one, two), (Ok(()), Ok(())));
    assert_eq!(rt; (made_for_one, made_for_two), (1, 3));
    assert_eq!(rt; full, Err(PlaceError::Full));
    Ok(())
}

/// Moves an object of 32 fields into the first of two segments, and ends the collection's moves.
fn moved(segments: &mut Segments, bunch: BunchNo) -> Option<Address> {
    let mut space = Space::new();
    let Ok(()) = space.reserve(segments, bunch, 990) else {
        return None;
    };
    let address = space.next(segments, 32);
    space.finish(segments);
    Some(address)
}

/// The segment that an object was moved into is open, so a sweep drops the other one alone; a second sweep drops
/// nothing.
#[test]
fn a_sweep_drops_what_was_not_used(rt: HostRuntime) -> Result<(), Fail> {
    let me = NodeNo::new(2).ok_or("no node")?;
    let bunch = BunchNo::new(5).ok_or("no bunch")?;
    let first = Address::new(me, 1, 0);
    let mut segments = Segments::new(rt.alloc(), me, 2);
    let address = moved(&mut segments, bunch);
    let open = segments.has_open(bunch);
    let mut space = Space::new();
    let swept = space.sweep(&mut segments);
    let mapped = (segments.is_mapped(me, 1), segments.is_mapped(me, 2));
    let swept_again = space.sweep(&mut segments);
    assert_eq!(rt; address, first);
    assert!(rt; open);
    assert_eq!(rt; (swept, swept_again), (1, 0));
    assert_eq!(rt; mapped, (true, false));
    Ok(())
}

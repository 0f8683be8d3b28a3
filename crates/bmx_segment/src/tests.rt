//! Places, headers and fields in segments.
ghost use Rattle.std.specs.Prelude.{◌≡◌};

use crate::{Clash, Header, Kind, PlaceError, Segments, State};
use bmx_types::{Address, BunchNo, Name, NodeNo};
use std::test::Fail;

/// How many objects of 32 fields a segment has room for.
const OBJECTS: u64 = 28;

/// How many segments the test of many makes.
const MANY: u32 = 4096;

/// A live header that hasn't moved, of null fields.
fn live(name: Name, bunch: BunchNo, size: u8) -> Header
    ensures { result.size ≡ size }
{
    let state = State::Live { moves: 0, kinds: 0 };
    Header {
        bunch,
        size,
        name,
        state,
    }
}

/// Writes a field where a live header with that field stands.
fn write(segments: &mut Segments, at: Address, i: u8, kind: Kind, word: u64) -> bool {
    match segments.header(at) {
        Some(
            Header {
                state: State::Live { .. },
                size,
                ..
            },
        ) if i < size => {
            segments.set_word(at, i, kind, word);
            true
        }
        _ => false,
    }
}

/// Reads a field where a live header with that field stands.
fn read(segments: &Segments, at: Address, i: u8) -> Option<u64> {
    match segments.header(at) {
        Some(
            Header {
                state: State::Live { .. },
                size,
                ..
            },
        ) if i < size => Some(segments.word(at, i)),
        _ => None,
    }
}

#[test]
fn places_fill_a_segment(rt: HostRuntime) -> Result<(), Fail> {
    let node = NodeNo::new(0).ok_or("node")?;
    let bunch = BunchNo::new(0).ok_or("bunch")?;
    let mut segments = Segments::new(rt.alloc(), node, 1);
    for k in 0..28u32 {
        assert_eq!(rt;
            Some(segments.place(bunch, 32)?),
            Address::new(node, 1, 36 * k)
        );
    }
    assert_eq!(rt; segments.place(bunch, 32), Err(PlaceError::Full));
    assert_eq!(rt;
        Some(segments.place(bunch, 12)?),
        Address::new(node, 1, 1008)
    );
    assert_eq!(rt;
        (segments.made(), segments.left(1), segments.left(2)),
        (1, 0, 0)
    );
    assert_eq!(rt; segments.place(bunch, 0), Err(PlaceError::Full));
    assert_eq!(rt; segments.open(bunch, 1), Err(PlaceError::Full));
    assert_eq!(rt; segments.open(bunch, 0), Ok(2));
    Ok(())
}

#[test]
fn segments_are_made_ahead(rt: HostRuntime) -> Result<(), Fail> {
    let node = NodeNo::new(2).ok_or("node")?;
    let bunch = BunchNo::new(4).ok_or("bunch")?;
    let mut segments = Segments::new(rt.alloc(), node, 3);
    assert_eq!(rt; segments.open(bunch, 2), Ok(1));
    assert_eq!(rt; segments.open(bunch, 1), Ok(3));
    assert_eq!(rt; segments.open(bunch, 1), Err(PlaceError::Full));
    assert_eq!(rt; (segments.made(), segments.left(3)), (3, 1024));
    assert!(rt; segments.is_mapped(node, 3) && !segments.has_open(bunch));
    Ok(())
}

#[test]
fn a_birth_is_placed_beyond_the_limit(rt: HostRuntime) -> Result<(), Fail> {
    let node = NodeNo::new(3).ok_or("node")?;
    let bunch = BunchNo::new(15).ok_or("bunch")?;
    let mut segments = Segments::new(rt.alloc(), node, 0);
    assert_eq!(rt; segments.place(bunch, 0), Err(PlaceError::Full));
    if segments.made() < 65535 {
        assert_eq!(rt;
            Some(segments.place_birth(bunch, 1)?),
            Address::new(node, 1, 0)
        );
    }
    assert_eq!(rt; Some(segments.place(bunch, 1)?), Address::new(node, 1, 5));
    assert!(rt; segments.has_open(bunch));
    assert!(rt; segments.is_open(node, 1));
    Ok(())
}

#[test]
fn an_object_keeps_its_header_and_field(rt: HostRuntime) -> Result<(), Fail> {
    let node = NodeNo::new(0).ok_or("node")?;
    let bunch = BunchNo::new(0).ok_or("bunch")?;
    let mut segments = Segments::new(rt.alloc(), node, 4096);
    let anchor = segments.place(bunch, 32)?;
    let at = segments.place(bunch, 1)?;
    assert_eq!(rt; at.word(), 0x0000_0001_0000_0024);
    let name = Name::new(node, 2).ok_or("name")?;
    assert_eq!(rt; segments.header(at), None);
    assert_eq!(rt; segments.set_header(at, &live(name, bunch, 1)), Ok(()));
    assert!(rt; write(&mut segments, at, 0, Kind::Int, 5));
    assert!(rt; !write(&mut segments, at, 1, Kind::Int, 5));
    let state = State::Live { moves: 0, kinds: 1 };
    assert_eq!(rt;
        segments.header(at),
        Some(Header {
            state,
            ..live(name, bunch, 1)
        })
    );
    assert_eq!(rt; read(&segments, at, 0), Some(5));
    assert_eq!(rt; segments.live(node, 1), 1);
    assert_eq!(rt; segments.header(anchor), None);
    segments.kill(at);
    assert_eq!(rt;
        segments.header(at),
        Some(Header {
            state: State::Dead,
            ..live(name, bunch, 1)
        })
    );
    assert_eq!(rt; segments.live(node, 1), 0);
    Ok(())
}

#[test]
fn a_forwarded_header_leads_on(rt: HostRuntime) -> Result<(), Fail> {
    let node = NodeNo::new(0).ok_or("node")?;
    let bunch = BunchNo::new(1).ok_or("bunch")?;
    let mut segments = Segments::new(rt.alloc(), node, 4096);
    let from = segments.place(bunch, 2)?;
    let to = segments.place(bunch, 2)?;
    let name = Name::new(node, 9).ok_or("name")?;
    assert_eq!(rt; segments.set_header(from, &live(name, bunch, 2)), Ok(()));
    assert_eq!(rt; segments.set_header(to, &live(name, bunch, 2)), Ok(()));
    let (Some(old), Some(new)) = (segments.header(from), segments.header(to)) else {
        return Err("headers".into());
    };
    if old.name == new.name {
        segments.forward(from, to);
    }
    let state = State::Forwarded { to };
    assert_eq!(rt;
        segments.header(from),
        Some(Header {
            state,
            ..live(name, bunch, 2)
        })
    );
    assert_eq!(rt; segments.header(to), Some(live(name, bunch, 2)));
    assert_eq!(rt; segments.name(from), Some(name));
    Ok(())
}

#[test]
fn headers_clash_where_they_can_not_stand(rt: HostRuntime) -> Result<(), Fail> {
    let node = NodeNo::new(0).ok_or("node")?;
    let home = NodeNo::new(1).ok_or("home")?;
    let bunch = BunchNo::new(2).ok_or("bunch")?;
    let name = Name::new(home, 1).ok_or("name")?;
    let other = Name::new(home, 2).ok_or("other")?;
    let mut segments = Segments::new(rt.alloc(), node, 4096);
    segments.map(Address::new(home, 3, 0).ok_or("address")?)?;
    segments.map(Address::new(node, 3, 0).ok_or("address")?)?;
    let steps = [
        // The home, the segment and the word; the size and whether it is the first name; what comes.
        ((home, 3, 10), (2, true), Ok(())),
        ((home, 3, 10), (2, true), Ok(())),
        ((home, 3, 10), (2, false), Err(Clash)),
        ((home, 3, 10), (3, true), Err(Clash)),
        ((home, 3, 7), (0, false), Err(Clash)),
        ((home, 3, 15), (0, false), Err(Clash)),
        ((home, 3, 6), (0, false), Ok(())),
        ((home, 3, 16), (0, false), Ok(())),
        ((home, 3, 1021), (0, false), Err(Clash)),
        ((home, 3, 1020), (0, false), Ok(())),
        ((home, 4, 0), (0, false), Err(Clash)),
        ((node, 3, 0), (0, false), Err(Clash)),
    ];
    for ((home, segment, word), (size, first), outcome) in steps {
        let at = Address::new(home, segment, word).ok_or("address")?;
        let header = live(if first { name } else { other }, bunch, size);
        if header.size <= 32 {
            assert_eq!(rt; segments.set_header(at, &header), outcome);
        }
    }
    assert_eq!(rt; segments.live(home, 3), 4);
    Ok(())
}

#[test]
fn a_segment_is_dropped_with_its_headers(rt: HostRuntime) -> Result<(), Fail> {
    let node = NodeNo::new(0).ok_or("node")?;
    let home = NodeNo::new(5).ok_or("home")?;
    let bunch = BunchNo::new(0).ok_or("bunch")?;
    let name = Name::new(home, 1).ok_or("name")?;
    let at = Address::new(home, 65535, 1000).ok_or("address")?;
    let mut segments = Segments::new(rt.alloc(), node, 4096);
    segments.reserve(1)?;
    segments.map(at)?;
    assert!(rt; segments.is_mapped(home, 65535));
    assert!(rt; !segments.is_mapped(home, 65534));
    assert_eq!(rt; segments.set_header(at, &live(name, bunch, 20)), Ok(()));
    segments.kill(at);
    let dead = segments.live(home, 65535) == 0;
    if dead && segments.is_mapped(home, 65535) && !segments.is_open(home, 65535) {
        segments.drop_segment(home, 65535);
    }
    assert!(rt; !segments.is_mapped(home, 65535));
    segments.map(at)?;
    assert_eq!(rt; segments.header(at), None);
    Ok(())
}

/// The home and the number of the i-th mapped segment, where there are so many.
fn told(segments: &Segments, i: u32) -> Option<(NodeNo, u32)> {
    if i >= segments.mapped() {
        return None;
    }
    Some(segments.mapped_at(i))
}

/// Drops a segment where nothing needs it.
fn drop_unneeded(segments: &mut Segments, home: NodeNo, number: u32) {
    let dead = segments.live(home, number) == 0;
    if dead && segments.is_mapped(home, number) && !segments.is_open(home, number) {
        segments.drop_segment(home, number);
    }
}

/// Three segments are mapped, and the last takes the place of the first where that is dropped.
#[test]
fn mapped_segments_are_told(rt: HostRuntime) -> Result<(), Fail> {
    let node = NodeNo::new(0).ok_or("node")?;
    let home = NodeNo::new(5).ok_or("home")?;
    let mut segments = Segments::new(rt.alloc(), node, 4096);
    for number in [7, 3, 9] {
        let at = Address::new(home, number, 0).ok_or("address")?;
        segments.map(at)?;
    }
    let before = (told(&segments, 0), told(&segments, 1), told(&segments, 2));
    drop_unneeded(&mut segments, home, 7);
    let after = (told(&segments, 0), told(&segments, 1), told(&segments, 2));
    assert_eq!(rt; before, (Some((home, 7)), Some((home, 3)), Some((home, 9))));
    assert_eq!(rt; after, (Some((home, 9)), Some((home, 3)), None));
    Ok(())
}

/// Places the k-th object and writes k into its last field.
fn fill(segments: &mut Segments, node: NodeNo, bunch: BunchNo, k: u64) -> Result<bool, Fail> {
    let at = segments.place(bunch, 32)?;
    let name = Name::new(node, k % (OBJECTS * MANY as u64) + 1).ok_or("name")?;
    let set = segments.set_header(at, &live(name, bunch, 32)).is_ok();
    Ok(set && write(segments, at, 31, Kind::Int, k))
}

/// Whether the k-th object stands where it was placed, with k in its last field.
fn keeps(segments: &Segments, node: NodeNo, bunch: BunchNo, k: u64) -> Result<bool, Fail> {
    let (segment, word) = (k / OBJECTS % MANY as u64 + 1, k % OBJECTS * 36);
    let at = Address::new(node, segment as u32, word as u32).ok_or("address")?;
    let name = Name::new(node, k % (OBJECTS * MANY as u64) + 1).ok_or("name")?;
    let state = State::Live {
        moves: 0,
        kinds: 1 << 62,
    };
    let header = Header {
        state,
        ..live(name, bunch, 32)
    };
    Ok(segments.header(at) == Some(header) && read(segments, at, 31) == Some(k))
}

#[test]
fn many_segments_keep_their_words(rt: HostRuntime) -> Result<(), Fail> {
    let node = NodeNo::new(7).ok_or("node")?;
    let bunch = BunchNo::new(3).ok_or("bunch")?;
    let mut segments = Segments::new(rt.alloc(), node, MANY);
    for k in 0..OBJECTS * MANY as u64 {
        assert!(rt; fill(&mut segments, node, bunch, k)?);
    }
    assert_eq!(rt; segments.place(bunch, 32), Err(PlaceError::Full));
    assert_eq!(rt; segments.made(), MANY);
    for k in 0..OBJECTS * MANY as u64 {
        assert!(rt; keeps(&segments, node, bunch, k)?);
    }
    Ok(())
}

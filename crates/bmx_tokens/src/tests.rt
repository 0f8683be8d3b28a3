//! Names as they are served, and an owner that hands over.
use crate::Tokens;
use bmx_token::{Acquire, Part, Release, Requested, Revoked, Served};
use bmx_types::{Mode, Name, NoMemory, NodeNo};
use std::alloc::Global;
use std::test::Fail;

// What these answer, None where the node doesn't know the name.
fn owns(alloc: Global, tokens: &mut Tokens, name: Name) -> Result<bool, NoMemory> {
    tokens.reserve(1)?;
    if tokens.get(name).is_some() {
        return Ok(false);
    }
    tokens.add(name, Part::owner(alloc));
    Ok(true)
}

fn request(tokens: &mut Tokens, name: Name, asker: NodeNo) -> Option<Result<Requested, NoMemory>> {
    tokens.get(name)?;
    Some(tokens.request(name, asker, Mode::Write))
}

fn read(tokens: &mut Tokens, name: Name) -> Option<Result<Acquire, NoMemory>> {
    tokens.get(name)?;
    Some(tokens.acquire(name, Mode::Read, true))
}

fn release(tokens: &mut Tokens, name: Name) -> Option<Result<Release, NoMemory>> {
    tokens.get(name)?;
    Some(tokens.release(name))
}

fn serve(tokens: &mut Tokens, name: Name) -> Option<Result<Served, NoMemory>> {
    tokens.get(name)?;
    Some(tokens.serve(name))
}

fn granted(tokens: &mut Tokens, name: Name, from: NodeNo) -> Option<Result<bool, NoMemory>> {
    tokens.get(name)?;
    Some(tokens.granted(name, from, Mode::Read))
}

fn inval(
    tokens: &mut Tokens,
    name: Name,
    from: NodeNo,
) -> Option<Result<Option<Revoked>, NoMemory>> {
    tokens.get(name)?;
    Some(tokens.inval(name, from, false))
}

fn ack(tokens: &mut Tokens, name: Name, from: NodeNo) -> Option<Result<bool, NoMemory>> {
    tokens.get(name)?;
    Some(tokens.ack(name, from))
}

// Node 0 owns 0.1 and 0.2: both are asked for, the earlier name comes first, and one that is held isn't served.
#[test]
fn names_are_served_in_rising_order(rt: HostRuntime) -> Result<(), Fail> {
    let alloc = rt.alloc();
    let me = NodeNo::new(0).ok_or("node 0")?;
    let other = NodeNo::new(1).ok_or("node 1")?;
    let first = Name::new(me, 1).ok_or("0.1")?;
    let second = Name::new(me, 2).ok_or("0.2")?;
    let mut tokens = Tokens::new(alloc, me);
    let owned = (
        owns(alloc, &mut tokens, second),
        owns(alloc, &mut tokens, first),
    );
    let asked = request(&mut tokens, second, other);
    let asked_too = request(&mut tokens, first, other);
    let both = (tokens.serves(0), tokens.serves(1));
    let held = read(&mut tokens, first);
    let one = (tokens.serves(0), tokens.serves(1));
    let free = release(&mut tokens, first);
    let again = tokens.serves(0);
    assert_eq!(rt; owned, (Ok(true), Ok(true)));
    assert_eq!(rt;
        (asked, asked_too),
        (Some(Ok(Requested::Queued)), Some(Ok(Requested::Queued)))
    );
    assert_eq!(rt; both, (Some(first), Some(second)));
    assert_eq!(rt; held, Some(Ok(Acquire::Held)));
    assert_eq!(rt; one, (Some(second), None));
    assert_eq!(rt; free, Some(Ok(Release::Free)));
    assert_eq!(rt; again, Some(first));
    Ok(())
}

// An owner has no use for a grant, an invalidation or an acknowledgement; it hands ownership over once it is asked.
#[test]
fn an_owner_hands_over(rt: HostRuntime) -> Result<(), Fail> {
    let alloc = rt.alloc();
    let me = NodeNo::new(0).ok_or("node 0")?;
    let other = NodeNo::new(1).ok_or("node 1")?;
    let name = Name::new(me, 1).ok_or("0.1")?;
    let mut tokens = Tokens::new(alloc, me);
    let owned = owns(alloc, &mut tokens, name);
    let strays = (
        granted(&mut tokens, name, other),
        ack(&mut tokens, name, other),
    );
    let invalidated = inval(&mut tokens, name, other);
    let asked = request(&mut tokens, name, other);
    let moved = matches!(serve(&mut tokens, name), Some(Ok(Served::Moves { .. })));
    let left = tokens.serves(0);
    let listed = match tokens.names(alloc) {
        Ok(names) => names.len(),
        Err(NoMemory) => 0,
    };
    assert_eq!(rt; owned, Ok(true));
    assert_eq!(rt; strays, (Some(Ok(false)), Some(Ok(false))));
    assert_eq!(rt; invalidated, Some(Ok(None)));
    assert_eq!(rt; asked, Some(Ok(Requested::Queued)));
    assert!(rt; moved);
    assert_eq!(rt; left, None);
    assert_eq!(rt; listed, 1);
    Ok(())
}

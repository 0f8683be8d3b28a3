//! Lanes that keep their own order, and go on for long.
use crate::Lanes;
use bmx_types::{NoMemory, NodeNo};
use std::test::Fail;

// Two lanes, each in its own order, and the other direction has nothing.
#[test]
fn lanes_keep_their_own_order(rt: HostRuntime) -> Result<(), Fail> {
    let a = NodeNo::new(0).ok_or("node 0")?;
    let b = NodeNo::new(7).ok_or("node 7")?;
    let mut lanes: Lanes<u64> = Lanes::new(rt.alloc()).ok().ok_or("memory")?;
    let pushed = (
        lanes.push(a, b, 1),
        lanes.push(b, b, 10),
        lanes.push(a, b, 2),
        lanes.push(b, b, 20),
    );
    let firsts = (lanes.first(a, b), lanes.first(b, b), lanes.first(b, a));
    let senders = (lanes.senders(a), lanes.senders(b));
    let taken = (lanes.pop(a, b), lanes.pop(a, b), lanes.pop(a, b));
    let fewer = (lanes.senders(b), lanes.pop(b, b), lanes.first(b, b));
    assert_eq!(rt; pushed, (Ok(()), Ok(()), Ok(()), Ok(())));
    assert_eq!(rt; firsts, (Some(1), Some(10), None));
    assert_eq!(rt; senders, (0, 2));
    assert_eq!(rt; taken, (Some(1), Some(2), None));
    assert_eq!(rt; fewer, (1, Some(10), Some(20)));
    Ok(())
}

// Each item goes in and the one before it comes out, so many times that the queue goes round often.
fn pass(lanes: &mut Lanes<u64>, from: NodeNo, to: NodeNo, count: u64) -> Result<u64, NoMemory> {
    let mut in_order = 0;
    lanes.push(from, to, 0)?;
    for i in 0..count {
        lanes.push(from, to, i.wrapping_add(1))?;
        if lanes.pop(from, to) == Some(i) {
            in_order = i.wrapping_add(1);
        }
    }
    Ok(in_order)
}

#[test]
fn a_lane_goes_on(rt: HostRuntime) -> Result<(), Fail> {
    let a = NodeNo::new(3).ok_or("node 3")?;
    let b = NodeNo::new(4).ok_or("node 4")?;
    let mut lanes: Lanes<u64> = Lanes::new(rt.alloc()).ok().ok_or("memory")?;
    let passed = pass(&mut lanes, a, b, 1000);
    let senders = lanes.senders(b);
    let last = (lanes.pop(a, b), lanes.pop(a, b));
    let none = lanes.senders(b);
    assert_eq!(rt; passed, Ok(1000));
    assert_eq!(rt; senders, 1);
    assert_eq!(rt; last, (Some(1000), None));
    assert_eq!(rt; none, 0);
    Ok(())
}

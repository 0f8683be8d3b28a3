//! The token of one object at one node: many nodes may read it, or one may write it. One node owns it
//! and keeps the readers and the queue of those who ask; the others know a node to ask. Each call is
//! one case of the node's step, and knows nothing of addresses, fields and letters' numbers.
#![tactic(auto)]

mod answers;
mod laws;
mod nodes;
mod parts;

pub use answers::{Acquire, Release, Requested, Revoked, Served, Service};
pub use laws::keeps_order;
pub use parts::{Ask, Part, Queue, Role};

#[cfg(test)]
mod tests {
    use crate::{Acquire, Ask, Part, Release, Requested, Revoked, Served};
    use bmx_types::{Mode, NodeNo};
    use std::test::Fail;

    // Node 1 asks node 0 for a read, waits, is granted and holds.
    #[test]
    fn a_child_reads(rt: HostRuntime) -> Result<(), Fail> {
        let owner = NodeNo::new(0).ok_or("node 0")?;
        let me = NodeNo::new(1).ok_or("node 1")?;
        let mut part = Part::child(rt.alloc(), owner);
        assert_eq!(rt; part.acquire(me, Mode::Read, false)?, Acquire::Asks(owner));
        assert_eq!(rt; part.acquire(me, Mode::Read, false)?, Acquire::Waits);
        assert!(rt; part.granted(owner, Mode::Read));
        assert_eq!(rt; part.acquire(me, Mode::Read, true)?, Acquire::Held);
        assert_eq!(rt; part.inval(owner, true), Some(Revoked::AtRelease));
        assert_eq!(rt; part.release(), Release::Answers(owner));
        Ok(())
    }

    // Nodes 2 and 1 read what node 0 owns; its own write waits for both, and node 3's for its release.
    #[test]
    fn an_owner_serves_its_queue(rt: HostRuntime) -> Result<(), Fail> {
        let me = NodeNo::new(0).ok_or("node 0")?;
        let one = NodeNo::new(1).ok_or("node 1")?;
        let two = NodeNo::new(2).ok_or("node 2")?;
        let three = NodeNo::new(3).ok_or("node 3")?;
        let mut part = Part::owner(rt.alloc());
        assert_eq!(rt; part.request(me, two, Mode::Read)?, Requested::Queued);
        assert_eq!(rt; part.request(me, one, Mode::Read)?, Requested::Queued);
        assert!(rt; matches!(part.serve(me)?, Served::Read(_)));
        assert!(rt; matches!(part.serve(me)?, Served::Read(_)));
        assert_eq!(rt; part.acquire(me, Mode::Write, true)?, Acquire::Waits);
        let Served::Revokes(told) = part.serve(me)? else {
            return Err("readers are told".into());
        };
        assert_eq!(rt; told.as_slice(), [one, two].as_slice());
        assert_eq!(rt; part.request(me, three, Mode::Write)?, Requested::Queued);
        assert_eq!(rt; part.request(me, one, Mode::Read)?, Requested::Queued);
        assert!(rt; part.ack(one));
        assert!(rt; matches!(part.serve(me)?, Served::Idle));
        assert!(rt; part.ack(two));
        assert!(rt; matches!(part.serve(me)?, Served::Ready));
        assert_eq!(rt; part.acquire(me, Mode::Write, true)?, Acquire::Held);
        assert!(rt; matches!(part.serve(me)?, Served::Idle));
        assert_eq!(rt; part.release(), Release::Free);
        let Served::Moves { to, rest } = part.serve(me)? else {
            return Err("ownership moves".into());
        };
        assert_eq!(rt; to, three);
        let asked = Ask {
            asker: one,
            mode: Mode::Read,
        };
        assert_eq!(rt; rest.as_slice(), [asked].as_slice());
        Ok(())
    }
}

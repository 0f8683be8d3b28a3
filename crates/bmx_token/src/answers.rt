//! What calls on a token answer, as data.
use crate::parts::Queue;
use bmx_types::{NodeNo, NodeNos};

/// What acquiring a token answers.
#[derive(Clone, Copy, Debug, PartialEq, Eq)]
pub enum Acquire {
    /// The token is held from now on.
    Held,
    /// The token is wanted from now on; that node is to be asked for it.
    Asks(NodeNo),
    /// The token is wanted and isn't ready yet.
    Waits,
    /// A token is held, or one of the other mode is wanted. Nothing has changed.
    Refused,
}

/// What releasing a token answers.
#[derive(Clone, Copy, Debug, PartialEq, Eq)]
pub enum Release {
    /// The token isn't held any more.
    Free,
    /// The same, and the copy is to be given up and that owner to be told.
    Answers(NodeNo),
    /// No token is held. Nothing has changed.
    Refused,
}

/// What serving the queue of an owner answers.
#[derive(Debug, Drop)]
pub enum Served {
    /// There is no head, or it can't be served yet. Nothing has changed.
    Idle,
    /// The owner's own write is ready.
    Ready,
    /// That node reads from now on, and is to be granted the read.
    Read(NodeNo),
    /// These readers, in rising order, are to be told to give up their copies.
    Revokes(NodeNos),
    /// Ownership moves: that node is to be granted the write, and then to be sent the other requests of
    /// the queue, the earliest first.
    Moves { to: NodeNo, rest: Queue },
}

/// What serving the queue of an owner would lead to, told before it is done.
#[derive(Clone, Copy, Debug, PartialEq, Eq)]
pub enum Service {
    /// Nothing: there is no head, or it can't be served yet.
    Idle,
    /// The owner's own write would be ready.
    Ready,
    /// That node would be granted a read.
    Read(NodeNo),
    /// All readers would be told to give up their copies.
    Revokes,
    /// Ownership would move to that node.
    Moves(NodeNo),
}

/// What a request that came by letter leads to.
#[derive(Clone, Copy, Debug, PartialEq, Eq)]
pub enum Requested {
    /// It stands last in the owner's queue.
    Queued,
    /// It is to be sent on to that node.
    Forward(NodeNo),
    /// It asks the owner for what is its own. Nothing has changed.
    Stray,
}

/// When a copy is given up after an invalidation.
#[derive(Clone, Copy, Debug, PartialEq, Eq)]
pub enum Revoked {
    /// Now, and the sender is to be told.
    Now,
    /// When the token that is held or ready is released.
    AtRelease,
}

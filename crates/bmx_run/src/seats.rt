//! What each node has to do in a phase. It knows nothing of nodes and letters.
ghost use Rattle.std.specs.Prelude.{◌≡◌, ◌+◌, ◌<◌, ◌∷◌, ◌++◌, [], length, slice_get, false, option_copied, OnOk, OnErr};
ghost use Rattle.bmx_protocol.specs.Histories.{is_wait};
ghost use Rattle.bmx_run.specs.Inside.Seats.{SeatAfter};

use bmx_protocol::NodeAnswer;
use bmx_types::{Command, NoMemory, NodeNo};
use std::alloc::Global;
use std::marker::Model;

/// A command of a node's program, and the line of the script that gives it.
#[derive(Clone, Copy, Debug)]
pub(crate) struct Order {
    pub(crate) node: NodeNo,
    pub(crate) line: u32,
    pub(crate) command: Command,
}

impl Model for Order {
    ghost use Rattle.bmx_protocol.specs.Runs.Programs.{Order as OrderOf};

    ghost Value = { OrderOf };

    ghost view = { λ g. record { node = g.node; line = g.line; command = g.command } };

    ghost inverse = { λ g. record { node = g.node; line = g.line; command = g.command } };
}

/// A node's program in a phase, and how far it has come.
#[derive(Drop)]
pub(crate) struct Seat {
    pub(crate) orders: Vec<Order>,
    /// How many of its commands are completed.
    pub(crate) completed: usize,
    /// Whether the next one waits: it was tried, and is to be given again.
    pub(crate) waits: bool,
}

impl Seat {
    /// No command. Takes no memory.
    pub(crate) fn new(alloc: Global) -> Seat
        ensures orders { result.orders.items ≡ [] }
        ensures completed { result.completed ≡ 0 }
        ensures waits { result.waits ≡ false }
    {
        Seat {
            orders: Vec::new(alloc),
            completed: 0,
            waits: false,
        }
    }

    /// The next command, None where all are completed.
    pub(crate) fn next(&self) -> Option<&Order>
        ensures { option_copied result ≡ slice_get self.now.orders.items self.now.completed }
    {
        self.orders.get(self.completed)
    }

    /// Adds a command at the end of the program.
    pub(crate) fn give(&mut self, order: Order) -> Result<(), NoMemory>
        ensures ok { OnOk result (self.new.orders.items ≡ self.old.orders.items ++ order ∷ []) }
        ensures err { OnErr result (self.new.orders.items ≡ self.old.orders.items) }
        ensures completed { self.new.completed ≡ self.old.completed }
        ensures waits { self.new.waits ≡ self.old.waits }
    {
        self.orders.push(order)?;
        Ok(())
    }

    /// The next command is completed.
    pub(crate) fn complete(&mut self)
        requires { self.old.completed < length self.old.orders.items }
        ensures orders { self.new.orders ≡ self.old.orders }
        ensures completed { self.new.completed ≡ self.old.completed + 1 }
        ensures waits { self.new.waits ≡ false }
    {
        self.completed += 1;
        self.waits = false;
    }

    /// The next command was tried: it waits, or is completed.
    pub(crate) fn answered(&mut self, answer: &NodeAnswer)
        requires { self.old.completed < length self.old.orders.items }
        ensures { SeatAfter (is_wait answer.now) self.old self.new }
    {
        match answer {
            NodeAnswer::Wait => self.waits = true,
            _ => self.complete(),
        }
    }

    /// A new phase begins, in which no command is given yet.
    pub(crate) fn clear(&mut self)
        ensures orders { self.new.orders.items ≡ [] }
        ensures completed { self.new.completed ≡ 0 }
        ensures waits { self.new.waits ≡ false }
    {
        self.orders.clear();
        self.completed = 0;
        self.waits = false;
    }
}

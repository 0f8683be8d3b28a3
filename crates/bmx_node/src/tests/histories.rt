//! Histories of stores of two to four nodes, event by event, and what each node has after them, as a model of the
//! rules has them.

ghost use Rattle.std.specs.Prelude.{◌<◌, ◌≤◌, length, IfSome};
ghost use Rattle.bmx_node.specs.Seen.{FitsOperand, FitsCommand, FitsInput};

use super::words::{shown, told};
use super::{anchor, one_bunch, step};
use crate::Node;
use Given::{Add, Done, Get, New, Read, Refer, Serve, Set, Show, Take, Write};
use On::{Held, Root};
use bmx_msg::Letter;
use bmx_protocol::{Input, Sending, Sent};
use bmx_types::{BunchNo, Command, Items, Name, NoMemory, NodeNo, Operand};
use std::alloc::Global;
use std::process::Abort;
use std::test::Fail;

/// What a command is about: the anchor, or what register 0 refers to.
#[derive(Clone, Copy)]
enum On {
    Root,
    Held,
}

/// What a node is given in a step. Commands are about register 0 and first fields, and names are node 0's. `Take` hands
/// the node the first letter on its way from another.
#[derive(Clone, Copy)]
enum Given {
    New,
    Read(On),
    Write(On),
    Done(On),
    Set(i64),
    Refer,
    Get,
    Show(On),
    Add,
    Serve(u64),
    Take(u8),
}

/// A step: the node, what it is given, and what that comes to, in words.
#[derive(Clone, Copy)]
struct Event(u8, Given, &'static str);

/// A letter on its way.
#[derive(Drop)]
struct Flight {
    from: u8,
    sending: Sending,
}

/// Nodes, and the letters on their way in the order in which they were issued.
#[derive(Drop)]
struct Store {
    nodes: Vec<Node>,
    flights: Items<Flight>,
}

impl Store {
    /// A store of so many nodes as it opens.
    fn open(alloc: Global, nodes: u8) -> Result<Store, NoMemory>
        requires { nodes ≤ 8 }
    {
        let mut opened = Vec::new(alloc);
        for me in 0..nodes {
            let node = NodeNo::new(me).unwrap();
            opened.push(Node::open(alloc, node, &one_bunch(alloc, nodes)?)?)?;
        }
        Ok(Store {
            nodes: opened,
            flights: Items::new(alloc),
        })
    }

    /// What a step comes to, in words. Its letters are on their way from then on.
    fn step(&mut self, rt: &impl Abort, alloc: Global, event: &Event) -> Result<String, Fail> {
        let Event(me, given, _) = *event;
        let input = self.input(me, given).ok_or("an input")?;
        let node = self.nodes.get_mut(me as usize).ok_or("a node")?;
        let done = step(rt, 1, node, &input)?;
        let text = told(alloc, node.stamp(), &done)?;
        self.send(me, done.letters)?;
        Ok(text)
    }

    /// The input that a node is handed.
    fn input(&mut self, me: u8, given: Given) -> Option<Input>
        ensures { IfSome result (λ input. FitsInput 1 input) }
    {
        match given {
            Serve(name) => Some(Input::Serve(Name::from_word(name)?)),
            Take(from) => self.next(NodeNo::new(from)?, me),
            given => Some(Input::Do(command(given)?)),
        }
    }

    /// The first letter that is on its way from a node to another, which is so no more.
    fn next(&mut self, from: NodeNo, to: u8) -> Option<Input>
        ensures { IfSome result (λ input. FitsInput 1 input) }
    {
        let i = self.find(from.get(), to)?;
        let Flight { sending, .. } = self.flights.remove(i);
        let letter = sending.letter;
        Some(Input::Take { from, letter })
    }

    fn find(&self, from: u8, to: u8) -> Option<usize>
        ensures { IfSome result (λ i. i < length self.now.flights) }
    {
        for i in 0..self.flights.len() {
            let flight = self.flights.at(i);
            if flight.from == from && flight.sending.to.get() == to {
                return Some(i);
            }
        }
        None
    }

    fn send(&mut self, from: u8, letters: Sent) -> Result<(), NoMemory> {
        for sending in letters.into_vec() {
            self.flights.push(Flight { from, sending })?;
        }
        Ok(())
    }
}

fn operand(on: On) -> Operand
    ensures { FitsOperand 1 result }
{
    match on {
        Root => anchor(),
        Held => Operand::Register(0),
    }
}

fn command(given: Given) -> Option<Command>
    ensures { IfSome result (λ c. FitsCommand 1 c) }
{
    match given {
        New => Some(made()),
        Read(on) => Some(Command::Read { on: operand(on) }),
        Write(on) => Some(Command::Write { on: operand(on) }),
        Done(on) => Some(Command::Done { on: operand(on) }),
        Set(k) => Some(set(Held, Operand::Int(k))),
        Refer => Some(set(Root, operand(Held))),
        Get => Some(Command::Get {
            register: 0,
            on: operand(Root),
            index: 0,
        }),
        Show(on) => Some(Command::Show {
            on: operand(on),
            index: 0,
        }),
        Add => Some(Command::Add {
            on: operand(Held),
            index: 0,
            by: 1,
        }),
        Serve(_) | Take(_) => None,
    }
}

fn made() -> Command
    ensures { FitsCommand 1 result }
{
    Command::New {
        register: 0,
        bunch: BunchNo::new(0).unwrap(),
        size: 1,
    }
}

fn set(on: On, value: Operand) -> Command
    requires { FitsOperand 1 value }
    ensures { FitsCommand 1 result }
{
    Command::Set {
        on: operand(on),
        index: 0,
        value,
    }
}

/// The history that begins with `MADE` comes out event by event as the table says, and leaves the nodes with that.
fn replays(rt: &impl Abort, alloc: Global, history: &[Event], end: &[&str]) -> Result<(), Fail>
    requires { length end.now ≤ 8 }
{
    let mut store = Store::open(alloc, end.len() as u8)?;
    for event in MADE.iter().chain(history) {
        let text = store.step(rt, alloc, event)?;
        assert_eq!(rt; text.as_str(), event.2);
    }
    for (node, has) in store.nodes.iter().zip(end) {
        let text = shown(alloc, node)?;
        assert_eq!(rt; text.as_str(), *has);
    }
    Ok(())
}

/// Node 0 makes an object with 42, to which the anchor refers.
const MADE: [Event; 7] = [
    Event(0, New, "1"),
    Event(0, Write(Held), "2"),
    Event(0, Set(42), "3"),
    Event(0, Done(Held), "4"),
    Event(0, Write(Root), "5"),
    Event(0, Refer, "6"),
    Event(0, Done(Root), "7"),
];

/// Node 1 reads both.
const ONE_READER: [Event; 15] = [
    Event(1, Read(Root), "1 Wait -> 0 #1 reads 1 1"),
    Event(0, Take(1), "8"),
    Event(0, Serve(1), "9 -> 1 #1 read 1 0 32 0/1/0 0, 2 0 1 0/1/36 0"),
    Event(1, Take(0), "10"),
    Event(1, Read(Root), "11"),
    Event(1, Get, "12 ref 2"),
    Event(1, Show(Root), "13 ref 2"),
    Event(1, Done(Root), "14"),
    Event(1, Read(Held), "15 Wait -> 0 #2 reads 2 1"),
    Event(0, Take(1), "16"),
    Event(0, Serve(2), "17 -> 1 #2 read 2 0 1 0/1/36 0, int 42"),
    Event(1, Take(0), "18"),
    Event(1, Read(Held), "19"),
    Event(1, Show(Held), "20 int 42"),
    Event(1, Done(Held), "21"),
];

/// What each node has after it.
const ONE_READER_END: [&str; 2] = [
    "11 2 [0, 2] [0, 2] ref 2\n \
     1 0 32 0/1/0 0: owner ref 2 reader 1\n \
     2 0 1 0/1/36 0: owner int 42 reader 1\n \
     1 from 1: 1 0\n \
     2 from 1: 2 0",
    "11 0 [2, 0] [2, 0] ref 2\n \
     1 0 32 0/1/0 0: asks 0 ref 2\n \
     2 0 1 0/1/36 0: asks 0 int 42",
];

/// Node 1 reads the anchor, node 0 takes it back and node 1 the other object, and each asks for the other.
const CROSSED: [Event; 22] = [
    Event(1, Read(Root), "1 Wait -> 0 #1 reads 1 1"),
    Event(0, Take(1), "8"),
    Event(0, Serve(1), "9 -> 1 #1 read 1 0 32 0/1/0 0, 2 0 1 0/1/36 0"),
    Event(1, Take(0), "10"),
    Event(1, Read(Root), "11"),
    Event(1, Get, "12 ref 2"),
    Event(1, Done(Root), "13"),
    Event(0, Write(Root), "10 Wait"),
    Event(0, Serve(1), "11 -> 1 #2 recall 1"),
    Event(1, Take(0), "14 -> 0 #2 return 1"),
    Event(0, Take(1), "15"),
    Event(0, Serve(1), "16"),
    Event(0, Write(Root), "17"),
    Event(1, Write(Held), "15 Wait -> 0 #3 writes 2 1"),
    Event(0, Take(1), "18"),
    Event(0, Serve(2), "19 -> 1 #3 write 2 0 1 0/1/36 0, int 42"),
    Event(1, Take(0), "20"),
    Event(1, Write(Held), "21"),
    Event(0, Write(Held), "20 Wait -> 1 #4 writes 2 0"),
    Event(1, Take(0), "22"),
    Event(1, Write(Root), "23 Wait -> 0 #4 writes 1 1"),
    Event(0, Take(1), "24"),
];

/// What each node has after it.
const CROSSED_END: [&str; 2] = [
    "18 2 [0, 4] [0, 4] ref 2\n \
     1 0 32 0/1/0 0: owner ref 2 held Write asked 1 Write\n \
     2 0 1 0/1/36 0: asks 1 wants Write\n \
     1 from 1: 1 0\n \
     2 from 1: 1 0",
    "11 0 [4, 0] [4, 0] ref 2\n \
     1 0 32 0/1/0 0: asks 0 wants Write\n \
     2 0 1 0/1/36 0: owner int 42 held Write asked 0 Write\n \
     2 from 0: 0 3",
];

/// Nodes 2 and 3 read both objects, node 1 writes 43 to the second, node 0 adds 1, and the readers read again.
const TWO_READERS: [Event; 68] = [
    Event(2, Read(Root), "1 Wait -> 0 #1 reads 1 2"),
    Event(0, Take(2), "8"),
    Event(0, Serve(1), "9 -> 2 #1 read 1 0 32 0/1/0 0, 2 0 1 0/1/36 0"),
    Event(2, Take(0), "10"),
    Event(2, Read(Root), "11"),
    Event(2, Get, "12 ref 2"),
    Event(2, Done(Root), "13"),
    Event(2, Read(Held), "14 Wait -> 0 #2 reads 2 2"),
    Event(0, Take(2), "15"),
    Event(0, Serve(2), "16 -> 2 #2 read 2 0 1 0/1/36 0, int 42"),
    Event(2, Take(0), "17"),
    Event(2, Read(Held), "18"),
    Event(2, Show(Held), "19 int 42"),
    Event(2, Done(Held), "20"),
    Event(3, Read(Root), "1 Wait -> 0 #1 reads 1 3"),
    Event(0, Take(3), "17"),
    Event(
        0,
        Serve(1),
        "18 -> 3 #1 read 1 0 32 0/1/0 0, 2 0 1 0/1/36 0",
    ),
    Event(3, Take(0), "19"),
    Event(3, Read(Root), "20"),
    Event(3, Get, "21 ref 2"),
    Event(3, Done(Root), "22"),
    Event(3, Read(Held), "23 Wait -> 0 #2 reads 2 3"),
    Event(0, Take(3), "24"),
    Event(0, Serve(2), "25 -> 3 #2 read 2 0 1 0/1/36 0, int 42"),
    Event(3, Take(0), "26"),
    Event(3, Read(Held), "27"),
    Event(3, Show(Held), "28 int 42"),
    Event(3, Done(Held), "29"),
    Event(1, Read(Root), "1 Wait -> 0 #1 reads 1 1"),
    Event(0, Take(1), "26"),
    Event(
        0,
        Serve(1),
        "27 -> 1 #1 read 1 0 32 0/1/0 0, 2 0 1 0/1/36 0",
    ),
    Event(1, Take(0), "28"),
    Event(1, Read(Root), "29"),
    Event(1, Get, "30 ref 2"),
    Event(1, Done(Root), "31"),
    Event(1, Write(Held), "32 Wait -> 0 #2 writes 2 1"),
    Event(0, Take(1), "33"),
    Event(0, Serve(2), "34 -> 2 #3 recall 2 -> 3 #3 recall 2"),
    Event(2, Take(0), "35 -> 0 #3 return 2"),
    Event(0, Take(2), "36"),
    Event(3, Take(0), "35 -> 0 #3 return 2"),
    Event(0, Take(3), "37"),
    Event(0, Serve(2), "38 -> 1 #2 write 2 0 1 0/1/36 0, int 42"),
    Event(1, Take(0), "39"),
    Event(1, Write(Held), "40"),
    Event(1, Set(43), "41"),
    Event(1, Done(Held), "42"),
    Event(0, Write(Held), "39 Wait -> 1 #3 writes 2 0"),
    Event(1, Take(0), "43"),
    Event(1, Serve(2), "44 -> 0 #3 write 2 0 1 0/1/36 0, int 43"),
    Event(0, Take(1), "45"),
    Event(0, Write(Held), "46"),
    Event(0, Add, "47"),
    Event(0, Done(Held), "48"),
    Event(2, Read(Held), "36 Wait -> 0 #4 reads 2 2"),
    Event(0, Take(2), "49"),
    Event(0, Serve(2), "50 -> 2 #4 read 2 0 1 0/1/36 0, int 44"),
    Event(2, Take(0), "51"),
    Event(2, Read(Held), "52"),
    Event(2, Show(Held), "53 int 44"),
    Event(2, Done(Held), "54"),
    Event(3, Read(Held), "36 Wait -> 0 #4 reads 2 3"),
    Event(0, Take(3), "51"),
    Event(0, Serve(2), "52 -> 3 #4 read 2 0 1 0/1/36 0, int 44"),
    Event(3, Take(0), "53"),
    Event(3, Read(Held), "54"),
    Event(3, Show(Held), "55 int 44"),
    Event(3, Done(Held), "56"),
];

/// What each node has after it.
const TWO_READERS_END: [&str; 4] = [
    "31 2 [0, 3, 4, 4] [0, 3, 4, 4] ref 2\n \
     1 0 32 0/1/0 0: owner ref 2 reader 1 reader 2 reader 3\n \
     2 0 1 0/1/36 0: owner int 44 reader 2 reader 3\n \
     1 from 1: 1 0\n \
     1 from 2: 1 0\n \
     1 from 3: 1 0\n \
     2 from 1: 1 3\n \
     2 from 2: 4 0\n \
     2 from 3: 4 0",
    "12 0 [3, 0, 0, 0] [3, 0, 0, 0] ref 2\n \
     1 0 32 0/1/0 0: asks 0 ref 2\n \
     2 0 1 0/1/36 0: asks 0\n \
     2 from 0: 0 2",
    "16 0 [4, 0, 0, 0] [4, 0, 0, 0] ref 2\n \
     1 0 32 0/1/0 0: asks 0 ref 2\n \
     2 0 1 0/1/36 0: asks 0 int 44",
    "16 0 [4, 0, 0, 0] [4, 0, 0, 0] ref 2\n \
     1 0 32 0/1/0 0: asks 0 ref 2\n \
     2 0 1 0/1/36 0: asks 0 int 44",
];

#[test]
fn one_reader(rt: HostRuntime) -> Result<(), Fail> {
    replays(&rt, rt.alloc(), &ONE_READER, &ONE_READER_END)
}

#[test]
fn crossed_writers(rt: HostRuntime) -> Result<(), Fail> {
    replays(&rt, rt.alloc(), &CROSSED, &CROSSED_END)
}

#[test]
fn two_readers_one_writer(rt: HostRuntime) -> Result<(), Fail> {
    replays(&rt, rt.alloc(), &TWO_READERS, &TWO_READERS_END)
}

//! Letters that no node of a store sends, one for each way to be stray, and letters that are legal only just.

ghost use Rattle.std.specs.Prelude.{◌<◌, IfOk};
ghost use Rattle.bmx_node.specs.Seen.{FitsInput};

use super::{anchor, step, two_bunches};
use crate::Node;
use bmx_msg::{Field, Fields, Letter, Msg};
use bmx_protocol::{Input, NodeAnswer};
use bmx_segment::{Segments, State};
use bmx_types::{Address, BunchNo, Command, Info, Items, Name, NoMemory, NodeNo, Place};
use std::alloc::{AllocError, Global};
use std::process::Abort;
use std::test::Fail;

/// What the numbers of a letter are: who sends it, its number and its stamp; whether it grants a read (0) or a write (1),
/// asks to write (2), recalls (3) or returns (4); who asks, and how many fields are granted. Then what it tells of its
/// object: the maker and the number there, the bunch, the size, and the home, the word and the moves of its place, in
/// segment 1; and the same of the objects to which the first two fields refer. The second field is null where that
/// object's number is 0, as all others are.
const NUMBERS: [&str; 27] = [
    "from", "seq", "stamp", "kind", "asker", "fields", "maker", "count", "bunch", "size", "home",
    "word", "moves", "maker1", "count1", "bunch1", "size1", "home1", "word1", "moves1", "maker2",
    "count2", "bunch2", "size2", "home2", "word2", "moves2",
];

/// The first letter of node 0 to node 1: a grant of a read of the anchor, which refers to an object behind it.
const FAIR: [u64; 27] = [
    0, 1, 9, 0, 0, 32, 0, 1, 0, 32, 0, 0, 0, 0, 3, 0, 1, 0, 36, 0, 0, 0, 0, 1, 0, 36, 0,
];

/// Which numbers of a letter are others than in that one.
type Edits = &'static [(&'static str, u64)];

/// What no node sends to node 1, which waits to read the anchor: that by which it is stray by itself, then what clashes
/// with that anchor in words 0 to 35 or with the first field, and then what doesn't fit the tokens.
const AT_A_READER: [Edits; 37] = [
    &[("from", 1)],
    &[("from", 5)],
    &[("seq", 0)],
    &[("seq", 2)],
    &[("stamp", 1 << 62)],
    &[("maker", 5)],
    &[("moves", 1 << 62)],
    &[("size", 33), ("fields", 33)],
    &[("fields", 31)],
    &[("fields", 33)],
    &[("maker1", 5)],
    &[("maker1", 1), ("count1", 1)],
    &[("bunch1", 2)],
    &[("size1", 33)],
    &[("home1", 5)],
    &[("moves1", 1 << 62)],
    &[("count2", 3), ("bunch2", 2)],
    &[("kind", 2), ("asker", 5)],
    &[("kind", 2), ("maker", 5)],
    &[("kind", 2), ("maker", 1)],
    &[("bunch", 1)],
    &[("size", 31), ("fields", 31)],
    &[("moves", 1)],
    &[("moves", 1), ("word", 35)],
    &[("count1", 1)],
    &[("word1", 35)],
    &[("word1", 0)],
    &[("word1", 1020)],
    &[("home1", 1), ("word1", 0)],
    &[("count2", 4)],
    &[("count2", 4), ("word2", 40)],
    &[("count2", 3), ("size2", 2)],
    &[("count", 3), ("size", 1), ("word", 36), ("fields", 1)],
    &[("kind", 1)],
    &[("kind", 2), ("count", 3)],
    &[("kind", 4)],
    &[("kind", 4), ("count", 3)],
];

/// What node 1 doesn't send to node 0, which owns the anchors, made no other name and waits for nobody.
const AT_AN_OWNER: [Edits; 6] = [
    &[("from", 1)],
    &[("from", 1), ("kind", 2)],
    &[("from", 1), ("kind", 2), ("count", 3), ("asker", 1)],
    &[("from", 1), ("kind", 3)],
    &[("from", 1), ("kind", 3), ("count", 3)],
    &[("from", 1), ("kind", 4)],
];

/// What node 0 may send to node 1 just so.
const LEGAL: [Edits; 7] = [
    &[("stamp", (1 << 62) - 1)],
    &[("word", 100), ("moves", 1)],
    &[("word", 7)],
    &[("moves1", (1 << 62) - 1)],
    &[("word1", 1019)],
    &[("size1", 32)],
    &[("count2", 4), ("word2", 41)],
];

/// What a node is given in a step. `Read` is of the anchor of bunch 0.
#[derive(Clone, Copy)]
enum Given {
    Read,
    Take(Edits),
    Serve(u64),
}

/// A step: what a node is given, what it answers, and with how many letters.
#[derive(Clone, Copy)]
struct Step(Given, NodeAnswer, usize);

/// Node 1 asks node 0 to read.
const READS: Step = Step(Given::Read, NodeAnswer::Wait, 1);

/// Node 1 takes the grant.
const GRANTED: Step = Step(Given::Take(&[]), NodeAnswer::Nil, 0);

/// Node 0 takes a request of node 1.
const ASKED: Step = Step(
    Given::Take(&[("from", 1), ("kind", 2), ("asker", 1)]),
    NodeAnswer::Nil,
    0,
);

/// Node 1 hasn't a copy of the object that it is to give up, and says so at once.
const UNKNOWN: Step = Step(
    Given::Take(&[("kind", 3), ("count", 3)]),
    NodeAnswer::Nil,
    1,
);

/// A grant comes twice, and so does the recall of the copy that is held.
const AGAIN: [Step; 6] = [
    READS,
    GRANTED,
    Step(Given::Take(&[("seq", 2)]), NodeAnswer::Stray, 0),
    Step(Given::Read, NodeAnswer::Nil, 0),
    Step(Given::Take(&[("seq", 2), ("kind", 3)]), NodeAnswer::Nil, 0),
    Step(
        Given::Take(&[("seq", 3), ("kind", 3)]),
        NodeAnswer::Stray,
        0,
    ),
];

/// The second letter of node 1 comes before the first, and nothing can be served.
const OUT_OF_TURN: [Step; 2] = [
    Step(
        Given::Take(&[("from", 1), ("seq", 2), ("kind", 2), ("asker", 1)]),
        NodeAnswer::Stray,
        0,
    ),
    Step(Given::Serve(1), NodeAnswer::Idle, 0),
];

/// The letter with these edits, as an input.
fn letter(alloc: Global, edits: Edits) -> Result<Input, Fail>
    ensures { IfOk result (λ i. FitsInput 2 i) }
{
    let mut numbers = FAIR;
    for (i, name) in NUMBERS.iter().enumerate() {
        for (key, number) in edits {
            if key == name {
                numbers[i] = *number;
            }
        }
    }
    let [from, seq, stamp, ..] = numbers;
    let from = node(from).ok_or("a node")?;
    let msg = msg(alloc, &numbers)?;
    let letter = Letter { seq, stamp, msg };
    Ok(Input::Take { from, letter })
}

fn msg(alloc: Global, numbers: &[u64; 27]) -> Result<Msg, Fail> {
    let [_, _, _, kind, asker, ..] = *numbers;
    let asker = node(asker).ok_or("a node")?;
    let info = info(&numbers[6..13]).ok_or("an object")?;
    let name = info.name;
    let fields = fields(alloc, numbers)?;
    Ok(match kind {
        0 => Msg::ReadGrant { info, fields },
        1 => Msg::WriteGrant { info, fields },
        2 => Msg::WriteReq { name, asker },
        3 => Msg::Inval { name },
        _ => Msg::InvAck { name },
    })
}

fn fields(alloc: Global, numbers: &[u64; 27]) -> Result<Fields, NoMemory> {
    let mut fields: Fields = Items::new(alloc);
    for i in 0..numbers[5] {
        let target = match i {
            0 => info(&numbers[13..20]),
            1 => info(&numbers[20..27]),
            _ => None,
        };
        fields.push(target.map_or(Field::Null, Field::Ref))?;
    }
    Ok(fields)
}

/// What seven numbers tell of an object.
fn info(numbers: &[u64]) -> Option<Info> {
    let [maker, count, bunch, size, home, word, moves] = numbers else {
        return None;
    };
    let address = Address::new(node(*home)?, 1, u32::try_from(*word).ok()?)?;
    Some(Info {
        name: Name::new(node(*maker)?, *count)?,
        bunch: BunchNo::new(u8::try_from(*bunch).ok()?)?,
        size: u8::try_from(*size).ok()?,
        place: Place {
            address,
            moves: *moves,
        },
    })
}

fn node(number: u64) -> Option<NodeNo> {
    NodeNo::new(u8::try_from(number).ok()?)
}

/// Node 0 or 1 of two, in a store of two bunches.
fn open(alloc: Global, me: u8) -> Result<Node, NoMemory>
    requires { me < 2 }
{
    let node = NodeNo::new(me).unwrap();
    Node::open(alloc, node, &two_bunches(alloc)?)
}

/// All that a node shows but its clock, and the words of its objects.
fn seen(alloc: Global, node: &Node) -> Result<String, Fail> {
    let mut view = node.view(alloc)?;
    view.clock = 0;
    let mut text = format!(in alloc; "{view:?}")?;
    let segments = node.memory().replica().segments();
    write!(text, "{} {}", segments.made(), segments.mapped())?;
    for entry in view.entries.iter() {
        if let Some(info) = node.memory().info(entry.name) {
            write!(text, "{:?}", info.place)?;
            write_words(&mut text, segments, info.place.address)?;
        }
    }
    Ok(text)
}

/// The header at an address, how many objects stand in its segment, and the words of the fields behind it.
fn write_words(text: &mut String, segments: &Segments, address: Address) -> Result<(), AllocError> {
    let Some(header) = segments.header(address) else {
        return Ok(());
    };
    let live = segments.live(address.home(), address.segment());
    write!(text, "{header:?} of {live}")?;
    if let State::Live { .. } = header.state {
        for i in 0..header.size {
            write!(text, " {}", segments.word(address, i))?;
        }
    }
    Ok(())
}

/// What a node is given, as an input.
fn input(alloc: Global, given: Given) -> Result<Input, Fail>
    ensures { IfOk result (λ i. FitsInput 2 i) }
{
    match given {
        Given::Read => Ok(Input::Do(Command::Read { on: anchor() })),
        Given::Take(edits) => letter(alloc, edits),
        Given::Serve(word) => Ok(Input::Serve(Name::from_word(word).ok_or("a name")?)),
    }
}

/// What a step answers, and with how many letters.
fn outcome(rt: &impl Abort, node: &mut Node, input: &Input) -> Result<(NodeAnswer, usize), NoMemory>
    requires { FitsInput 2 input.now }
{
    let done = step(rt, 2, node, input)?;
    Ok((done.answer, done.letters.len()))
}

/// A step comes to what the table says. The clock counts it, and the node shows the same after it just where it is stray
/// or idle.
fn tries(rt: &impl Abort, alloc: Global, node: &mut Node, step: &Step) -> Result<(), Fail> {
    let Step(given, answer, letters) = *step;
    let input = input(alloc, given)?;
    let (before, clock) = (seen(alloc, node)?, node.clock());
    let came = outcome(rt, node, &input)?;
    let after = seen(alloc, node)?;
    assert_eq!(rt; came, (answer, letters));
    let nothing = answer == NodeAnswer::Stray || answer == NodeAnswer::Idle;
    assert_eq!(rt; before == after, nothing);
    assert_eq!(rt; Some(node.clock()), clock.checked_add(1));
    Ok(())
}

/// Steps come to what the table says, one after another.
fn tries_all(rt: &impl Abort, alloc: Global, node: &mut Node, steps: &[Step]) -> Result<(), Fail> {
    for step in steps {
        tries(rt, alloc, node, step)?;
    }
    Ok(())
}

/// The same of a node as it opens: its clock, its stamp and how many queues it can serve after them.
fn goes(rt: &impl Abort, alloc: Global, me: u8, steps: &[Step]) -> Result<(u64, u64, usize), Fail>
    requires { me < 2 }
{
    let mut node = open(alloc, me)?;
    tries_all(rt, alloc, &mut node, steps)?;
    Ok((node.clock(), node.stamp(), node.serves_count()))
}

/// The stamps of a node that is raised, and then told of a smaller one.
fn raised(alloc: Global) -> Result<(u64, u64), NoMemory> {
    let mut node = open(alloc, 0)?;
    node.raise(40);
    let first = node.stamp();
    node.raise(39);
    Ok((first, node.stamp()))
}

// Each is stray, and the node takes the letter that should have come in its place.
#[test]
fn a_reader_is_told_nonsense(rt: HostRuntime) -> Result<(), Fail> {
    for edits in AT_A_READER {
        let nonsense = Step(Given::Take(edits), NodeAnswer::Stray, 0);
        let _ = goes(&rt, rt.alloc(), 1, &[READS, nonsense, GRANTED])?;
    }
    Ok(())
}

// The same of the owner, which queues the request.
#[test]
fn an_owner_is_told_nonsense(rt: HostRuntime) -> Result<(), Fail> {
    for edits in AT_AN_OWNER {
        let nonsense = Step(Given::Take(edits), NodeAnswer::Stray, 0);
        let counts = goes(&rt, rt.alloc(), 0, &[nonsense, ASKED])?;
        assert_eq!(rt; counts, (2, 11, 1));
    }
    Ok(())
}

// What is granted is granted once, and what is held is recalled once.
#[test]
fn a_letter_comes_again(rt: HostRuntime) -> Result<(), Fail> {
    let counts = goes(&rt, rt.alloc(), 1, &AGAIN)?;
    assert_eq!(rt; counts, (6, 14, 0));
    Ok(())
}

// The least and the most that a letter may say.
#[test]
fn what_is_legal_only_just_is_taken(rt: HostRuntime) -> Result<(), Fail> {
    for edits in LEGAL {
        let legal = Step(Given::Take(edits), NodeAnswer::Nil, 0);
        let _ = goes(&rt, rt.alloc(), 1, &[READS, legal])?;
    }
    let _ = goes(&rt, rt.alloc(), 1, &[READS, UNKNOWN])?;
    Ok(())
}

// The second letter comes before the first: only clock and stamp change, and nothing can be served. A stamp never falls.
#[test]
fn a_letter_out_of_turn(rt: HostRuntime) -> Result<(), Fail> {
    let counts = goes(&rt, rt.alloc(), 0, &OUT_OF_TURN)?;
    let stamps = raised(rt.alloc())?;
    assert_eq!(rt; counts, (2, 11, 0));
    assert_eq!(rt; stamps, (40, 40));
    Ok(())
}

//! Commands on a graph of one bunch, and how each is refused.
ghost use Rattle.std.specs.Prelude.{IsTrue, IfOk, ◌<◌};
ghost use Rattle.bmx_graph.specs.Graphs.{IsOperand, HasRegisters};

use crate::{Answer, Graph};
use bmx_types::{
    Birth, BunchNo, Command, Items, Name, NoMemory, NodeNo, Opening, Operand, Refusal, Val,
};
use std::alloc::Global;
use std::process::Abort;
use std::test::Fail;

const R0: Operand = Operand::Register(0);

/// An opening of three nodes and one bunch, whose anchor is the only object.
fn one_bunch(alloc: Global) -> Result<Opening, NoMemory> {
    let node = NodeNo::new(0).unwrap();
    let fields = Vec::from_elem(alloc, Val::Null, 32)?;
    let anchor = Birth {
        name: Name::new(node, 1).unwrap(),
        bunch: BunchNo::new(0).unwrap(),
        fields: Items::from_vec(fields),
    };
    let mut births = Items::new(alloc);
    births.push(anchor)?;
    Ok(Opening {
        nodes: 3,
        limit: 1,
        births,
    })
}

fn is_operand(operand: &Operand) -> bool
    ensures { IsTrue result → IsOperand operand.now }
{
    match operand {
        Operand::Register(register) => *register < 16,
        Operand::Anchor(_) | Operand::Int(_) | Operand::Null => true,
    }
}

fn has_registers(command: &Command) -> bool
    ensures { IsTrue result → HasRegisters command.now }
{
    match command {
        Command::New { register, .. } | Command::Drop { register } => *register < 16,
        Command::Copy { register, value } => *register < 16 && is_operand(value),
        Command::Set { on, value, .. } => is_operand(on) && is_operand(value),
        Command::Get { register, on, .. } => *register < 16 && is_operand(on),
        Command::Same { left, right } => is_operand(left) && is_operand(right),
        Command::Read { on } | Command::Write { on } | Command::Done { on } => is_operand(on),
        Command::Add { on, .. } | Command::Show { on, .. } => is_operand(on),
    }
}

/// The graph after the commands, each of which must be answered so.
fn after(rt: &impl Abort, alloc: Global, steps: &[(u8, Command, Answer)]) -> Result<Graph, Fail> {
    let opening = one_bunch(alloc)?;
    let mut graph = Graph::open(alloc, &opening)?;
    for (node, command, answer) in steps {
        let node = NodeNo::new(*node).ok_or("a node")?;
        assert!(rt; has_registers(command) && graph.made(node) < (1 << 56) - 1);
        assert_eq!(rt; graph.apply(node, command)?, *answer, "{command:?}");
    }
    Ok(graph)
}

fn new(register: u8, size: u8) -> Command
    requires { register < 16 }
    ensures { HasRegisters result }
{
    Command::New {
        register,
        bunch: BunchNo::new(0).unwrap(),
        size,
    }
}

fn set(on: Operand, index: u8, value: Operand) -> Command {
    Command::Set { on, index, value }
}

fn refused(why: Refusal) -> Answer {
    Answer::Refused(why)
}

#[test]
fn a_field_is_set_and_shown(rt: HostRuntime) -> Result<(), Fail> {
    let five = Answer::Value(Val::Int(5));
    let graph = after(
        &rt,
        rt.alloc(),
        &[
            (0, new(0, 1), Answer::Nil),
            (0, Command::Write { on: R0 }, Answer::Nil),
            (0, set(R0, 0, Operand::Int(5)), Answer::Nil),
            (0, Command::Show { on: R0, index: 0 }, five),
            (0, Command::Done { on: R0 }, Answer::Nil),
        ],
    )?;
    let node = NodeNo::new(0).ok_or("node 0")?;
    let object = Name::new(node, 2).ok_or("0.2")?;
    assert_eq!(rt; graph.value(node, 0), Val::Ref(object));
    assert_eq!(rt; graph.made(node), 2);
    assert_eq!(rt; graph.field(object, 0), Some(Val::Int(5)));
    assert_eq!(rt; graph.field(object, 1), None);
    assert_eq!(rt; graph.field(Name::new(node, 3).ok_or("0.3")?, 0), None);
    Ok(())
}

#[test]
fn refusals(rt: HostRuntime) -> Result<(), Fail> {
    let _graph = after(
        &rt,
        rt.alloc(),
        &[
            (0, new(0, 1), Answer::Nil),
            (0, set(R0, 0, Operand::Int(1)), refused(Refusal::NoToken)),
            (0, Command::Write { on: R0 }, Answer::Nil),
            (0, Command::Write { on: R0 }, refused(Refusal::Held)),
            (
                0,
                Command::Add {
                    on: R0,
                    index: 0,
                    by: 1,
                },
                refused(Refusal::Number),
            ),
            (0, Command::Done { on: R0 }, Answer::Nil),
            (0, Command::Done { on: R0 }, refused(Refusal::NoToken)),
            (
                0,
                Command::Read {
                    on: Operand::Register(1),
                },
                refused(Refusal::Empty),
            ),
            (0, Command::Read { on: R0 }, Answer::Nil),
            (
                0,
                Command::Show { on: R0, index: 0 },
                Answer::Value(Val::Null),
            ),
        ],
    )?;
    Ok(())
}

#[test]
fn the_largest_object_and_the_least_number(rt: HostRuntime) -> Result<(), Fail> {
    let _graph = after(
        &rt,
        rt.alloc(),
        &[
            (0, new(0, 32), Answer::Nil),
            (0, Command::Write { on: R0 }, Answer::Nil),
            (0, set(R0, 31, Operand::Int(i64::MIN)), Answer::Nil),
            (
                0,
                Command::Show { on: R0, index: 31 },
                Answer::Value(Val::Int(i64::MIN)),
            ),
            (
                0,
                Command::Show { on: R0, index: 32 },
                refused(Refusal::Index),
            ),
            (
                0,
                Command::Add {
                    on: R0,
                    index: 31,
                    by: -1,
                },
                refused(Refusal::Number),
            ),
            (
                0,
                Command::Add {
                    on: R0,
                    index: 31,
                    by: 1,
                },
                Answer::Nil,
            ),
            (
                0,
                Command::Show { on: R0, index: 31 },
                Answer::Value(Val::Int(-9223372036854775807)),
            ),
        ],
    )?;
    Ok(())
}

#[test]
fn two_nodes_share_an_object_through_the_anchor(rt: HostRuntime) -> Result<(), Fail> {
    let anchor = Operand::Anchor(BunchNo::new(0).ok_or("bunch 0")?);
    let node = NodeNo::new(0).ok_or("node 0")?;
    let object = Answer::Value(Val::Ref(Name::new(node, 2).ok_or("0.2")?));
    let r3 = Operand::Register(3);
    let _graph = after(
        &rt,
        rt.alloc(),
        &[
            (0, new(0, 1), Answer::Nil),
            (0, Command::Write { on: anchor }, Answer::Nil),
            (0, set(anchor, 0, R0), Answer::Nil),
            (1, Command::Read { on: anchor }, Answer::Wait),
            (0, Command::Done { on: anchor }, Answer::Nil),
            (1, Command::Read { on: anchor }, Answer::Nil),
            (
                1,
                Command::Get {
                    register: 3,
                    on: anchor,
                    index: 0,
                },
                object,
            ),
            (
                1,
                Command::Same {
                    left: r3,
                    right: anchor,
                },
                Answer::No,
            ),
            (
                0,
                Command::Same {
                    left: Operand::Null,
                    right: Operand::Int(0),
                },
                Answer::No,
            ),
            (0, Command::Read { on: anchor }, Answer::Nil),
            (2, Command::Write { on: anchor }, Answer::Wait),
            (
                1,
                Command::Show {
                    on: anchor,
                    index: 0,
                },
                object,
            ),
            (
                1,
                Command::Copy {
                    register: 4,
                    value: r3,
                },
                Answer::Nil,
            ),
            (
                1,
                Command::Same {
                    left: Operand::Register(4),
                    right: r3,
                },
                Answer::Yes,
            ),
            (1, Command::Drop { register: 4 }, Answer::Nil),
            (
                1,
                Command::Same {
                    left: Operand::Register(4),
                    right: Operand::Null,
                },
                Answer::Yes,
            ),
        ],
    )?;
    Ok(())
}

/// A ring of two objects that share a third, a chain that nothing refers to, and an object of node 2.
#[test]
fn reached_names(rt: HostRuntime) -> Result<(), Fail> {
    let r1 = Operand::Register(1);
    let r2 = Operand::Register(2);
    let graph = after(
        &rt,
        rt.alloc(),
        &[
            (0, new(0, 2), Answer::Nil),
            (0, new(1, 2), Answer::Nil),
            (0, new(2, 1), Answer::Nil),
            (0, Command::Write { on: R0 }, Answer::Nil),
            (0, Command::Write { on: r1 }, Answer::Nil),
            (0, set(R0, 0, r1), Answer::Nil),
            (0, set(R0, 1, r2), Answer::Nil),
            (0, set(r1, 0, R0), Answer::Nil),
            (0, set(r1, 1, r2), Answer::Nil),
            (0, new(1, 1), Answer::Nil),
            (0, new(2, 0), Answer::Nil),
            (0, Command::Write { on: r1 }, Answer::Nil),
            (0, set(r1, 0, r2), Answer::Nil),
            (0, Command::Drop { register: 1 }, Answer::Nil),
            (0, Command::Drop { register: 2 }, Answer::Nil),
            (2, new(15, 0), Answer::Nil),
        ],
    )?;
    let mut names = Vec::new(rt.alloc());
    for (node, count) in [(0, 1), (0, 2), (0, 3), (0, 4), (2, 1)] {
        let node = NodeNo::new(node).ok_or("a node")?;
        names.push(Name::new(node, count).ok_or("a name")?)?;
    }
    assert_eq!(rt; graph.reached(rt.alloc())?.as_slice(), names.as_slice());
    Ok(())
}

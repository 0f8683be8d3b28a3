//! What a script opens, what a history prints, and how each status is told.
use crate::{Status, has_refusal, opening, text};
use bmx_protocol::{Done, Event, History, Input, NodeAnswer};
use bmx_script::{Bad, BadCause, Script, read_script};
use bmx_types::{Command, Items, NoMemory, NodeNo, Operand, Refusal, Val};
use std::alloc::Global;
use std::test::Fail;

const SCRIPT: &str =
    "bmx 1\nnodes 2\nbunch main\nsegments 9\n\n# shown\n0 show r0 0\n1 same r0 r1\n0 show r1 0\nphase\n0 drop r0\n";

fn script(alloc: Global) -> Option<Script> {
    read_script(alloc, SCRIPT.as_bytes()).ok()
}

// An event of a node: a command, and how it was answered.
fn event(alloc: Global, node: u8, command: Command, answer: NodeAnswer) -> Option<Event> {
    let letters = Items::new(alloc);
    Some(Event {
        node: NodeNo::new(node)?,
        stamp: 1,
        input: Input::Do(command),
        done: Done { answer, letters },
    })
}

fn show(register: u8) -> Command {
    let on = Operand::Register(register);
    Command::Show { on, index: 0 }
}

// Most commands of the script with their answers: one waits first, node 1 is before it, and the last is refused.
fn fill(alloc: Global, history: &mut History) -> Option<()> {
    let seven = NodeAnswer::Value(Val::Int(7));
    let same = Command::Same {
        left: Operand::Register(0),
        right: Operand::Register(1),
    };
    let refused = NodeAnswer::Refused(Refusal::NoToken);
    history
        .push(event(alloc, 0, show(0), NodeAnswer::Wait)?)
        .ok()?;
    history.push(event(alloc, 1, same, NodeAnswer::No)?).ok()?;
    history.push(event(alloc, 0, show(0), seven)?).ok()?;
    history.push(event(alloc, 0, show(1), refused)?).ok()?;
    Some(())
}

#[test]
fn what_a_script_opens(rt: HostRuntime) -> Result<(), Fail> {
    let script = script(rt.alloc()).ok_or("a script")?;
    let opening = opening(rt.alloc(), &script)?;
    let births = opening.births.as_slice();
    assert_eq!(rt; (opening.nodes, opening.limit), (2, 9));
    assert_eq!(rt; births.len(), 1);
    assert_eq!(rt; births[0].name.word(), 1);
    assert_eq!(rt; births[0].bunch.get(), 0);
    assert_eq!(rt; births[0].fields.len(), 32);
    Ok(())
}

#[test]
fn what_a_history_prints(rt: HostRuntime) -> Result<(), Fail> {
    let script = script(rt.alloc()).ok_or("a script")?;
    let mut history = Items::new(rt.alloc());
    assert!(rt; !has_refusal(&history));
    fill(rt.alloc(), &mut history).ok_or("a history")?;
    let text = text(rt.alloc(), &script, &history)?;
    assert_eq!(rt; text.as_str(), "1 8 no\n0 7 7\n0 9 refused token\n");
    assert!(rt; has_refusal(&history));
    Ok(())
}

/// Whether a status has this code and this line on standard error.
fn is_told_as(alloc: Global, status: Status, code: u8, line: &str) -> Result<bool, NoMemory> {
    let text = status.line(alloc)?;
    Ok(status.code() == code && text.as_str() == line)
}

#[test]
fn statuses_and_how_they_are_told(rt: HostRuntime) -> Result<(), Fail> {
    let bad = Bad {
        line: 6,
        cause: BadCause::Range,
    };
    for (status, code, line) in [
        (Status::Done, 0, ""),
        (Status::NoMemory, 1, "bmx: no memory"),
        (Status::Usage(1), 2, "bmx: usage at word 1"),
        (Status::BadScript(bad), 3, "bmx: line 6: range"),
        (Status::ReadFault, 4, "bmx: read failed"),
        (Status::WriteFault, 5, "bmx: write failed"),
        (Status::Stuck, 7, "bmx: stuck"),
        (Status::SomeRefused, 8, ""),
        (Status::Spent, 9, "bmx: budget spent"),
    ] {
        assert!(rt; is_told_as(rt.alloc(), status, code, line)?, "{line}");
    }
    Ok(())
}

//! What the two nodes do, and how a command that waits goes on.
ghost use Rattle.std.specs.Prelude.{◌≡◌};
ghost use Rattle.bmx_types.specs.declared.commands.Operand.TheVariants as operand;
ghost use Rattle.bmx_node.specs.Seen.{FitsCommand};

use crate::failures::Failure;
use crate::opening::{main_bunch, node_no};
use crate::store::Store;
use crate::words::{Asked, Told};
use bmx_protocol::{Input, NodeAnswer};
use bmx_types::{Command, NodeNo, Operand, Refusal};

/// How often a command is given at most.
const TRIES: u8 = 8;

/// How many letters and serves there may be between two tries.
const TURNS: u8 = 32;

/// What came of a command.
#[derive(Clone, Copy)]
enum Outcome {
    Done,
    Waits,
    Refused(Refusal),
}

/// Node 0 makes an object and puts it into the anchor; node 1 finds it there and reads it; node 1 takes the object
/// over and changes it; node 0 reads it; node 1 changes it again, for which node 0's copy is taken back; node 0 reads
/// it again.
pub fn tell(rt: &impl Print, store: &mut Store) -> Result<(), Failure> {
    let first = node_no(0);
    let second = node_no(1);
    make(rt, store, first)?;
    find(rt, store, second)?;
    read(rt, store, second)?;
    change(rt, store, second, 6)?;
    read(rt, store, first)?;
    change(rt, store, second, 7)?;
    read(rt, store, first)
}

/// Makes an object that holds 5, and puts it into the anchor, where other nodes find it.
fn make(rt: &impl Print, store: &mut Store, node: NodeNo) -> Result<(), Failure> {
    let new = Command::New {
        register: 0,
        bunch: main_bunch(),
        size: 1,
    };
    let write = Command::Write { on: anchor() };
    let put = Command::Set {
        on: anchor(),
        index: 0,
        value: object(),
    };
    let done = Command::Done { on: anchor() };
    must(rt, store, node, &new)?;
    change(rt, store, node, 5)?;
    must(rt, store, node, &write)?;
    must(rt, store, node, &put)?;
    must(rt, store, node, &done)
}

/// Finds the object in the anchor.
fn find(rt: &impl Print, store: &mut Store, node: NodeNo) -> Result<(), Failure> {
    let read = Command::Read { on: anchor() };
    let get = Command::Get {
        register: 0,
        on: anchor(),
        index: 0,
    };
    let done = Command::Done { on: anchor() };
    must(rt, store, node, &read)?;
    must(rt, store, node, &get)?;
    must(rt, store, node, &done)
}

/// Reads the object.
fn read(rt: &impl Print, store: &mut Store, node: NodeNo) -> Result<(), Failure> {
    let read = Command::Read { on: object() };
    let show = Command::Show {
        on: object(),
        index: 0,
    };
    let done = Command::Done { on: object() };
    must(rt, store, node, &read)?;
    must(rt, store, node, &show)?;
    must(rt, store, node, &done)
}

/// Changes what the object holds. Where the token isn't held that is refused; then it is taken first.
fn change(rt: &impl Print, store: &mut Store, node: NodeNo, number: i64) -> Result<(), Failure> {
    let value = Operand::Int(number);
    let command = Command::Set {
        on: object(),
        index: 0,
        value,
    };
    match give(rt, store, node, &command)? {
        Outcome::Refused(Refusal::NoToken) => change_with_token(rt, store, node, &command),
        outcome => done_or_failure(outcome),
    }
}

/// Takes the object to write it, gives the command, and gives the object back.
fn change_with_token(
    rt: &impl Print,
    store: &mut Store,
    node: NodeNo,
    command: &Command,
) -> Result<(), Failure>
    requires { FitsCommand 1 command.now }
{
    let write = Command::Write { on: object() };
    let done = Command::Done { on: object() };
    must(rt, store, node, &write)?;
    must(rt, store, node, command)?;
    must(rt, store, node, &done)
}

/// Gives a command that is not to be refused.
fn must(rt: &impl Print, store: &mut Store, node: NodeNo, command: &Command) -> Result<(), Failure>
    requires { FitsCommand 1 command.now }
{
    let outcome = give(rt, store, node, command)?;
    done_or_failure(outcome)
}

/// What is no failure is done.
fn done_or_failure(outcome: Outcome) -> Result<(), Failure> {
    match outcome {
        Outcome::Done => Ok(()),
        Outcome::Waits => Err(Failure::Stuck),
        Outcome::Refused(why) => Err(Failure::Refused(why)),
    }
}

/// Gives a command, and gives it again for as long as it waits: letters are carried and queues are served between.
fn give(
    rt: &impl Print,
    store: &mut Store,
    node: NodeNo,
    command: &Command,
) -> Result<Outcome, Failure>
    requires { FitsCommand 1 command.now }
{
    for _ in 0..TRIES {
        match attempt(rt, store, node, command)? {
            Outcome::Waits => settle(rt, store)?,
            outcome => return Ok(outcome),
        }
    }
    Ok(Outcome::Waits)
}

/// Gives a command once, and prints what is answered.
fn attempt(
    rt: &impl Print,
    store: &mut Store,
    node: NodeNo,
    command: &Command,
) -> Result<Outcome, Failure>
    requires { FitsCommand 1 command.now }
{
    match store.step(node, &Input::Do(*command)) {
        Ok(answer) => {
            say(rt, node, command, &answer)?;
            Ok(outcome_of(answer))
        }
        Err(failure) => Err(failure),
    }
}

/// What an answer says of a command.
fn outcome_of(answer: NodeAnswer) -> Outcome {
    match answer {
        NodeAnswer::Wait => Outcome::Waits,
        NodeAnswer::Refused(why) => Outcome::Refused(why),
        _ => Outcome::Done,
    }
}

/// Prints a command and its answer.
fn say(
    rt: &impl Print,
    node: NodeNo,
    command: &Command,
    answer: &NodeAnswer,
) -> Result<(), Failure> {
    let node = node.get();
    let (asked, told) = (Asked(*command), Told(*answer));
    println!(rt; "node {node} {asked}: {told}")?;
    Ok(())
}

/// Carries letters and serves queues until nothing is left to do.
fn settle(rt: &impl Print, store: &mut Store) -> Result<(), Failure> {
    for _ in 0..TURNS {
        if !turn(rt, store)? {
            return Ok(());
        }
    }
    Err(Failure::Stuck)
}

/// Carries a letter, or serves where there is none; false where there is nothing to do.
fn turn(rt: &impl Print, store: &mut Store) -> Result<bool, Failure> {
    if carry(rt, store)? {
        return Ok(true);
    }
    serve(store)
}

/// Prints the first letter in flight and hands it over; false where there is none.
fn carry(rt: &impl Print, store: &mut Store) -> Result<bool, Failure> {
    let Some(parcel) = store.first() else {
        return Ok(false);
    };
    println!(rt; "  {parcel}")?;
    match store.deliver() {
        Ok(NodeAnswer::Stray) => Err(Failure::Stray),
        Ok(_) => Ok(true),
        Err(failure) => Err(failure),
    }
}

/// Serves the head of a queue; false where none can be served.
fn serve(store: &mut Store) -> Result<bool, Failure> {
    let Some((node, name)) = store.servable() else {
        return Ok(false);
    };
    match store.step(node, &Input::Serve(name)) {
        Ok(NodeAnswer::Idle) => Ok(false),
        Ok(_) => Ok(true),
        Err(failure) => Err(failure),
    }
}

/// What the object is called at each node: it refers to it by its first register.
fn object() -> Operand
    ensures { result ≡ operand.Register 0 }
{
    Operand::Register(0)
}

/// The anchor of the store's one bunch.
fn anchor() -> Operand
    ensures { result ≡ operand.Anchor 0 }
{
    Operand::Anchor(main_bunch())
}

//! What comes of a command, by what it reads of a graph or of a node. It changes nothing.
ghost use Rattle.std.specs.Prelude.{◌≡◌, ℕ, ◌<◌, Option, Some, IfOk, IfErr, option_and_then, slice_get};
ghost use Rattle.bmx_types.specs.declared.commands.Command.TheVariants as command;
ghost use Rattle.bmx_graph.specs.State.{State};
ghost use Rattle.bmx_graph.specs.Step.{value_of, target_of, answer_of, effect_after, IsPossible};
ghost use Rattle.bmx_graph.specs.Graphs.{IsOperand, HasRegisters};
ghost use Rattle.bmx_graph.specs.Inside.Parts.{Decides, taking, is_excluded, field_refusal, FindsField};

use crate::answers::Answer;
use crate::effects::Effect;
use crate::rules::{anchor, excludes, permits, sum};
use bmx_types::{Command, Mode, Name, NodeNo, Operand, Refusal, Val};

/// What a command reads of a graph.
pub trait Sight {
    // The graph that is seen.
    ghost graph: { Self → State };

    /// What a node's register holds.
    fn register(&self, node: NodeNo, register: u8) -> Val
        requires { register < 16 }
        ensures { result ≡ (graph self.now).register node register };

    /// How a node holds the token of a name.
    fn hold(&self, node: NodeNo, name: Name) -> Option<Mode>
        ensures { result ≡ (graph self.now).held node name };

    /// A field of an object, None where there is no object of that name or it has no such field.
    fn field(&self, name: Name, index: u8) -> Option<Val>
        ensures { result ≡ option_and_then (λ fields. slice_get fields index) ((graph self.now).object name) };
}

/// What comes of a command.
#[derive(Clone, Copy, Debug, PartialEq, Eq)]
pub struct Decision {
    pub answer: Answer,
    /// What it changes: nothing where it waits or is refused.
    pub effect: Effect,
}

/// A field that a command may use: its object, and what stands in it.
#[derive(Clone, Copy)]
struct Found {
    name: Name,
    value: Val,
}

impl Decision {
    /// It is done, and has nothing to tell.
    fn does(effect: Effect) -> Decision
        ensures answer { result.answer ≡ Answer.Nil }
        ensures effect { result.effect ≡ effect }
    {
        Decision {
            answer: Answer::Nil,
            effect,
        }
    }

    /// It changes nothing.
    fn tells(answer: Answer) -> Decision
        ensures answer { result.answer ≡ answer }
        ensures effect { result.effect ≡ Effect.Nothing }
    {
        Decision {
            answer,
            effect: Effect::Nothing,
        }
    }

    fn refuses(why: Refusal) -> Decision
        ensures answer { result.answer ≡ Answer.Refused why }
        ensures effect { result.effect ≡ Effect.Nothing }
    {
        Decision::tells(Answer::Refused(why))
    }
}

/// What the graph answers a node's command, and what is to change for it. It reads a register for each
/// operand, the node's hold of the name that the command is on, and one field of it, each at most once;
/// where a token may be taken also the other nodes' holds. It takes no memory.
pub fn decide<S: Sight>(sight: &S, node: NodeNo, command: &Command) -> Decision
    requires { HasRegisters command.now }
    ensures answer { result.answer ≡ answer_of (S.graph sight.now) node command.now }
    ensures effect { result.effect ≡ effect_after (S.graph sight.now) node command.now result.answer }
    ensures possible { IsPossible (S.graph sight.now) result.effect }
{
    match *command {
        Command::New {
            register,
            bunch,
            size,
        } => Decision::does(Effect::Makes {
            register,
            bunch,
            size,
        }),
        Command::Copy { register, value } => {
            let value = meaning(sight, node, value);
            Decision::does(Effect::Sets { register, value })
        }
        Command::Drop { register } => Decision::does(Effect::Sets {
            register,
            value: Val::Null,
        }),
        Command::Read { on } => acquire(sight, node, on, Mode::Read),
        Command::Write { on } => acquire(sight, node, on, Mode::Write),
        Command::Done { on } => release(sight, node, on),
        Command::Set { on, index, value } => set(sight, node, on, index, value),
        Command::Add { on, index, by } => add(sight, node, on, index, by),
        Command::Get {
            register,
            on,
            index,
        } => get(sight, node, register, on, index),
        Command::Show { on, index } => show(sight, node, on, index),
        Command::Same { left, right } => same(sight, node, left, right),
    }
}

/// What an operand stands for at a node.
#[inline(always)]
fn meaning<S: Sight>(sight: &S, node: NodeNo, operand: Operand) -> Val
    requires { IsOperand operand }
    ensures { result ≡ value_of (S.graph sight.now) node operand }
{
    match operand {
        Operand::Register(register) => sight.register(node, register),
        Operand::Anchor(bunch) => Val::Ref(anchor(bunch.get())),
        Operand::Int(number) => Val::Int(number),
        Operand::Null => Val::Null,
    }
}

/// The name that an operand refers to at a node.
pub fn target<S: Sight>(sight: &S, node: NodeNo, on: Operand) -> Option<Name>
    requires { IsOperand on }
    ensures { result ≡ target_of (S.graph sight.now) node on }
{
    match meaning(sight, node, on) {
        Val::Ref(name) => Some(name),
        Val::Null | Val::Int(_) => None,
    }
}

/// Whether another node's hold keeps a node from taking the token so.
fn is_excluded<S: Sight>(sight: &S, node: NodeNo, name: Name, wanted: Mode) -> bool
    ensures { result ≡ is_excluded wanted (S.graph sight.now) node name }
{
    for number in 0..8 {
        if let Some(other) = NodeNo::new(number) {
            if other != node && excludes(sight.hold(other, name), wanted) {
                return true;
            }
        }
    }
    false
}

/// What a command on a field may use: the name that the operand refers to, and what stands in the
/// field. The error says why it may not.
#[inline(always)]
fn find_field<S: Sight>(
    sight: &S,
    node: NodeNo,
    on: Operand,
    index: u8,
    use_as: Mode,
) -> Result<Found, Refusal>
    requires { IsOperand on }
    ensures ok { let s = S.graph sight.now in IfOk result (λ f. FindsField use_as s node (target_of s node on) index f.name f.value) }
    ensures err { let s = S.graph sight.now in IfErr result (λ why. field_refusal use_as s node (target_of s node on) index ≡ Some why) }
{
    let name = target(sight, node, on).ok_or(Refusal::Empty)?;
    if !permits(sight.hold(node, name), use_as) {
        return Err(Refusal::NoToken);
    }
    let value = sight.field(name, index).ok_or(Refusal::Index)?;
    Ok(Found { name, value })
}

/// A read or a write.
fn acquire<S: Sight>(sight: &S, node: NodeNo, on: Operand, wanted: Mode) -> Decision
    requires { IsOperand on }
    ensures { Decides (S.graph sight.now) node (taking wanted on) result }
{
    let Some(name) = target(sight, node, on) else {
        return Decision::refuses(Refusal::Empty);
    };
    if sight.hold(node, name).is_some() {
        return Decision::refuses(Refusal::Held);
    }
    if is_excluded(sight, node, name, wanted) {
        return Decision::tells(Answer::Wait);
    }
    Decision::does(Effect::Holds {
        name,
        hold: Some(wanted),
    })
}

fn release<S: Sight>(sight: &S, node: NodeNo, on: Operand) -> Decision
    requires { IsOperand on }
    ensures { Decides (S.graph sight.now) node (command.Done on) result }
{
    let Some(name) = target(sight, node, on) else {
        return Decision::refuses(Refusal::Empty);
    };
    if sight.hold(node, name).is_none() {
        return Decision::refuses(Refusal::NoToken);
    }
    Decision::does(Effect::Holds { name, hold: None })
}

fn set<S: Sight>(sight: &S, node: NodeNo, on: Operand, index: u8, value: Operand) -> Decision
    requires on { IsOperand on }
    requires value { IsOperand value }
    ensures { Decides (S.graph sight.now) node (command.Set on index value) result }
{
    match find_field(sight, node, on, index, Mode::Write) {
        Ok(found) => Decision::does(Effect::Stores {
            name: found.name,
            index,
            value: meaning(sight, node, value),
        }),
        Err(why) => Decision::refuses(why),
    }
}

fn add<S: Sight>(sight: &S, node: NodeNo, on: Operand, index: u8, by: i64) -> Decision
    requires { IsOperand on }
    ensures { Decides (S.graph sight.now) node (command.Add on index by) result }
{
    match find_field(sight, node, on, index, Mode::Write) {
        Ok(found) => match sum(found.value, by) {
            Some(sum) => Decision::does(Effect::Stores {
                name: found.name,
                index,
                value: Val::Int(sum),
            }),
            None => Decision::refuses(Refusal::Number),
        },
        Err(why) => Decision::refuses(why),
    }
}

fn get<S: Sight>(sight: &S, node: NodeNo, register: u8, on: Operand, index: u8) -> Decision
    requires register { register < 16 }
    requires on { IsOperand on }
    ensures { Decides (S.graph sight.now) node (command.Get register on index) result }
{
    match find_field(sight, node, on, index, Mode::Read) {
        Ok(found) => Decision {
            answer: Answer::Value(found.value),
            effect: Effect::Sets {
                register,
                value: found.value,
            },
        },
        Err(why) => Decision::refuses(why),
    }
}

fn show<S: Sight>(sight: &S, node: NodeNo, on: Operand, index: u8) -> Decision
    requires { IsOperand on }
    ensures { Decides (S.graph sight.now) node (command.Show on index) result }
{
    match find_field(sight, node, on, index, Mode::Read) {
        Ok(found) => Decision::tells(Answer::Value(found.value)),
        Err(why) => Decision::refuses(why),
    }
}

fn same<S: Sight>(sight: &S, node: NodeNo, left: Operand, right: Operand) -> Decision
    requires left { IsOperand left }
    requires right { IsOperand right }
    ensures { Decides (S.graph sight.now) node (command.Same left right) result }
{
    if meaning(sight, node, left) == meaning(sight, node, right) {
        Decision::tells(Answer::Yes)
    } else {
        Decision::tells(Answer::No)
    }
}

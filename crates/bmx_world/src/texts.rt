//! What a history prints.
ghost use Rattle.std.specs.Prelude.{◌≡◌, ℕ, List, IfOk, OnOk};
ghost use Rattle.bmx_protocol.specs.Runs.Programs.{completion};
ghost use Rattle.bmx_world.specs.Texts.{printed_of, is_refusal as is_refusal_lem, has_refusal as has_refusal_lem, text_of};
ghost use Rattle.bmx_world.specs.Inside.Printing.{IsNextAt, AreAt, GoesOn, Prints, is_order_to as is_order_to_lem};

use bmx_protocol::{Event, History, Input, NodeAnswer};
use bmx_script::{Line, LineKind, Script, Shown, shown_line};
use bmx_types::{Command, NoMemory, NodeNo, Text};
use std::alloc::Global;

/// What is printed of a command with a node's answer: of `show` and `same` what they show, and of any command
/// that it was refused.
pub fn printed(command: &Command, answer: &NodeAnswer) -> Option<Shown>
    ensures { result ≡ printed_of command.now answer.now }
{
    match (command, answer) {
        (_, NodeAnswer::Refused(why)) => Some(Shown::Refused(*why)),
        (Command::Show { .. } | Command::Same { .. }, NodeAnswer::Value(value)) => {
            Some(Shown::Value(*value))
        }
        (Command::Show { .. } | Command::Same { .. }, NodeAnswer::Yes) => Some(Shown::Yes),
        (Command::Show { .. } | Command::Same { .. }, NodeAnswer::No) => Some(Shown::No),
        _ => None,
    }
}

/// Whether a command of a history was refused. Linear.
pub fn has_refusal(history: &History) -> bool
    ensures { result ≡ has_refusal_lem history.now }
{
    let events = history.as_slice();
    events.iter().any(|event| is_refusal(&event.done.answer))
}

fn is_refusal(answer: &NodeAnswer) -> bool
    ensures { result ≡ is_refusal_lem answer.now }
{
    matches!(answer, NodeAnswer::Refused(_))
}

/// How many nodes a store may have.
const NODES: usize = 8;

/// The text of a history of a script: a line for each `show`, each `same` and each refused command, in the order
/// of the history. Linear in the events, and in the lines of the script for each node.
pub fn text(alloc: Global, script: &Script, history: &History) -> Result<Text, NoMemory>
    ensures { IfOk result (λ text. text ≡ text_of script.now history.now) }
{
    let lines = script.lines().as_slice();
    let mut text = Text::new(alloc);
    let mut places = Places::new();
    let events = history.as_slice();
    for event in events {
        print_event(&mut text, &mut places, lines, event)?;
    }
    Ok(text)
}

/// Prints an event behind a text.
fn print_event(
    text: &mut Text,
    places: &mut Places,
    lines: &[Line],
    event: &Event,
) -> Result<(), NoMemory>
    ensures { (counts : ℕ → ℕ) → AreAt lines.now counts places.old.of_node → OnOk result (Prints lines.now counts event.now text.old text.new places.new.of_node) }
{
    let Some(command) = completed(event) else {
        return Ok(());
    };
    let Some(line) = places.next(lines, event.node) else {
        return Ok(());
    };
    match printed(&command, &event.done.answer) {
        Some(shown) => text.push_str(shown_line(event.node, line, &shown).as_str()),
        None => Ok(()),
    }
}

/// The command that an event completes: one that doesn't wait.
fn completed(event: &Event) -> Option<Command>
    ensures { result ≡ completion event.now.input event.now.done.answer }
{
    match (&event.input, &event.done.answer) {
        (_, NodeAnswer::Wait) => None,
        (Input::Do(command), _) => Some(*command),
        _ => None,
    }
}

/// For each node, how many lines of a script stand before what is left of its program.
#[derive(Drop)]
struct Places {
    of_node: [usize; NODES],
}

impl Places {
    /// Every node before its first command.
    fn new() -> Places
        ensures { (lines : List Line) → AreAt lines (λ _. 0) result.of_node }
    {
        Places {
            of_node: [0; NODES],
        }
    }

    /// The number of the line of a node's next command, behind which the node is then; None where no more is to
    /// come.
    fn next(&mut self, lines: &[Line], node: NodeNo) -> Option<u32>
        ensures { (counts : ℕ → ℕ) → AreAt lines.now counts self.old.of_node → GoesOn lines.now counts node result self.new.of_node }
    {
        let place = self.of_node[node.get() as usize];
        match next_order(lines, node, place) {
            Some(at) => {
                self.of_node[node.get() as usize] = at + 1;
                Some(lines[at].number)
            }
            None => None,
        }
    }
}

/// Where the first line that gives a command to a node stands, from a place on.
fn next_order(lines: &[Line], node: NodeNo, from: usize) -> Option<usize>
    ensures { IsNextAt lines.now node from result }
{
    for at in from..lines.len() {
        if is_order_to(&lines[at].what, node) {
            return Some(at);
        }
    }
    None
}

/// Whether a line gives a command to a node.
fn is_order_to(what: &LineKind, to: NodeNo) -> bool
    ensures { result ≡ is_order_to_lem to what.now }
{
    match what {
        LineKind::Do { node, .. } => *node == to,
        _ => false,
    }
}

//! An event: one step of one node, its letters sent, its line printed, and its place in the history.
ghost use Rattle.std.specs.Prelude.{◌≡◌, ◌+◌, ◌<◌, ◌≤◌, ◌++◌, length, string_bytes, string_len, string_capacity, OnOk, OnErr};
ghost use Rattle.bmx_protocol.specs.Nodes.{Setting};
ghost use Rattle.bmx_script.specs.Printing.{line_text};
ghost use Rattle.bmx_legal.specs.Inside.Spots.{StandsAt};
ghost use Rattle.bmx_msg.specs.declared.letters.Letter.{Letter as LetterOf};
ghost use Rattle.bmx_run.specs.declared.actions.Action.TheVariants as choice;
ghost use Rattle.bmx_run.specs.Inside.Steps.{AreNodes, CanStep, Steps, SameRest, SameRun};
ghost use Rattle.bmx_run.specs.Inside.Noting.{CanNote, Notes};
ghost use Rattle.bmx_run.specs.Inside.Posting.{Posts, Sends, SameBesidesLanes};
ghost use Rattle.bmx_run.specs.Inside.Running.{Point, Turned, Halted};
ghost use Rattle.bmx_run.specs.Inside.Picking.{MayTurn, IsNextOrder};

use crate::runner::{Position, Runner};
use crate::seats::Order;
use bmx_lanes::Lanes;
use bmx_msg::Letter;
use bmx_protocol::{Event, Input, Sending};
use bmx_script::{Shown, shown_line};
use bmx_types::{Name, NoMemory, NodeNo};
use bmx_world::printed;

/// How many bytes a line of the text may have.
const LONGEST_LINE: usize = 96;

impl Runner {
    /// A node does a step, which is the run's next event.
    #[inline(always)]
    pub(crate) fn event(&mut self, node: NodeNo, input: Input) -> Result<(), NoMemory>
        requires { CanStep self.old node input }
        ensures ok { (st : Setting) → AreNodes st self.old.nodes.items → OnOk result (Steps st self.old node input self.new) }
        ensures err { (st : Setting) → AreNodes st self.old.nodes.items → OnErr result (SameRun st self.old self.new) }
        ensures rest { SameRest self.old self.new }
    {
        self.history.reserve(1)?;
        let actor = &mut self.nodes[usize::from(node.get())];
        let done = actor.step(&input)?;
        let stamp = actor.stamp();
        let pushed = self.history.push(Event {
            node,
            stamp,
            input,
            done,
        });
        prove!(pushed.is_ok());
        Ok(())
    }

    /// The letters of the last event, which a node made, are in flight.
    #[inline(always)]
    pub(crate) fn post(&mut self, node: NodeNo) -> Result<(), NoMemory>
        requires { 0 < length self.old.history.items }
        ensures ok { OnOk result (Posts self.old node self.new) }
        ensures rest { SameBesidesLanes self.old self.new }
    {
        let event = self.history.len() - 1;
        let letters = self.history[event].done.letters.as_slice();
        send(&mut self.lanes, node, event, letters)
    }

    /// A node takes the next letter from another.
    pub(crate) fn take(&mut self, node: NodeNo, from: NodeNo) -> Result<(), NoMemory>
        requires { (p : Point) × MayTurn p self.old (choice.Take node from) }
        ensures ok { (p : Point) → MayTurn p self.old (choice.Take node from) → OnOk result (Turned p self.new) }
        ensures err { (p : Point) → MayTurn p self.old (choice.Take node from) → OnErr result (Halted p self.new) }
        ensures generator { self.new.generator ≡ self.old.generator }
        ensures budget { self.new.budget ≡ self.old.budget }
    {
        let Some(position) = self.lanes.first(from, node) else {
            unreachable!()
        };
        let letter = self.letter_at(position).copy(self.alloc)?;
        self.event(node, Input::Take { from, letter })?;
        let _taken = self.lanes.pop(from, node);
        self.post(node)
    }

    /// The letter at a position.
    fn letter_at(&self, position: Position) -> &Letter
        requires { (l : LetterOf) × StandsAt self.now.history.items position l }
        ensures { (l : LetterOf) → StandsAt self.now.history.items position l → result.now ≡ l }
    {
        let event = &self.history[position.event];
        &event.done.letters.at(position.letter).letter
    }

    /// A node serves the head of a name's queue.
    pub(crate) fn serve(&mut self, node: NodeNo, name: Name) -> Result<(), NoMemory>
        requires { (p : Point) × MayTurn p self.old (choice.Serve node name) }
        ensures ok { (p : Point) → MayTurn p self.old (choice.Serve node name) → OnOk result (Turned p self.new) }
        ensures err { (p : Point) → MayTurn p self.old (choice.Serve node name) → OnErr result (Halted p self.new) }
        ensures generator { self.new.generator ≡ self.old.generator }
        ensures budget { self.new.budget ≡ self.old.budget }
    {
        self.event(node, Input::Serve(name))?;
        self.post(node)
    }

    /// A node tries its next command. Its line, where it prints one, goes to the text.
    pub(crate) fn try_command(&mut self, order: Order) -> Result<(), NoMemory>
        requires { (p : Point) × MayTurn p self.old (choice.Try order) × IsNextOrder p order }
        ensures ok { (p : Point) → MayTurn p self.old (choice.Try order) → IsNextOrder p order → OnOk result (Turned p self.new) }
        ensures err { (p : Point) → MayTurn p self.old (choice.Try order) → IsNextOrder p order → OnErr result (Halted p self.new) }
        ensures generator { self.new.generator ≡ self.old.generator }
        ensures budget { self.new.budget ≡ self.old.budget }
    {
        self.text.reserve(LONGEST_LINE)?;
        self.event(order.node, Input::Do(order.command))?;
        self.note(order);
        self.post(order.node)
    }

    /// What came of a command, whose event is the last: it waits, or it is completed. Its line goes to the text, for
    /// which there is room.
    fn note(&mut self, order: Order)
        requires { CanNote self.old order }
        ensures { Notes self.old order self.new }
    {
        let answer = self.history[self.history.len() - 1].done.answer;
        self.seats[usize::from(order.node.get())].answered(&answer);
        if let Some(shown) = printed(&order.command, &answer) {
            self.print(order, &shown);
        }
    }

    /// Adds a line to the text, for which there is room.
    fn print(&mut self, order: Order, shown: &Shown)
        requires room { string_len self.old.text + 96 ≤ string_capacity self.old.text }
        ensures text { string_bytes self.new.text ≡ string_bytes self.old.text ++ line_text order.node order.line shown.now }
        ensures rest { self.new ≡ record self.old { text = self.new.text } }
    {
        let line = shown_line(order.node, order.line, shown);
        let pushed = self.text.push_str(line.as_str()).is_ok();
        prove!(pushed);
    }
}

/// The letters of an event that a node made come into flight.
#[inline(always)]
fn send(
    lanes: &mut Lanes<Position>,
    node: NodeNo,
    event: usize,
    letters: &[Sending],
) -> Result<(), NoMemory>
    ensures { OnOk result (Sends lanes.old node event letters.now lanes.new) }
{
    for (letter, sending) in letters.iter().enumerate() {
        lanes.push(node, sending.to, Position { event, letter })?;
    }
    Ok(())
}

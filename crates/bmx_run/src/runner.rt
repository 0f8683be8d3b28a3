//! A run from its opening to its end: it owns nodes, letters, history and text, and nothing else changes them.
ghost use Rattle.std.specs.Prelude.{◌≡◌, ℕ, ◌<◌, ◌≤◌, ◌^◌, List, [], length, Contains, IfOk};
ghost use Rattle.bmx_memory.specs.Meaning.{MeansWhole};
ghost use Rattle.bmx_node.specs.Stamped.{Stamped};
ghost use Rattle.bmx_protocol.specs.Runs.Programs.{stages};
ghost use Rattle.bmx_script.specs.Grammar.{AreScript};
ghost use Rattle.bmx_world.specs.Scripts.{body_of};
ghost use Rattle.bmx_world.specs.Runs.{IsRunOf, IsEnd};
ghost use Rattle.bmx_run.specs.Inside.Running.{IsBetween};
ghost use Rattle.bmx_run.specs.Inside.Phases.{IsRun, Walk, ComesTo, Obeys, Gives};
ghost use Rattle.bmx_script.specs.declared.lines.Line.{Line};

use crate::seats::{Order, Seat};
use bmx_lanes::Lanes;
use bmx_node::Node;
use bmx_protocol::Event;
use bmx_script::{Line, LineKind, Script};
use bmx_types::{Items, NoMemory, NodeNo, Text};
use bmx_world::{Run, RunEnd, opening};
use rand_core::SeedableRng;
use rand_pcg::Lcg64Xsh32;
use std::alloc::Global;
use std::marker::Model;

/// Where a letter stands in a history: the event that issued it, and which of its letters it is, both from 0.
#[derive(Clone, Copy, Debug)]
pub(crate) struct Position {
    pub(crate) event: usize,
    pub(crate) letter: usize,
}

impl Model for Position {
    ghost use Rattle.std.specs.Prelude.{ℕ};

    ghost Value = { ℕ × ℕ };

    ghost view = { λ p. (p.event, p.letter) };

    ghost inverse = { λ p. record { event = p.0; letter = p.1 } };
}

/// A run so far.
#[derive(Drop)]
pub(crate) struct Runner {
    pub(crate) alloc: Global,
    pub(crate) nodes: Vec<Node>,
    /// What each node has to do in the phase.
    pub(crate) seats: Vec<Seat>,
    /// The letters in flight.
    pub(crate) lanes: Lanes<Position>,
    pub(crate) generator: Lcg64Xsh32,
    pub(crate) history: Vec<Event>,
    pub(crate) text: String,
    /// How many events there may be.
    pub(crate) budget: u64,
}

/// Runs a script on its nodes by the turns of a seed, for as many events as the budget says. An Err comes only
/// before the nodes are opened; a run that finds no memory later ends there, with its whole events. An event costs
/// what its step costs, and a look at each node.
pub fn run_script(
    alloc: Global,
    script: Script,
    seed: u64,
    budget: u64,
) -> Result<(Run, RunEnd), NoMemory>
    requires { budget < 2 ^ 55 }
    ensures run { IfOk result (λ r. IsRunOf script seed r.0) }
    ensures end { IfOk result (λ r. IsEnd script budget r.0.history r.1) }
    ensures few { IfOk result (λ r. length r.0.history ≤ budget) }
{
    let mut runner = Runner::open(alloc, &script, seed, budget)?;
    let end = runner.run(script.lines().as_slice());
    look_at(runner.nodes.as_slice());
    let Runner {
        nodes,
        history,
        text,
        ..
    } = runner;
    let run = Run {
        script,
        history: Items::from_vec(history),
        nodes: Items::from_vec(nodes),
        text: Text::from_string(text),
    };
    Ok((run, end))
}

/// Each word at one of the nodes means what it should. It only looks at them.
fn look_at(nodes: &[Node])
    ensures { (d : Stamped) → Contains nodes.now d → MeansWhole d.holdings.memory }
{
    for node in nodes {
        let _memory = node.memory();
    }
}

impl Runner {
    /// A run of a script with no event: its nodes as they open.
    fn open(alloc: Global, script: &Script, seed: u64, budget: u64) -> Result<Runner, NoMemory>
        requires { budget < 2 ^ 55 }
        ensures budget { IfOk result (λ r. r.budget ≡ budget) }
        ensures opens { IfOk result (λ r. IsBetween script.now seed [] [] (stages (body_of script.now)) r) }
    {
        let opening = opening(alloc, script)?;
        let mut nodes = Vec::new(alloc);
        let mut seats = Vec::new(alloc);
        for number in 0..opening.nodes {
            nodes.push(Node::open(alloc, node_no(number), &opening)?)?;
            seats.push(Seat::new(alloc))?;
        }
        Ok(Runner {
            alloc,
            nodes,
            seats,
            lanes: Lanes::new(alloc)?,
            generator: Lcg64Xsh32::seed_from_u64(seed),
            history: no_events(alloc, script.lines().len()),
            text: String::new(alloc),
            budget,
        })
    }

    /// Runs the phases of the lines, one after another.
    fn run(&mut self, lines: &[Line]) -> RunEnd
        requires script { AreScript lines.now }
        requires start { (seed : ℕ) × IsBetween lines.now seed [] [] (stages (body_of lines.now)) self.old }
        ensures ends { (seed : ℕ) → IsBetween lines.now seed [] [] (stages (body_of lines.now)) self.old → IsRun lines.now seed self.old.budget result self.new }
        ensures budget { self.new.budget ≡ self.old.budget }
    {
        for line in lines {
            match self.obey(line) {
                RunEnd::Ended => {}
                end => return end,
            }
        }
        self.phase(false)
    }

    /// Does what a line asks: gives a command to its node, or runs a phase to its end.
    fn obey(&mut self, line: &Line) -> RunEnd
        requires { (w : Walk) × ComesTo w line.now self.old }
        ensures obeys { (w : Walk) → ComesTo w line.now self.old → Obeys w result self.new }
        ensures budget { self.new.budget ≡ self.old.budget }
    {
        match &line.what {
            LineKind::Do { node, command } => {
                let order = Order {
                    node: *node,
                    line: line.number,
                    command: *command,
                };
                self.give(order)
            }
            LineKind::Phase => self.phase(false),
            LineKind::Quiet => self.phase(true),
            _ => RunEnd::Ended,
        }
    }

    /// Adds a command to its node's program of the phase that comes.
    fn give(&mut self, order: Order) -> RunEnd
        requires { order.node < length self.old.seats.items }
        ensures given { Gives self.old order result self.new }
        ensures rest { self.new ≡ record self.old { seats = self.new.seats } }
    {
        match self.seats[usize::from(order.node.get())].give(order) {
            Ok(()) => RunEnd::Ended,
            Err(NoMemory) => RunEnd::NoMemory,
        }
    }
}

/// A history of no event, with room for as many as are expected. Where there is no memory for them at once, each
/// event asks for its own.
fn no_events(alloc: Global, expected: usize) -> Vec<Event>
    ensures { result.items ≡ [] }
{
    match Vec::with_capacity(alloc, expected) {
        Ok(history) => history,
        Err(_) => Vec::new(alloc),
    }
}

/// The node of a number.
pub(crate) fn node_no(number: u8) -> NodeNo
    requires { number < 8 }
    ensures { result ≡ number }
{
    NodeNo::new(number).unwrap()
}

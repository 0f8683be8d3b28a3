//! What may happen next, and which of it the seed picks. It changes nothing but the generator.
ghost use Rattle.std.specs.Prelude.{◌≡◌, ℕ, ◌<◌, ◌≤◌, ◌^◌, true, length, slice_get, Some};
ghost use Rattle.bmx_types.specs.Openings.{bunches_of};
ghost use Rattle.bmx_protocol.specs.Runs.Turns.{letter_actions, is_ready as is_ready_at, wanted_by};
ghost use Rattle.bmx_node.specs.Seen.{FitsCommand, state_of};
ghost use Rattle.bmx_protocol.specs.declared.events.Event.{Event};
ghost use Rattle.bmx_run.specs.Inside.Running.{Point, store_of, history_of, with_event, IsAt};
ghost use Rattle.bmx_run.specs.Inside.Steps.{nodes_in};
ghost use Rattle.bmx_run.specs.Inside.Picking.{Counts, MayTry, AreTries, GoOn, ServesAll, ChoosesAt, actions_at, actions_by, others_by, tries_by, tried, IsNextOrder};

use crate::runner::{Runner, node_no};
use crate::seats::Order;
use bmx_types::{Command, Name, NodeNo, Operand};

/// What a node may do next.
#[derive(Clone, Copy, Debug)]
pub(crate) enum Action {
    /// Its next command.
    Try(Order),
    /// To serve the head of a name's queue.
    Serve { node: NodeNo, name: Name },
    /// To take the next letter from a node.
    Take { node: NodeNo, from: NodeNo },
}

impl Runner {
    /// Which nodes may try their next command. A look at each node.
    pub(crate) fn tries(&self) -> [bool; 8]
        requires { (p : Point) × IsAt p self.now }
        ensures long { length result ≡ 8 }
        ensures tries { (p : Point) → IsAt p self.now → AreTries p self.now result }
    {
        let mut tries = [false; 8];
        for number in 0..self.nodes.len() {
            tries[number] = self.may_try(node_no(number as u8));
        }
        tries
    }

    /// The same behind an event: only what the event's node may try has changed.
    pub(crate) fn look_again(&self, tries: &mut [bool; 8])
        requires at { (p : Point) × (e : Event) × IsAt (with_event p e) self.now }
        requires long { length tries.old ≡ 8 }
        ensures long { length tries.new ≡ 8 }
        ensures tries { GoOn tries.old tries.new self.now }
    {
        let node = self.history[self.history.len() - 1].node;
        tries[usize::from(node.get())] = self.may_try(node);
    }

    /// How many actions are enabled, where it is known which nodes may try their next command. A look at each node.
    /// A node's count adds two lengths, and so may take more bits than they; the sum fits whatever they are.
    pub(crate) fn enabled(&self, tries: &[bool; 8]) -> u128
        requires at { (p : Point) × IsAt p self.now × AreTries p self.now tries.now }
        requires long { length tries.now ≡ 8 }
        ensures { (p : Point) → IsAt p self.now → AreTries p self.now tries.now → Counts p self.now result }
    {
        let mut total = 0;
        for number in 0..self.nodes.len() {
            total += self.count(node_no(number as u8), tries[number]);
        }
        total
    }

    /// How many actions are enabled at a node, which may try its next command or not.
    fn count(&self, node: NodeNo, may_try: bool) -> u128
        requires at { (p : Point) × IsAt p self.now }
        requires node { node < length self.now.nodes.items }
        ensures count { (p : Point) → IsAt p self.now → MayTry p self.now node may_try → result ≡ length (actions_by p self.now node) }
        ensures served { (p : Point) → IsAt p self.now → ServesAll p self.now node }
        ensures few { result < 2 ^ 66 }
    {
        let number = usize::from(node.get());
        let tries = u128::from(may_try);
        let serves = self.nodes[number].serves_count() as u128;
        let letters = self.lanes.senders(node) as u128;
        tries + serves + letters
    }

    /// Whether the node may try its next command: it has one, which doesn't wait, or waits and its token is ready.
    #[inline(always)]
    fn may_try(&self, node: NodeNo) -> bool
        requires at { (p : Point) × IsAt p self.now }
        requires node { node < length self.now.nodes.items }
        ensures { (p : Point) → IsAt p self.now → MayTry p self.now node result }
    {
        let seat = &self.seats[usize::from(node.get())];
        match seat.next() {
            Some(order) => !seat.waits || self.is_ready(node, &order.command),
            None => false,
        }
    }

    /// The next command of a node that may try it.
    fn order(&self, node: NodeNo) -> Order
        requires at { (p : Point) × IsAt p self.now × MayTry p self.now node true }
        requires node { node < length self.now.nodes.items }
        ensures tried { (p : Point) → IsAt p self.now → MayTry p self.now node true → tries_by p self.now node ≡ tried node (Some result) }
        ensures next { (p : Point) → IsAt p self.now → IsNextOrder p result × (result.node ≡ node) }
    {
        let Some(order) = self.seats[usize::from(node.get())].next() else {
            unreachable!()
        };
        *order
    }

    /// Whether the token that a command takes is ready at a node.
    fn is_ready(&self, node: NodeNo, command: &Command) -> bool
        requires at { (p : Point) × IsAt p self.now × FitsCommand (bunches_of (store_of p).births) command.now }
        requires node { node < length self.now.nodes.items }
        ensures { (p : Point) → IsAt p self.now → result ≡ is_ready_at node (nodes_in (store_of p) self.now.nodes.items node).state command.now }
    {
        let Some(on) = taken_by(command) else {
            return false;
        };
        let node = &self.nodes[usize::from(node.get())];
        match node.target(on) {
            Some(name) => node.is_ready(name),
            None => false,
        }
    }

    /// The action of a place, from 0, among those that are enabled: by node, and at a node its command, its serves
    /// by rising name, its letters by rising sender.
    pub(crate) fn pick(&self, tries: &[bool; 8], place: usize) -> Action
        requires at { (p : Point) × IsAt p self.now × AreTries p self.now tries.now × (place < length (actions_at p self.now)) }
        requires long { length tries.now ≡ 8 }
        ensures { (p : Point) → IsAt p self.now → AreTries p self.now tries.now → ChoosesAt p (actions_at p self.now) place result }
    {
        let mut place = place;
        for number in 0..self.nodes.len() {
            let node = node_no(number as u8);
            let count = self.count(node, tries[number]);
            if (place as u128) < count {
                return self.action(node, tries[number], place);
            }
            place -= count as usize;
        }
        unreachable!()
    }

    /// The action of a place among those of a node, which may try its next command or not.
    fn action(&self, node: NodeNo, may_try: bool, place: usize) -> Action
        requires at { (p : Point) × IsAt p self.now × MayTry p self.now node may_try × (place < length (actions_by p self.now node)) }
        requires node { node < length self.now.nodes.items }
        ensures { (p : Point) → IsAt p self.now → MayTry p self.now node may_try → ChoosesAt p (actions_by p self.now node) place result }
    {
        if !may_try {
            return self.serve_or_take(node, place);
        }
        if place == 0 {
            return Action::Try(self.order(node));
        }
        self.serve_or_take(node, place - 1)
    }

    /// The action of a place among the serves and the letters of a node.
    fn serve_or_take(&self, node: NodeNo, place: usize) -> Action
        requires at { (p : Point) × IsAt p self.now × (place < length (others_by p self.now node)) }
        requires node { node < length self.now.nodes.items }
        ensures { (p : Point) → IsAt p self.now → ChoosesAt p (others_by p self.now node) place result }
    {
        let server = &self.nodes[usize::from(node.get())];
        match server.serves(place as u64) {
            Some(name) => Action::Serve { node, name },
            None => self.next_letter(node, place - server.serves_count()),
        }
    }

    /// The next letter of a place among those of the senders that have one for a node.
    fn next_letter(&self, node: NodeNo, place: usize) -> Action
        requires at { (p : Point) × IsAt p self.now × (place < length (letter_actions (history_of p) node (store_of p).nodes)) }
        ensures { (p : Point) → IsAt p self.now → ChoosesAt p (letter_actions (history_of p) node (store_of p).nodes) place result }
    {
        let mut place = place;
        for number in 0..self.nodes.len() {
            let from = node_no(number as u8);
            if self.lanes.first(from, node).is_some() {
                if place == 0 {
                    return Action::Take { node, from };
                }
                place -= 1;
            }
        }
        unreachable!()
    }
}

/// The operand of a command that takes a token.
fn taken_by(command: &Command) -> Option<Operand>
    ensures { result ≡ wanted_by command.now }
{
    match command {
        Command::Read { on } | Command::Write { on } => Some(*on),
        Command::New { .. }
        | Command::Copy { .. }
        | Command::Drop { .. }
        | Command::Done { .. }
        | Command::Set { .. }
        | Command::Add { .. }
        | Command::Get { .. }
        | Command::Show { .. }
        | Command::Same { .. } => None,
    }
}

//! A phase: event after event, until its commands are done and, where it asks so, no letter is on its way.
ghost use Rattle.std.specs.Prelude.{◌≡◌, ◌+◌, ◌<◌, ◌%◌, length, IsTrue, ◌↔◌, OnOk, OnErr};
ghost use Rattle.bmx_protocol.specs.Runs.Programs.{DoesStage};
ghost use Rattle.bmx_run.specs.Inside.Running.{Point, store_of, history_of, IsAt, Draws, Turned, Halted};
ghost use Rattle.bmx_run.specs.Inside.Picking.{Counts};
ghost use Rattle.bmx_run.specs.Inside.Phases.{Starts, AfterPhase, AreCompleted, AreCleared, MayGoOn};

use crate::actions::Action;
use crate::runner::Runner;
use bmx_types::NoMemory;
use bmx_world::RunEnd;
use rand_core::utils::NextWord;

impl Runner {
    /// Runs a phase to its end, as soon as that comes: all programs are completed and, where it ends quietly, no
    /// letter is in flight and nothing can be served. Behind it a new phase begins, with no command yet.
    pub(crate) fn phase(&mut self, quiet: bool) -> RunEnd
        requires { (p : Point) × Starts p quiet self.old }
        ensures comes { (p : Point) → Starts p quiet self.old → AfterPhase p result self.new }
        ensures budget { self.new.budget ≡ self.old.budget }
    {
        let mut tries = self.tries();
        loop {
            let enabled = self.enabled(&tries);
            if self.is_done(quiet, enabled) {
                self.clear();
                return RunEnd::Ended;
            }
            if enabled == 0 {
                return RunEnd::Stuck;
            }
            if self.history.len() as u64 == self.budget {
                return RunEnd::Spent;
            }
            match self.turn(&tries, enabled) {
                Ok(()) => self.look_again(&mut tries),
                Err(NoMemory) => return RunEnd::NoMemory,
            }
        }
    }

    /// Whether the phase is done, where so many actions are enabled.
    fn is_done(&self, quiet: bool, enabled: u128) -> bool
        ensures { (p : Point) → IsAt p self.now → p.stage.quiet ≡ quiet → Counts p self.now enabled → IsTrue result ↔ DoesStage (store_of p) p.past p.stage p.part }
    {
        self.is_completed() && !(quiet && enabled > 0)
    }

    /// Whether each node has completed its program of the phase.
    fn is_completed(&self) -> bool
        ensures { (p : Point) → IsAt p self.now → IsTrue result ↔ AreCompleted p }
    {
        self.seats.iter().all(|seat| seat.next().is_none())
    }

    /// Begins a new phase, with no command yet.
    fn clear(&mut self)
        ensures seats { AreCleared self.old.seats.items self.new.seats.items }
        ensures rest { self.new ≡ record self.old { seats = self.new.seats } }
    {
        for seat in self.seats.iter_mut() {
            seat.clear();
        }
    }

    /// Does the action that the generator's next word picks, of so many.
    fn turn(&mut self, tries: &[bool; 8], enabled: u128) -> Result<(), NoMemory>
        requires may { (p : Point) × MayGoOn p self.old tries.now enabled }
        requires long { length tries.now ≡ 8 }
        ensures ok { (p : Point) → MayGoOn p self.old tries.now enabled → OnOk result (Turned p self.new × Draws p.seed (length (history_of p) + 1) self.new) }
        ensures err { (p : Point) → MayGoOn p self.old tries.now enabled → OnErr result (Halted p self.new) }
        ensures budget { self.new.budget ≡ self.old.budget }
    {
        let word = self.generator.next_word();
        match self.pick(tries, place_of(word, enabled)) {
            Action::Try(order) => self.try_command(order),
            Action::Serve { node, name } => self.serve(node, name),
            Action::Take { node, from } => self.take(node, from),
        }
    }
}

/// The place that a word picks among so many.
fn place_of(word: u32, count: u128) -> usize
    requires { 0 < count }
    ensures { result ≡ word % count }
{
    match u64::try_from(count) {
        Ok(count) => (u64::from(word) % count) as usize,
        Err(_) => word as usize,
    }
}

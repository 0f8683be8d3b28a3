//! How runs of programs grow, by one event and by one phase: what a run that is made event after event is, when
//! it is at its end, and when it is stuck. It has definitions and laws alone.
#![tactic(auto)]

mod laws;

pub use laws::{
    crossed_writers_are_stuck, serial_ends_first, serial_follows_its_script, stuck_ends_turns,
    stuck_runs_not,
};

//! Scripts: programs of commands for the nodes of a store, read from bytes and printed.
#![tactic(auto)]

mod knowledge;
mod laws;
mod lines;
mod printing;
mod reading;
mod scripts;
mod spelling;
#[cfg(test)]
mod tests;

pub use knowledge::Knowledge;
pub use laws::{prefix_is_enough, reading_is_determined};
pub use lines::{Bad, BadCause, BunchWords, Fate, Line, LineKind, Lines};
pub use printing::{Shown, ShownLine, print_line, shown_line};
pub use scripts::{Script, ScriptError, read_script};
pub use spelling::print_script;

//! The store of objects as a program: reads a script, runs it and prints what it shows.
#![tactic(auto)]

#[cfg(test)]
mod tests;
mod top;
mod words;

use bmx_outside::{StdSink, StdSource};
use bmx_world::{Outcome, Status};
use std::mem::forget;
use top::bmx;
use words::given_words;

/// Runs the script on standard input and writes what it shows to standard output. The status that is
/// returned tells its line on standard error, and gives the exit code.
fn main(rt: HostRuntime) -> Status {
    let Ok(words) = given_words(&rt) else {
        return Status::NoMemory;
    };
    let mut source = StdSource::new(rt.stdin());
    let mut sink = StdSink::new(rt.stdout());
    let Outcome { status, run } = bmx(rt.alloc(), words.as_slice(), &mut source, &mut sink);
    // The process ends: to free each letter of the history by itself would take a twentieth of the run.
    forget(run);
    status
}

//! The store as a library: two nodes in one program, which carries their letters itself, and a line for each thing
//! that a user would look at. `docs/EMBEDDING.md` goes through it.
#![tactic(auto)]

mod failures;
mod nodes;
mod opening;
mod store;
mod story;
mod words;

use failures::Failure;
use nodes::Nodes;
use std::alloc::Global;
use std::process::ExitCode;
use store::Store;
use story::tell;

/// Opens the two nodes and tells the story. A failure is told on standard error, and has its exit code.
fn main(rt: HostRuntime) -> ExitCode {
    match run(&rt, rt.alloc()) {
        Ok(()) => ExitCode::SUCCESS,
        Err(failure) => {
            let _ = eprintln!(rt; "embedding: {failure}");
            ExitCode::from(failure.code())
        }
    }
}

fn run(rt: &impl Print, alloc: Global) -> Result<(), Failure> {
    let nodes = Nodes::open(alloc)?;
    let mut store = Store::new(alloc, nodes);
    tell(rt, &mut store)
}

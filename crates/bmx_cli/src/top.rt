//! The top call: what is asked is read, run and written, and every end has its cause.
ghost use Rattle.std.specs.Prelude.{◌≡◌, ◌≤◌, ◌<◌, map, length, string_bytes, OnOk, OnErr, IsErrOf, IsSome, None, Some};
ghost use Rattle.std.specs.Io.KnownBytes.{Appends};
ghost use Rattle.bmx_outside.specs.Faults.{Rose};
ghost use Rattle.bmx_outside.specs.Streams.{AppendsPart};
ghost use Rattle.bmx_cli.specs.Words.{misfit_in};
ghost use Rattle.bmx_cli.specs.Top.{Explains};
ghost use Rattle.bmx_cli.specs.Inside.Writing.{Ends, status_after as status_after_lem};

use crate::words::misfit;
use bmx_outside::{ReadError, Sink, SinkError, Source, read_to_limit, write_all};
use bmx_run::run_script;
use bmx_script::{ScriptError, read_script};
use bmx_world::{Outcome, Run, RunEnd, Status, has_refusal};
use memchr::memchr;
use std::alloc::Global;

/// How many bytes of a script are read at most: one more than a script may have.
const READ_LIMIT: usize = (1 << 20) + 1;

/// The seed and the budget of a run.
const SEED: u64 = 0;

const BUDGET: u64 = 1_000_000;

/// Does what the words of the command line ask: reads a script from the source, runs it, and writes what
/// it shows to the sink, line by line.
pub fn bmx<S: Source, K: Sink>(
    alloc: Global,
    words: &[String],
    source: &mut S,
    sink: &mut K,
) -> Outcome
    ensures explained { Explains (record {
      words = map string_bytes words.now;
      source = record { before = S.left source.old; behind = S.left source.new; faults_before = S.faults source.old; faults_behind = S.faults source.new };
      sink = record { before = K.out sink.old; behind = K.out sink.new; faults_before = K.faults sink.old; faults_behind = K.faults sink.new };
    }) result.status result.run }
    // Nothing is read, and nothing is written.
    ensures wrong_words { IsSome (misfit_in (map string_bytes words.now)) → (source.new ≡ source.old) × (sink.new ≡ sink.old) }
{
    if let Some(word) = misfit(words) {
        return refused(Status::Usage(word));
    }
    let bytes = match read_to_limit(alloc, source, READ_LIMIT) {
        Ok(bytes) => bytes,
        Err(ReadError::Failed) => return refused(Status::ReadFault),
        Err(ReadError::NoMemory) => return refused(Status::NoMemory),
    };
    let script = match read_script(alloc, bytes.as_slice()) {
        Ok(script) => script,
        Err(ScriptError::Bad(bad)) => return refused(Status::BadScript(bad)),
        Err(ScriptError::NoMemory) => return refused(Status::NoMemory),
    };
    match run_script(alloc, script, SEED, BUDGET) {
        Ok((run, end)) => written(sink, run, end),
        Err(_) => refused(Status::NoMemory),
    }
}

/// An answer with no run.
fn refused(status: Status) -> Outcome
    ensures { (result.status ≡ status) × (result.run ≡ None) }
{
    Outcome { status, run: None }
}

/// Writes the text of a run, and tells how the program ends.
fn written<K: Sink>(sink: &mut K, run: Run, end: RunEnd) -> Outcome
    ensures run { result.run ≡ Some run }
    ensures status { Ends run end (record { before = K.out sink.old; behind = K.out sink.new; faults_before = K.faults sink.old; faults_behind = K.faults sink.new }) result.status }
{
    let wrote = write_lines(sink, run.text.as_bytes());
    let status = status_after(end, wrote, has_refusal(&run.history));
    Outcome {
        status,
        run: Some(run),
    }
}

/// How the program ends: by how the run ended, how its text was written, and whether a command was refused.
fn status_after(end: RunEnd, wrote: Result<(), SinkError>, refused: bool) -> Status
    ensures { result ≡ status_after_lem end wrote refused }
{
    match (end, wrote) {
        (RunEnd::NoMemory, _) | (_, Err(SinkError::NoMemory)) => Status::NoMemory,
        (RunEnd::Stuck, _) => Status::Stuck,
        (RunEnd::Spent, _) => Status::Spent,
        (RunEnd::Ended, Ok(())) => {
            if refused {
                Status::SomeRefused
            } else {
                Status::Done
            }
        }
        (RunEnd::Ended, Err(SinkError::Failed)) => Status::WriteFault,
    }
}

/// Writes a text line by line, each write offering what is left of the line.
fn write_lines<K: Sink>(sink: &mut K, text: &[u8]) -> Result<(), SinkError>
    ensures ok { OnOk result (Appends (K.out sink.old) (K.out sink.new) text.now) }
    ensures err { OnErr result (AppendsPart (K.out sink.old) (K.out sink.new) text.now) }
    ensures failed { IsErrOf result SinkError.Failed → Rose (K.faults sink.old) (K.faults sink.new) }
    ensures faults { K.faults sink.old ≤ K.faults sink.new }
{
    let mut rest = text;
    while !rest.is_empty() {
        let end = first_line(rest);
        write_all(sink, &rest[..end])?;
        rest = &rest[end..];
    }
    Ok(())
}

/// Where the first line of a text ends: behind its line feed, or with the text.
fn first_line(text: &[u8]) -> usize
    requires { 0 < length text.now }
    ensures { (0 < result) × (result ≤ length text.now) }
{
    match memchr(b'\n', text) {
        Some(at) => at + 1,
        None => text.len(),
    }
}

//! The program from and to memory, where one call of its source or its sink fails.
use crate::top::bmx;
use bmx_outside::{Calls, MemSink, MemSource, NoFaultSink, NoFaultSource, Sink, Source};
use bmx_types::NoMemory;
use bmx_world::{Outcome, Status};
use std::alloc::Global;
use std::test::Fail;

/// Node 1 finds what node 0 made, by way of the anchor. It has 216 bytes.
const READER: &str =
    "bmx 1\nnodes 2\nbunch main\n0 new r0 main 1\n0 write r0\n0 set r0 0 42\n0 done r0\n0 write @main\n0 set @main 0 r0\n0 done @main\nphase\n1 read @main\n1 get r0 @main 0\n1 show @main 0\n1 done @main\n1 read r0\n1 show r0 0\n1 done r0\n";

/// Node 1 waits for what node 0 doesn't give back.
const STUCK: &str =
    "bmx 1\nnodes 2\nbunch main\n0 write @main\n0 show @main 0\nphase\n1 write @main\n";

/// The status of a run, by which the tests know nothing else of it.
fn status_of<S: Source, K: Sink>(
    alloc: Global,
    source: &mut S,
    sink: &mut K,
) -> Result<Status, NoMemory> {
    let mut words = Vec::new(alloc);
    words.push(String::from_str(alloc, "run")?)?;
    let Outcome { status, .. } = bmx(alloc, words.as_slice(), source, sink);
    Ok(status)
}

/// The status of a script's run whose sink fails at one of its writes, where it writes this text.
fn status_with_fault(
    alloc: Global,
    script: &str,
    fault: u64,
    text: &str,
) -> Result<Option<Status>, NoMemory> {
    let mut fails = Calls::new(alloc);
    fails.push(fault)?;
    let mut source = NoFaultSource::new(alloc, script.as_bytes(), 100)?;
    let mut sink = MemSink::new(alloc, 100, fails)?;
    let status = status_of(alloc, &mut source, &mut sink)?;
    Ok((sink.out() == text.as_bytes()).then_some(status))
}

/// The status of a script's run whose source fails at one of its reads of 40 bytes.
fn status_after_fault(alloc: Global, script: &str, fault: u64) -> Result<Status, NoMemory> {
    let mut fails = Calls::new(alloc);
    fails.push(fault)?;
    let mut source = MemSource::new(alloc, script.as_bytes(), 40, fails)?;
    let mut sink = NoFaultSink::new(alloc, 100)?;
    status_of(alloc, &mut source, &mut sink)
}

#[test]
fn a_sink_that_fails(rt: HostRuntime) -> Result<(), Fail> {
    for (script, fault, text, status) in [
        (READER, 1, "", Status::WriteFault),
        (READER, 2, "1 14 0.2\n", Status::WriteFault),
        (READER, 3, "1 14 0.2\n1 17 42\n", Status::Done),
        (STUCK, 1, "", Status::Stuck),
        (STUCK, 2, "0 5 null\n", Status::Stuck),
    ] {
        assert_eq!(rt;
            status_with_fault(rt.alloc(), script, fault, text)?,
            Some(status),
            "write {fault}"
        );
    }
    Ok(())
}

/// The seventh read is the one that finds the end.
#[test]
fn a_source_that_fails(rt: HostRuntime) -> Result<(), Fail> {
    for (fault, status) in [
        (1, Status::ReadFault),
        (6, Status::ReadFault),
        (7, Status::ReadFault),
        (8, Status::Done),
    ] {
        assert_eq!(rt;
            status_after_fault(rt.alloc(), READER, fault)?,
            status,
            "read {fault}"
        );
    }
    Ok(())
}

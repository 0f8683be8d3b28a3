//! Devices that fail at each of their calls in turn.
ghost use Rattle.std.specs.Prelude.{◌≤◌, IfOk, None};

use crate::{
    Calls, Failed, MemSink, MemSource, NoFaultSink, NoFaultSource, ReadError, Sink, SinkError,
    Source, StdSink, StdSource, read_to_limit, write_all,
};
use bmx_types::NoMemory;
use std::alloc::Global;
use std::io;
use std::io::{ErrorKind, Read, Write};
use std::test::Fail;

fn calls(alloc: Global, numbers: &[u64]) -> Result<Calls, NoMemory> {
    let mut calls = Calls::new(alloc);
    for number in numbers {
        calls.push(*number)?;
    }
    Ok(calls)
}

#[test]
fn memory_source_gives_pieces_and_fails_at_its_calls(rt: HostRuntime) -> Result<(), Fail> {
    let mut source = MemSource::new(rt.alloc(), b"abcdef", 4, calls(rt.alloc(), &[2, 9])?)?;
    let mut buf = [b'.'; 8];
    assert_eq!(rt; source.read(&mut buf), Ok(4));
    assert_eq!(rt; &buf[..], b"abcd....".as_slice());
    assert_eq!(rt; source.read(&mut buf), Err(Failed));
    assert_eq!(rt; (source.left(), source.faults()), (b"ef".as_slice(), 1));
    let mut byte = [b'.'];
    assert_eq!(rt; source.read(&mut byte), Ok(1));
    assert_eq!(rt; source.read(&mut buf), Ok(1));
    assert_eq!(rt; source.read(&mut buf), Ok(0));
    assert_eq!(rt; source.faults(), 1);
    Ok(())
}

#[test]
fn memory_sink_takes_pieces_and_fails_at_its_calls(rt: HostRuntime) -> Result<(), Fail> {
    let mut sink = MemSink::new(rt.alloc(), 4, calls(rt.alloc(), &[2, 3])?)?;
    assert_eq!(rt; sink.write(b"abcdef"), Ok(4));
    assert_eq!(rt; sink.write(b"ef"), Err(SinkError::Failed));
    assert_eq!(rt; sink.write(b"ef"), Err(SinkError::Failed));
    assert_eq!(rt; (sink.out(), sink.faults()), (b"abcd".as_slice(), 2));
    assert_eq!(rt; sink.write(b"ef"), Ok(2));
    assert_eq!(rt; (sink.out(), sink.faults()), (b"abcdef".as_slice(), 2));
    Ok(())
}

#[test]
fn reading_to_a_limit(rt: HostRuntime) -> Result<(), Fail> {
    // the limit, the most bytes of one read, what is read and what is left
    for (limit, most, read, left) in [
        (100, 100, b"abcdef".as_slice(), b"".as_slice()),
        (100, 1, b"abcdef", b""),
        (6, 4, b"abcdef", b""),
        (5, 4, b"abcde", b"f"),
        (1, 4, b"a", b"bcdef"),
        (0, 4, b"", b"abcdef"),
    ] {
        assert!(rt; 0 < most);
        let mut source = NoFaultSource::new(rt.alloc(), b"abcdef", most)?;
        let bytes = read_to_limit(rt.alloc(), &mut source, limit).expect(&rt, "memory");
        assert_eq!(rt; bytes.as_slice(), read, "at limit {limit}");
        assert_eq!(rt; source.left(), left, "at limit {limit}");
    }
    Ok(())
}

#[test]
fn a_source_failing_at_each_call_in_turn(rt: HostRuntime) -> Result<(), Fail> {
    // three reads of at most two bytes and one at the end of the input: what is left by a fault at each
    for (fault, left) in [
        (1, b"abcdef".as_slice()),
        (2, b"cdef"),
        (3, b"ef"),
        (4, b""),
    ] {
        let mut source = MemSource::new(rt.alloc(), b"abcdef", 2, calls(rt.alloc(), &[fault])?)?;
        let failed = read_to_limit(rt.alloc(), &mut source, 100);
        assert_eq!(rt; failed.err(), Some(ReadError::Failed), "at {fault}");
        assert_eq!(rt; (source.left(), source.faults()), (left, 1), "at {fault}");
        let rest = read_to_limit(rt.alloc(), &mut source, 100).expect(&rt, "memory");
        assert_eq!(rt; rest.as_slice(), left, "after {fault}");
    }
    Ok(())
}

#[test]
fn a_long_input(rt: HostRuntime) -> Result<(), Fail> {
    // more than is asked for at once: each byte is read once and in order
    let mut long = Vec::new(rt.alloc());
    for place in 0..10_000u32 {
        long.push((place % 251) as u8)?;
    }
    for limit in [4_096, 4_097, 9_999, 10_000, 20_000] {
        let mut source = NoFaultSource::new(rt.alloc(), long.as_slice(), 20_000)?;
        let bytes = read_to_limit(rt.alloc(), &mut source, limit).expect(&rt, "memory");
        assert_eq!(rt; bytes.as_slice(), &long[..limit.min(long.len())]);
    }
    Ok(())
}

#[test]
fn writing_all_of_a_text(rt: HostRuntime) -> Result<(), Fail> {
    let mut sink = NoFaultSink::new(rt.alloc(), 4)?;
    assert_eq!(rt; write_all(&mut sink, b"first line\n"), Ok(()));
    assert_eq!(rt; write_all(&mut sink, b""), Ok(()));
    assert_eq!(rt; sink.out(), b"first line\n".as_slice());

    Ok(())
}

#[test]
fn a_sink_failing_at_each_call_in_turn(rt: HostRuntime) -> Result<(), Fail> {
    // three writes of at most four bytes: what is out by a fault at each
    for (fault, out) in [(1, b"".as_slice()), (2, b"firs"), (3, b"first li")] {
        let mut sink = MemSink::new(rt.alloc(), 4, calls(rt.alloc(), &[fault])?)?;
        assert_eq!(rt; write_all(&mut sink, b""), Ok(()));
        assert_eq!(rt;
            write_all(&mut sink, b"first line\n"),
            Err(SinkError::Failed),
            "at {fault}"
        );
        assert_eq!(rt; (sink.out(), sink.faults()), (out, 1), "at {fault}");
    }
    Ok(())
}

/// A sink that takes no byte at its second write, and one at each other.
#[derive(Drop)]
struct Stubborn {
    writes: u64,
    faults: u64,
}

impl Sink for Stubborn {
    ghost out = { λ _. None };

    ghost faults = { λ s. s.faults };

    fn write(&mut self, _piece: &[u8]) -> Result<usize, SinkError> {
        self.writes = self.writes.saturating_add(1);
        if self.writes == 2 {
            self.faults = self.faults.saturating_add(1);
            return Ok(0);
        }
        Ok(1)
    }
}

#[test]
fn a_sink_that_takes_no_byte_has_failed(rt: HostRuntime) {
    let mut sink = Stubborn {
        writes: 0,
        faults: 0,
    };
    assert_eq!(rt; write_all(&mut sink, b"abc"), Err(SinkError::Failed));
    assert_eq!(rt; (sink.writes, sink.faults), (2, 1));
}

// It fails at every second call, and gives or takes one byte at the others, up to a third.
#[derive(Drop)]
struct Flaky {
    calls: u64,
}

impl Flaky {
    fn turn(&mut self) -> io::Result<usize>
        ensures { IfOk result (λ n. n ≤ 1) }
    {
        self.calls = self.calls.saturating_add(1);
        match self.calls {
            2 | 4 => Err(io::Error::from(ErrorKind::BrokenPipe)),
            5 => Ok(0),
            _ => Ok(1),
        }
    }
}

impl Read for Flaky {
    fn read(&mut self, buf: &mut [u8]) -> io::Result<usize> {
        let count = self.turn()?;
        if buf.is_empty() {
            return Ok(0);
        }
        buf[0] = b'x';
        Ok(count)
    }
}

impl Write for Flaky {
    fn write(&mut self, buf: &[u8]) -> io::Result<usize> {
        let count = self.turn()?;
        Ok(count.min(buf.len()))
    }

    fn flush(&mut self) -> io::Result<()> {
        Ok(())
    }
}

#[test]
fn a_reader_as_a_source(rt: HostRuntime) -> Result<(), Fail> {
    let mut source = StdSource::new(b"abc".as_slice());
    let bytes = read_to_limit(rt.alloc(), &mut source, 100).expect(&rt, "memory");
    assert_eq!(rt; (bytes.as_slice(), source.faults()), (b"abc".as_slice(), 0));

    let mut source = StdSource::new(Flaky { calls: 0 });
    let mut buf = [b'.'; 2];
    for (answer, faults) in [
        (Ok(1), 0),
        (Err(Failed), 1),
        (Ok(1), 1),
        (Err(Failed), 2),
        (Ok(0), 2),
    ] {
        assert_eq!(rt; source.read(&mut buf), answer);
        assert_eq!(rt; source.faults(), faults);
    }
    assert_eq!(rt; &buf[..], b"x.".as_slice());
    Ok(())
}

#[test]
fn a_writer_as_a_sink(rt: HostRuntime) -> Result<(), Fail> {
    let mut out = Vec::new(rt.alloc());
    let mut sink = StdSink::new(&mut out);
    assert_eq!(rt; write_all(&mut sink, b"a line\n"), Ok(()));
    assert_eq!(rt; sink.faults(), 0);
    drop(sink);
    assert_eq!(rt; out.as_slice(), b"a line\n".as_slice());

    let mut sink = StdSink::new(Flaky { calls: 0 });
    for (answer, faults) in [
        (Ok(1), 0),
        (Err(SinkError::Failed), 1),
        (Ok(1), 1),
        (Err(SinkError::Failed), 2),
        (Err(SinkError::Failed), 3),
        (Ok(1), 3),
    ] {
        assert_eq!(rt; sink.write(b"xx"), answer);
        assert_eq!(rt; sink.faults(), faults);
    }
    Ok(())
}

#[test]
fn the_standard_streams(rt: HostRuntime) -> Result<(), Fail> {
    let mut source = StdSource::new(rt.stdin());
    let read = read_to_limit(rt.alloc(), &mut source, 1);
    assert!(rt; read.is_ok());
    let mut sink = StdSink::new(rt.stdout());
    assert_eq!(rt;
        write_all(&mut sink, b"a line of the standard output\n"),
        Ok(())
    );
    assert_eq!(rt; (source.faults(), sink.faults()), (0, 0));
    Ok(())
}

//! The streams of the system as a source and a sink. No contract tells their bytes.
ghost use Rattle.std.specs.Prelude.{◌≡◌, ◌≤◌, ◌<◌, ◌-◌, ◌^◌, length, None, IfOk, OnOk, OnErr, IfErr, IsErr};
ghost use Rattle.bmx_outside.specs.Faults.{one_more};

use crate::sinks::{Sink, SinkError};
use crate::sources::{Failed, Source};
use std::io::{Read, Write};
use std::marker::Model;

/// A reader of the system, as standard input, whose bytes no contract tells. Contracts see how many
/// of its reads failed.
#[derive(Drop)]
pub struct StdSource<R> {
    reader: R,
    faults: u64,
}

impl<R> Model for StdSource<R> {
    ghost use Rattle.std.specs.Prelude.{ℕ};

    ghost Value = { ℕ };

    ghost view = { λ s. s.faults };
}

impl<R> StdSource<R> {
    /// The reader, before its first fault.
    pub fn new(reader: R) -> Self
        ensures { result ≡ 0 }
    {
        StdSource { reader, faults: 0 }
    }

    /// How many reads failed so far, which stands still at 2^64 - 1.
    pub fn faults(&self) -> u64
        ensures { result ≡ self.now }
    {
        self.faults
    }
}

impl<R: Read> Source for StdSource<R> {
    ghost left = { λ _. None };

    ghost faults = { λ faults. faults };

    /// One read of the reader. Once the count of faults is at its end each read fails.
    fn read(&mut self, buf: &mut [u8]) -> Result<usize, Failed>
        requires { 0 < length buf.old }

        ensures count { IfOk result (λ k. k ≤ length buf.new) }
        ensures ok { OnOk result (self.new ≡ self.old) }
        ensures err { OnErr result (self.new ≡ one_more self.old) }
        ensures faults { self.old ≤ self.new }
        ensures for_good { self.old ≡ 2 ^ 64 - 1 → IsErr result }
    {
        if self.faults == u64::MAX {
            return Err(Failed);
        }
        match self.reader.read(buf) {
            Ok(count) => Ok(count),
            Err(_) => {
                self.faults += 1;
                Err(Failed)
            }
        }
    }
}

/// A writer of the system, as standard output, whose bytes no contract tells. Contracts see how many
/// of its writes failed.
#[derive(Drop)]
pub struct StdSink<W> {
    writer: W,
    faults: u64,
}

impl<W> Model for StdSink<W> {
    ghost use Rattle.std.specs.Prelude.{ℕ};

    ghost Value = { ℕ };

    ghost view = { λ s. s.faults };
}

impl<W> StdSink<W> {
    /// The writer, before its first fault.
    pub fn new(writer: W) -> Self
        ensures { result ≡ 0 }
    {
        StdSink { writer, faults: 0 }
    }

    /// How many writes failed so far, which stands still at 2^64 - 1.
    pub fn faults(&self) -> u64
        ensures { result ≡ self.now }
    {
        self.faults
    }
}

impl<W: Write> Sink for StdSink<W> {
    ghost out = { λ _. None };

    ghost faults = { λ faults. faults };

    /// One write of the writer, flushed before it is answered; that it takes no byte is a failure.
    /// Once the count of faults is at its end each write fails.
    fn write(&mut self, piece: &[u8]) -> Result<usize, SinkError>
        requires { 0 < length piece.now }

        ensures count { IfOk result (λ k. (0 < k) × (k ≤ length piece.now)) }
        ensures ok { OnOk result (self.new ≡ self.old) }
        ensures err { IfErr result (λ e. (e ≡ SinkError.Failed) × (self.new ≡ one_more self.old)) }
        ensures faults { self.old ≤ self.new }
        ensures for_good { self.old ≡ 2 ^ 64 - 1 → IsErr result }
    {
        if self.faults == u64::MAX {
            return Err(SinkError::Failed);
        }
        if let Ok(count) = self.writer.write(piece)
            && count > 0
            && self.writer.flush().is_ok()
        {
            return Ok(count);
        }
        self.faults += 1;
        Err(SinkError::Failed)
    }
}

//! Sinks in memory, for tests of what writes.
ghost use Rattle.std.specs.Prelude.{◌≡◌, ◌<◌, ◌↔◌, [], ◌++◌, length, take, Some, IfOk, IfErr, IsErrOf, IsOkAnd};
ghost use Rattle.bmx_outside.specs.Memory.{IsNextToFail, after_fault, after_success, taken_count};

use crate::plans::{Calls, FaultPlan};
use crate::sinks::{Sink, SinkError};
use bmx_types::NoMemory;
use std::alloc::Global;
use std::marker::Model;

/// A sink of bytes in memory that never fails, though it may find no room.
#[derive(Debug, Drop)]
pub struct NoFaultSink {
    out: Vec<u8>,
    most: usize,
}

impl Model for NoFaultSink {
    ghost use Rattle.std.specs.Prelude.{◌<◌};
    ghost use Rattle.bmx_outside.specs.Memory.{Output};

    ghost Value = { Output };

    ghost view = { λ s. record { out = s.out.items; most = s.most } };

    ghost invariant = { λ s. 0 < s.most };
}

impl NoFaultSink {
    /// An empty sink, of which each write takes at most `most` bytes. It takes no memory yet.
    pub fn new(alloc: Global, most: usize) -> Result<Self, NoMemory>
        requires { 0 < most }
        ensures { IsOkAnd result (λ s. s ≡ record { out = []; most = most }) }
    {
        Ok(NoFaultSink {
            out: Vec::new(alloc),
            most,
        })
    }

    /// What was written.
    pub fn out(&self) -> &[u8]
        ensures { result.now ≡ self.now.out }
    {
        self.out.as_slice()
    }
}

impl Sink for NoFaultSink {
    ghost out = { λ s. Some s.out };

    ghost faults = { λ _. 0 };

    /// Takes as many bytes as `most` allows, or none where it finds no room.
    fn write(&mut self, piece: &[u8]) -> Result<usize, SinkError>
        requires { 0 < length piece.now }

        ensures some { IfOk result (λ k. 0 < k) }
        ensures ok { IfOk result (λ k. (k ≡ taken_count self.old (length piece.now))
            × (self.new ≡ record self.old { out = self.old.out ++ take k piece.now })) }
        ensures err { IfErr result (λ e. (e ≡ SinkError.NoMemory) × (self.new ≡ self.old)) }
    {
        let count = self.most.min(piece.len());
        self.out.extend_from_slice(&piece[..count])?;
        Ok(count)
    }
}

/// A sink of bytes in memory that fails at the calls of a list.
#[derive(Debug, Drop)]
pub struct MemSink {
    sink: NoFaultSink,
    plan: FaultPlan,
}

impl Model for MemSink {
    ghost use Rattle.bmx_outside.specs.Memory.{FaultyOutput};

    ghost Value = { FaultyOutput };

    ghost view = { λ s. record { output = s.sink; plan = s.plan } };
}

impl MemSink {
    /// An empty sink, of which each write takes at most `most` bytes. The calls whose numbers,
    /// counted from 1, are in `fails` fail; none does from the number 2^64 - 1 on. A call that
    /// finds no room isn't counted.
    pub fn new(alloc: Global, most: usize, fails: Calls) -> Result<Self, NoMemory>
        requires { 0 < most }
        ensures { IsOkAnd result (λ s. s ≡ record {
          output = record { out = []; most = most };
          plan = record { fails = fails; calls = 0; faults = 0 };
        }) }
    {
        Ok(MemSink {
            sink: NoFaultSink::new(alloc, most)?,
            plan: FaultPlan::new(fails),
        })
    }

    /// What was written.
    pub fn out(&self) -> &[u8]
        ensures { result.now ≡ self.now.output.out }
    {
        self.sink.out()
    }

    /// How many writes failed so far.
    pub fn faults(&self) -> u64
        ensures { result ≡ self.now.plan.faults }
    {
        self.plan.faults()
    }
}

impl Sink for MemSink {
    ghost out = { λ s. Some s.output.out };

    ghost faults = { λ s. s.plan.faults };

    /// Fails where the plan says so, and takes no byte then. Otherwise it takes as many bytes as
    /// `most` allows, or is as before where it finds no room.
    fn write(&mut self, piece: &[u8]) -> Result<usize, SinkError>
        requires { 0 < length piece.now }

        ensures some { IfOk result (λ k. 0 < k) }
        ensures fails { IsErrOf result SinkError.Failed ↔ IsNextToFail self.old.plan }
        ensures ok { IfOk result (λ k. (k ≡ taken_count self.old.output (length piece.now))
            × (self.new ≡ record {
              output = record self.old.output { out = self.old.output.out ++ take k piece.now };
              plan = after_success self.old.plan;
            })) }
        ensures fault { IsErrOf result SinkError.Failed → self.new ≡ record self.old { plan = after_fault self.old.plan } }
        ensures no_memory { IsErrOf result SinkError.NoMemory → self.new ≡ self.old }
    {
        if self.plan.is_next_to_fail() {
            self.plan.count_fault();
            return Err(SinkError::Failed);
        }
        let count = self.sink.write(piece)?;
        self.plan.count_success();
        Ok(count)
    }
}

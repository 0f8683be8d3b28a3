//! Sources in memory, for tests of what reads.
ghost use Rattle.std.specs.Prelude.{◌≡◌, ◌≤◌, ◌<◌, ◌↔◌, length, take, drop, Some, IfOk, OnErr, IsErr, IsOkAnd};
ghost use Rattle.std.specs.Io.KnownBytes.{Consumes, IsAtEnd};
ghost use Rattle.bmx_outside.specs.Memory.{IsNextToFail, after_fault, after_success, given_count};

use crate::plans::{Calls, FaultPlan};
use crate::sources::{Failed, Source};
use bmx_types::NoMemory;
use std::alloc::Global;
use std::marker::Model;

/// A source of bytes in memory that never fails.
#[derive(Debug, Drop)]
pub struct NoFaultSource {
    bytes: Vec<u8>,
    at: usize,
    most: usize,
}

impl Model for NoFaultSource {
    ghost use Rattle.std.specs.Prelude.{◌≤◌, ◌<◌, drop, vec_len};
    ghost use Rattle.bmx_outside.specs.Memory.{Input};

    ghost Value = { Input };

    ghost view = { λ s. record { left = drop s.at s.bytes.items; most = s.most } };

    ghost invariant = { λ s. (0 < s.most) × (s.at ≤ vec_len s.bytes) };
}

impl NoFaultSource {
    /// A source of a copy of these bytes, of which each read gives at most `most`.
    pub fn new(alloc: Global, bytes: &[u8], most: usize) -> Result<Self, NoMemory>
        requires { 0 < most }
        ensures { IfOk result (λ s. s ≡ record { left = bytes.now; most = most }) }
    {
        Ok(NoFaultSource {
            bytes: Vec::from_slice(alloc, bytes)?,
            at: 0,
            most,
        })
    }

    /// The bytes still to be read.
    pub fn left(&self) -> &[u8]
        ensures { result.now ≡ self.now.left }
    {
        &self.bytes[self.at..]
    }
}

impl Source for NoFaultSource {
    ghost left = { λ s. Some s.left };

    ghost faults = { λ _. 0 };

    /// Gives as many bytes as `most`, the buffer and the bytes left allow.
    fn read(&mut self, buf: &mut [u8]) -> Result<usize, Failed>
        requires { 0 < length buf.old }

        ensures count { IfOk result (λ k. k ≤ length buf.new) }
        ensures bytes { IfOk result (λ k. Consumes (Some self.old.left) (Some self.new.left) (take k buf.new)) }
        ensures end { IfOk result (λ k. k ≡ 0 → IsAtEnd (Some self.old.left)) }
        ensures exact { IsOkAnd result (λ k. (k ≡ given_count self.old (length buf.old)) × (self.new ≡ record self.old { left = drop k self.old.left })) }
    {
        let count = self.most.min(buf.len()).min(self.bytes.len() - self.at);
        buf[..count].copy_from_slice(&self.bytes[self.at..self.at + count]);
        self.at += count;
        Ok(count)
    }
}

/// A source of bytes in memory that fails at the calls of a list.
#[derive(Debug, Drop)]
pub struct MemSource {
    source: NoFaultSource,
    plan: FaultPlan,
}

impl Model for MemSource {
    ghost use Rattle.bmx_outside.specs.Memory.{FaultyInput};

    ghost Value = { FaultyInput };

    ghost view = { λ s. record { input = s.source; plan = s.plan } };
}

impl MemSource {
    /// A source of a copy of these bytes, of which each read gives at most `most`. The calls whose
    /// numbers, counted from 1, are in `fails` fail; none does from the number 2^64 - 1 on.
    pub fn new(alloc: Global, bytes: &[u8], most: usize, fails: Calls) -> Result<Self, NoMemory>
        requires { 0 < most }
        ensures { IfOk result (λ s. s ≡ record {
          input = record { left = bytes.now; most = most };
          plan = record { fails = fails; calls = 0; faults = 0 };
        }) }
    {
        Ok(MemSource {
            source: NoFaultSource::new(alloc, bytes, most)?,
            plan: FaultPlan::new(fails),
        })
    }

    /// The bytes still to be read.
    pub fn left(&self) -> &[u8]
        ensures { result.now ≡ self.now.input.left }
    {
        self.source.left()
    }

    /// How many reads failed so far.
    pub fn faults(&self) -> u64
        ensures { result ≡ self.now.plan.faults }
    {
        self.plan.faults()
    }
}

impl Source for MemSource {
    ghost left = { λ s. Some s.input.left };

    ghost faults = { λ s. s.plan.faults };

    /// Fails where the plan says so, and gives no byte then. Otherwise it gives as many bytes as
    /// `most`, the buffer and the bytes left allow.
    fn read(&mut self, buf: &mut [u8]) -> Result<usize, Failed>
        requires { 0 < length buf.old }

        ensures count { IfOk result (λ k. k ≤ length buf.new) }
        ensures bytes { IfOk result (λ k. Consumes (Some self.old.input.left) (Some self.new.input.left) (take k buf.new)) }
        ensures end { IfOk result (λ k. k ≡ 0 → IsAtEnd (Some self.old.input.left)) }

        ensures fails { IsErr result ↔ IsNextToFail self.old.plan }
        ensures ok { IfOk result (λ k. (k ≡ given_count self.old.input (length buf.old))
            × (self.new ≡ record {
              input = record self.old.input { left = drop k self.old.input.left };
              plan = after_success self.old.plan;
            })) }
        ensures err { OnErr result (self.new ≡ record self.old { plan = after_fault self.old.plan }) }
    {
        if self.plan.is_next_to_fail() {
            self.plan.count_fault();
            return Err(Failed);
        }
        let count = self.source.read(buf)?;
        self.plan.count_success();
        Ok(count)
    }
}

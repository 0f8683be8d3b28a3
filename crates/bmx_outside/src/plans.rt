//! Which calls of a device in memory are to fail.
ghost use Rattle.std.specs.Prelude.{◌≡◌, ◌↔◌, IsTrue, []};
ghost use Rattle.bmx_outside.specs.Memory.{IsNextToFail, after_fault, after_success};

use bmx_types::Items;
use std::marker::Model;

/// The numbers of the calls that are to fail, counted from 1, in any order.
pub type Calls = Items<u64>;

/// Which calls are to fail, how many calls were made and how many of them failed.
#[derive(Debug, Drop)]
pub struct FaultPlan {
    fails: Calls,
    calls: u64,
    faults: u64,
}

impl Model for FaultPlan {
    ghost use Rattle.std.specs.Prelude.{◌≤◌};
    ghost use Rattle.bmx_outside.specs.Memory.{Plan};

    ghost Value = { Plan };

    ghost view = { λ p. record { fails = p.fails; calls = p.calls; faults = p.faults } };

    ghost invariant = { λ p. p.faults ≤ p.calls };
}

impl FaultPlan {
    /// A plan before the first call.
    pub fn new(fails: Calls) -> FaultPlan
        ensures { result ≡ record { fails = fails; calls = 0; faults = 0 } }
    {
        FaultPlan {
            fails,
            calls: 0,
            faults: 0,
        }
    }

    /// How many calls failed so far.
    pub fn faults(&self) -> u64
        ensures { result ≡ self.now.faults }
    {
        self.faults
    }

    /// Whether the next call is to fail. Linear in how many calls are listed.
    pub fn is_next_to_fail(&self) -> bool
        ensures { IsTrue result ↔ IsNextToFail self.now }
    {
        let number = self.calls.saturating_add(1);
        number < u64::MAX && self.fails.as_slice().contains(&number)
    }

    /// Counts a call that fails.
    pub fn count_fault(&mut self)
        requires { IsNextToFail self.old }
        ensures { self.new ≡ after_fault self.old }
    {
        self.calls = self.calls.saturating_add(1);
        self.faults += 1;
    }

    /// Counts a call that doesn't fail.
    pub fn count_success(&mut self)
        ensures { self.new ≡ after_success self.old }
    {
        self.calls = self.calls.saturating_add(1);
    }
}

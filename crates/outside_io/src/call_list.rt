// The calls of an object in memory: their numbers, and which of them fail.
ghost use Rattle.std.specs.Prelude.{◌≡◌, ◌↔◌, ◌<◌, ◌≤◌, ◌++◌, ◌∷◌, [], length, Some, OnOk, OnErr, IsTrue, Contains, slice_get};
ghost use Rattle.outside_io.specs.Outside.{Rises, capped_sum};
ghost use Rattle.outside_io.specs.CallCount.{FailsNext, count_after};

use crate::Memory;
use std::alloc::Global;
use std::marker::Model;

/// A list of numbers of calls, which are counted from 1.
#[derive(Drop)]
pub struct Calls {
    items: Vec<u64>,
}

impl Model for Calls {
    ghost use Rattle.std.specs.Prelude.{List, ℕ};

    ghost Value = { List ℕ };

    ghost view = { λ calls. calls.items.items };
}

impl Calls {
    pub fn new(alloc: Global) -> Calls
        ensures { result ≡ [] }
    {
        Calls {
            items: Vec::new(alloc),
        }
    }

    pub fn len(&self) -> usize
        ensures { result ≡ length self.now }
    {
        self.items.len()
    }

    pub fn item(&self, i: usize) -> &u64
        requires { i < length self.now }
        ensures { slice_get self.now i ≡ Some result.now }
    {
        &self.items[i]
    }

    /// Adds a number at the end.
    pub fn push(&mut self, x: u64) -> Result<(), Memory>
        ensures ok { OnOk result (self.new ≡ self.old ++ x ∷ []) }
        ensures err { OnErr result (self.new ≡ self.old) }
    {
        self.items.push(x)?;
        Ok(())
    }

    fn has(&self, call: u64) -> bool
        ensures { IsTrue result ↔ Contains self.now call }
    {
        self.items.contains(&call)
    }
}

/// Counts the calls and the faults of an object in memory. Both counts stop at 2^64 - 1.
#[derive(Drop)]
pub(crate) struct CallCount {
    failing: Calls,
    calls: u64,
    pub(crate) faults: u64,
}

impl CallCount {
    /// No call and no fault yet.
    pub(crate) fn new(failing: Calls) -> CallCount
        ensures { result ≡ record { failing = failing; calls = 0; faults = 0 } }
    {
        CallCount {
            failing,
            calls: 0,
            faults: 0,
        }
    }

    /// Counts a call, and a fault where the call is to fail. Says whether it is.
    pub(crate) fn next_fails(&mut self) -> bool
        ensures fails { IsTrue result ↔ FailsNext self.old }
        ensures after { self.new ≡ count_after self.old result }
        ensures faults { self.old.faults ≤ self.new.faults }
        ensures cause { IsTrue result → Rises self.old.faults self.new.faults }
    {
        self.calls = self.calls.saturating_add(1);
        let fails = self.failing.has(self.calls);
        if fails {
            self.raise();
        }
        fails
    }

    /// Counts a fault.
    pub(crate) fn raise(&mut self)
        ensures after { self.new ≡ record self.old { faults = capped_sum self.old.faults 1 } }
        ensures faults { self.old.faults ≤ self.new.faults }
        ensures cause { Rises self.old.faults self.new.faults }
    {
        self.faults = self.faults.saturating_add(1);
    }
}

//! Calls of an object in memory that are made to fail.

ghost use Rattle.std.specs.Prelude.{◌≡◌, OnOk, OnErr};
ghost use Rattle.vcp_outside.specs.FailingCalls.{no_calls, one_more, fails_at, FailsAlso};

use std::alloc::Global;
use std::collections::BTreeSet;
use std::marker::Model;
use vcp_base::Memory;

/// How many calls were made, up to 2^64 - 1, and the numbers of those that are made to fail.
#[derive(Drop)]
pub(crate) struct FailingCalls {
    made: u64,
    failing: BTreeSet<u64>,
}

impl Model for FailingCalls {
    ghost use Rattle.vcp_outside.specs.FailingCalls.{CallCount};

    ghost Value = { CallCount };

    ghost view = { λ c. record { made = c.made; failing = c.failing.keys } };
}

impl FailingCalls {
    /// Before the first call, where none is made to fail. It takes no memory.
    pub(crate) fn new(alloc: Global) -> FailingCalls
        ensures { result ≡ no_calls }
    {
        FailingCalls {
            made: 0,
            failing: BTreeSet::new(alloc),
        }
    }

    /// Makes the call of a number fail. After `Memory` nothing has changed.
    pub(crate) fn add(&mut self, number: u64) -> Result<(), Memory>
        ensures ok { OnOk result (FailsAlso number self.old self.new) }
        ensures err { OnErr result (self.new ≡ self.old) }
    {
        self.failing.insert(number)?;
        Ok(())
    }

    /// Counts the next call, and answers whether it is made to fail.
    pub(crate) fn next(&mut self) -> bool
        ensures answer { result ≡ fails_at self.old self.old.made }
        ensures counted { self.new ≡ one_more self.old }
    {
        let fails = self.failing.contains(&self.made);
        self.made = self.made.saturating_add(1);
        fails
    }
}

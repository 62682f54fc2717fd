ghost use Rattle.std.specs.Prelude.{◌≡◌, Contains, IsErr, IsTrue, ◌↔◌, ◌≤◌, OnOk, OnErr, true, false};
ghost use Rattle.txs_outside.specs.Causes.{HasCause};
ghost use Rattle.txs_outside.specs.Hanging.{more};

use crate::{Failed, Numbers};

/// Counts calls from 1, knows which of them are to fail, counts the faults, and tells whether the last call failed.
#[derive(Debug, Drop)]
pub(crate) struct Failing {
    pub calls: u64,
    pub fails: Numbers,
    pub faults: u64,
    pub has_failed: bool,
}

impl Failing {
    pub fn new(fails: Numbers) -> Failing
        ensures { result ≡ record { calls = 0; fails = fails; faults = 0; has_failed = false } }
    {
        Failing {
            calls: 0,
            fails,
            faults: 0,
            has_failed: false,
        }
    }

    /// Counts one more call, and a fault where it is to fail.
    pub fn call(&mut self) -> Result<(), Failed>
        ensures answer { IsErr result ↔ Contains self.old.fails self.new.calls }
        ensures calls { self.new.calls ≡ more self.old.calls }
        ensures fails { self.new.fails ≡ self.old.fails }
        ensures failed { IsTrue self.new.has_failed ↔ IsErr result }
        ensures cause { HasCause self.old.faults self.new.faults (IsErr result) }
        ensures once { OnErr result (self.new.faults ≡ more self.old.faults) }
        ensures faults { OnOk result (self.new.faults ≡ self.old.faults) }
    {
        self.calls = self.calls.saturating_add(1);
        self.has_failed = false;
        if self.fails.has(self.calls) {
            return Err(self.fault());
        }
        Ok(())
    }

    /// Counts a fault.
    pub fn fault(&mut self) -> Failed
        ensures calls { self.new.calls ≡ self.old.calls }
        ensures fails { self.new.fails ≡ self.old.fails }
        ensures later { self.old.faults ≤ self.new.faults }
        ensures once { self.new.faults ≡ more self.old.faults }
        ensures failed { self.new.has_failed ≡ true }
    {
        self.faults = self.faults.saturating_add(1);
        self.has_failed = true;
        Failed
    }
}

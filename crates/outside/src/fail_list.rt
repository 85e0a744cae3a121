ghost use Rattle.std.specs.Prelude.{◌≡◌, ◌+◌, ◌-◌, ◌^◌, ◌≤◌, ◌↔◌, min, Contains, IsErr, is_ok, if◌then◌else◌};
ghost use Rattle.outside.specs.Causes.{HasCause, Rose};

use crate::Failed;

/// The calls that are to fail, by their numbers from 1, how many were made, and how many faults there were.
#[derive(Drop)]
pub struct FailList {
    pub fails: Vec<u64>,
    pub calls: u64,
    pub faults: u64,
}

impl FailList {
    /// No call was made yet.
    pub fn new(fails: Vec<u64>) -> Self
        ensures { result ≡ record { fails = fails; calls = 0; faults = 0 } }
    {
        FailList {
            fails,
            calls: 0,
            faults: 0,
        }
    }

    /// Counts a call, and answers `Failed` exactly if its number is among those that are to fail.
    pub fn call(&mut self) -> Result<(), Failed>
        ensures called { self.new.calls ≡ min (self.old.calls + 1) (2 ^ 64 - 1) }
        ensures fault { IsErr result ↔ Contains self.old.fails.items self.new.calls }
        ensures cause { HasCause self.old.faults self.new.faults result }
        ensures faults { self.new.faults ≡ (if is_ok result then self.old.faults else min (self.old.faults + 1) (2 ^ 64 - 1)) }
        ensures fails { self.new.fails ≡ self.old.fails }
    {
        self.calls = self.calls.saturating_add(1);
        if self.fails.contains(&self.calls) {
            self.fault();
            return Err(Failed);
        }
        Ok(())
    }

    /// Counts a fault.
    pub fn fault(&mut self)
        ensures after { self.new ≡ record self.old { faults = min (self.old.faults + 1) (2 ^ 64 - 1) } }
        ensures later { self.old.faults ≤ self.new.faults }
        ensures rose { Rose self.old.faults self.new.faults }
    {
        self.faults = self.faults.saturating_add(1);
    }
}

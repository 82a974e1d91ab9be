//! The calls of an object in memory: how many were made, which of them fail, and how many did.

ghost use Rattle.std.specs.Prelude.{◌≡◌, ◌≤◌, ◌↔◌, Contains, IsErr, IfOk, OnOk, OnErr};
ghost use Rattle.daa_io.specs.Faults.{one_more};

use crate::faults::{Failed, count_up};

/// How many calls an object got, and how many of them failed. Calls are numbered from 0, and a call
/// fails if its number is in `fails`.
#[derive(Drop)]
pub(crate) struct CallCounts {
    pub(crate) fails: Vec<u64>,
    pub(crate) made: u64,
    pub(crate) faults: u64,
}

impl CallCounts {
    /// No call was made yet. Each call whose number is in `fails` will fail.
    pub(crate) fn new(fails: Vec<u64>) -> Self
        ensures fails { result.fails ≡ fails }
        ensures made { result.made ≡ 0 }
        ensures faults { result.faults ≡ 0 }
    {
        CallCounts {
            fails,
            made: 0,
            faults: 0,
        }
    }

    /// Counts a call that fails.
    pub(crate) fn fail(&mut self) -> Failed
        ensures made { self.new.made ≡ one_more self.old.made }
        ensures faults { self.new.faults ≡ one_more self.old.faults }
        ensures never_falls { self.old.faults ≤ self.new.faults }
        ensures same_fails { self.new.fails ≡ self.old.fails }
    {
        self.made = count_up(self.made);
        self.faults = count_up(self.faults);
        Failed
    }

    /// Counts a call, and returns its number unless it is one of those that fail.
    pub(crate) fn begin(&mut self) -> Result<u64, Failed>
        ensures fails { IsErr result ↔ Contains self.old.fails.items self.old.made }
        ensures number { IfOk result (λ call. call ≡ self.old.made) }
        ensures made { self.new.made ≡ one_more self.old.made }
        ensures ok { OnOk result (self.new.faults ≡ self.old.faults) }
        ensures failed { OnErr result (self.new.faults ≡ one_more self.old.faults) }
        ensures never_falls { self.old.faults ≤ self.new.faults }
        ensures same_fails { self.new.fails ≡ self.old.fails }
    {
        let call = self.made;
        if self.fails.contains(&call) {
            return Err(self.fail());
        }
        self.made = count_up(call);
        Ok(call)
    }
}

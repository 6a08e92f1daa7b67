ghost use Rattle.std.specs.Prelude.{◌≡◌, ◌++◌, ◌∷◌, [], OnOk, OnErr, IsTrue, ◌↔◌, Contains};
ghost use Rattle.cov_io.specs.Outside.{one_more};

use crate::bytes::NoMemory;
use std::alloc::Global;

/// How often a fake was called and failed, and which of its calls are to fail.
#[derive(Debug, Drop)]
pub(crate) struct Calls {
    pub(crate) made: u64,
    pub(crate) failing: Vec<u64>,
    pub(crate) faults: u64,
}

impl Calls {
    /// No call made, none that is to fail, no fault.
    pub(crate) fn new(alloc: Global) -> Calls
        ensures made { result.made ≡ 0 }
        ensures failing { result.failing.items ≡ [] }
        ensures faults { result.faults ≡ 0 }
    {
        Calls {
            made: 0,
            failing: Vec::new(alloc),
            faults: 0,
        }
    }

    /// Counts one more call, and says whether it is to fail.
    pub(crate) fn fails(&mut self) -> bool
        ensures is { IsTrue result ↔ Contains self.old.failing.items (one_more self.old.made) }
        ensures counts { self.new ≡ record self.old { made = one_more self.old.made } }
    {
        self.made = self.made.saturating_add(1);
        self.failing.contains(&self.made)
    }

    /// Counts one more fault.
    pub(crate) fn count_fault(&mut self)
        ensures { self.new ≡ record self.old { faults = one_more self.old.faults } }
    {
        self.faults = self.faults.saturating_add(1);
    }

    /// Lets one more call fail, by its number from 1.
    pub(crate) fn fail_at(&mut self, call: u64) -> Result<(), NoMemory>
        ensures failing { OnOk result (self.new.failing.items ≡ self.old.failing.items ++ call ∷ []) }
        ensures as_before { OnErr result (self.new.failing.items ≡ self.old.failing.items) }
        ensures made { self.new.made ≡ self.old.made }
        ensures faults { self.new.faults ≡ self.old.faults }
    {
        self.failing.push(call)?;
        Ok(())
    }
}

//! Calls that are counted, and that fail by their number.
ghost use Rattle.std.specs.Prelude.{◌≡◌, ◌+◌, ◌≤◌, ◌↔◌, IsTrue, IfOk};
ghost use Rattle.smol_edge.specs.Calls.{IsNumbered};
ghost use Rattle.smol_edge.specs.Faults.{RoseByOne};

use crate::Failed;
use crate::faults::count_fault;
use std::alloc::{AllocError, Global};

/// The calls that a source or outlets in memory have met. The counts stand still at their last value.
#[derive(Debug, Drop)]
pub(crate) struct Calls {
    /// The numbers of the calls that are to fail, counted from 1.
    pub fails: Vec<u32>,
    /// How many calls were made.
    pub made: u64,
    /// How many calls have failed.
    pub faults: u64,
}

// Whether the call after these many is among the numbers.
fn is_next(numbers: &[u32], made: u64) -> bool
    ensures { IsTrue result ↔ IsNumbered numbers.now made }
{
    match u32::try_from(made) {
        Ok(made) if made < u32::MAX => numbers.contains(&(made + 1)),
        _ => false,
    }
}

impl Calls {
    pub fn of(alloc: Global, fails: &[u32]) -> Result<Calls, AllocError>
        ensures numbers { IfOk result (λ calls. calls.fails.items ≡ fails.now) }
        ensures none_made { IfOk result (λ calls. calls.made ≡ 0) }
        ensures none_failed { IfOk result (λ calls. calls.faults ≡ 0) }
    {
        Ok(Calls {
            fails: Vec::from_slice(alloc, fails)?,
            made: 0,
            faults: 0,
        })
    }

    /// Counts a call, and answers whether it is to fail.
    pub fn begin(&mut self) -> bool
        ensures numbered { IsTrue result ↔ IsNumbered self.old.fails.items self.old.made }
        ensures counted { RoseByOne self.old.made self.new.made }
        ensures faults_stay { self.new.faults ≡ self.old.faults }
        ensures numbers_stay { self.new.fails.items ≡ self.old.fails.items }
    {
        let is_numbered = is_next(&self.fails, self.made);
        self.made = self.made.saturating_add(1);
        is_numbered
    }

    /// Counts a fault.
    pub fn fault(&mut self) -> Failed
        ensures counted { RoseByOne self.old.faults self.new.faults }
        ensures no_fall { self.old.faults ≤ self.new.faults }
        ensures calls_stay { self.new.made ≡ self.old.made }
        ensures numbers_stay { self.new.fails.items ≡ self.old.fails.items }
    {
        count_fault(&mut self.faults)
    }
}

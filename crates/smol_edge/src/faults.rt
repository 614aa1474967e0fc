//! Counts of faults.
ghost use Rattle.std.specs.Prelude.{◌≤◌};
ghost use Rattle.smol_edge.specs.Faults.{RoseByOne};

use crate::Failed;

/// Counts a fault. At its last value the count stands still.
pub(crate) fn count_fault(faults: &mut u64) -> Failed
    ensures counted { RoseByOne faults.old faults.new }
    ensures no_fall { faults.old ≤ faults.new }
{
    *faults = faults.saturating_add(1);
    Failed
}

//! What the answers of the system come to.
ghost use Rattle.std.specs.Prelude.{◌≡◌, ◌≤◌, OnOk, OnErr, IsErr, MatchOption};
ghost use Rattle.smol_edge.specs.Faults.{RoseByOne};
ghost use Rattle.smol_edge.specs.Answers.{accepted_of, received_of};

use crate::Failed;
use crate::faults::count_fault;
use std::io;

/// How many of `length` bytes the system took, where it took some of some: as many as it says, which may be fewer.
pub(crate) fn accepted(answer: io::Result<usize>, length: usize) -> Option<usize>
    ensures { result ≡ accepted_of answer length }
{
    match answer {
        Ok(0) if length > 0 => None,
        Ok(count) => Some(count),
        Err(_) => None,
    }
}

/// How many bytes the system gave: as many as it says, which may be fewer than there was room for, and at the end none.
pub(crate) fn received(answer: io::Result<usize>) -> Option<usize>
    ensures { result ≡ received_of answer }
{
    answer.ok()
}

/// What there is, or a fault, which is counted.
pub(crate) fn or_fault<T>(answer: Option<T>, faults: &mut u64) -> Result<T, Failed>
    ensures value { MatchOption answer (IsErr result) (λ value. result ≡ Ok value) }
    ensures counted { OnErr result (RoseByOne faults.old faults.new) }
    ensures no_fall { faults.old ≤ faults.new }
    ensures no_fault { OnOk result (faults.new ≡ faults.old) }
{
    match answer {
        Some(value) => Ok(value),
        None => Err(count_fault(faults)),
    }
}

//! How a run ends that has no beginning, or is over before its end. Whether a fault of a run is such an end is a matter of the fault
//! alone, and takes no memory.
ghost use Rattle.std.specs.Prelude.{◌≡◌, ◌++◌, codes, IfOk};
ghost use Rattle.smol_run.specs.Ends.{IsRun};
ghost use Rattle.smol_run.specs.Told.{ended_by, line_of_end, status_of_end};

use crate::error_lines::{no_place_text, over_text};
use crate::loss::Loss;
use crate::status::Status;
use smol_loop::RunFault;
use std::alloc::{AllocError, Global};

/// An end of a run that is told by a line.
#[derive(Clone, Copy, Debug, PartialEq, Eq)]
pub enum Ended {
    /// A molecule finds no place: the line of its statement, and its serial.
    NoPlace { line: u32, serial: u64 },
    /// There are too many molecules at this step.
    TooMany { step: u32 },
}

/// The end of a run by its fault, or what cut it off.
pub fn ended_by(fault: RunFault) -> Result<Ended, Loss>
    ensures { result ≡ ended_by fault }
{
    match fault {
        RunFault::NoPlace { line, serial } => Ok(Ended::NoPlace { line, serial }),
        RunFault::TooManyMolecules { step } => Ok(Ended::TooMany { step }),
        RunFault::OutputFault => Err(Loss::Output),
        RunFault::OutOfMemory => Err(Loss::Memory),
    }
}

/// The status of an end.
pub fn status_of_end(end: Ended) -> Status
    ensures value { result ≡ status_of_end end }
    ensures run { IsRun result }
{
    match end {
        Ended::NoPlace { .. } => Status::Refused,
        Ended::TooMany { .. } => Status::Over,
    }
}

/// The line that tells an end.
pub fn text_of_end(alloc: Global, end: Ended) -> Result<Vec<u8>, AllocError>
    ensures { IfOk result (λ text. text.items ≡ line_of_end end ++ codes "\n") }
{
    match end {
        Ended::NoPlace { line, serial } => no_place_text(alloc, line, serial),
        Ended::TooMany { step } => over_text(alloc, step),
    }
}

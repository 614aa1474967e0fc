use crate::Failed;
use std::alloc::AllocError;

/// Why the bytes of a source were not taken.
#[derive(Clone, Copy, Debug, PartialEq, Eq)]
pub enum TakeFault {
    /// A read failed.
    ReadFault,
    /// More bytes were left than the limit.
    TooLong,
    /// There was no memory for the bytes.
    OutOfMemory,
}

impl From<Failed> for TakeFault {
    ghost use Rattle.std.specs.Prelude.{◌≡◌};
    ghost use Rattle.smol_edge.specs.declared.take_fault.TakeFault.TheVariants.{ReadFault};

    ghost from_gives = { λ _ fault. fault ≡ ReadFault };

    fn from(_failed: Failed) -> TakeFault {
        TakeFault::ReadFault
    }
}

impl From<AllocError> for TakeFault {
    ghost use Rattle.std.specs.Prelude.{◌≡◌};
    ghost use Rattle.smol_edge.specs.declared.take_fault.TakeFault.TheVariants.{OutOfMemory};

    ghost from_gives = { λ _ fault. fault ≡ OutOfMemory };

    fn from(_error: AllocError) -> TakeFault {
        TakeFault::OutOfMemory
    }
}

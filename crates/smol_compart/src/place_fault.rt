use std::alloc::{AllocError, AllocFailed};

/// Why molecules are not placed.
#[derive(Clone, Copy, Debug, PartialEq, Eq)]
pub enum PlaceFault {
    /// None of a thousand places drawn for the molecule of this serial was inside its compartment. The statement
    /// that places it stands in this line.
    NoPlace { line: u32, serial: u64 },
    /// There was no memory left for the molecules.
    OutOfMemory,
}

impl From<AllocError> for PlaceFault {
    ghost use Rattle.std.specs.Prelude.{◌≡◌};
    ghost use Rattle.smol_compart.specs.declared.place_fault.PlaceFault.TheVariants.{OutOfMemory};

    ghost from_gives = { λ _ fault. fault ≡ OutOfMemory };

    fn from(_error: AllocError) -> PlaceFault {
        PlaceFault::OutOfMemory
    }
}

impl<T: Drop> From<AllocFailed<T>> for PlaceFault {
    ghost use Rattle.std.specs.Prelude.{◌≡◌};
    ghost use Rattle.smol_compart.specs.declared.place_fault.PlaceFault.TheVariants.{OutOfMemory};

    ghost from_gives = { λ _ fault. fault ≡ OutOfMemory };

    fn from(_error: AllocFailed<T>) -> PlaceFault {
        PlaceFault::OutOfMemory
    }
}

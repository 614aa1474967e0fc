use std::alloc::{AllocError, AllocFailed};

/// Why a text is not split into lines. Lines are numbered from 1.
#[derive(Clone, Copy, Debug, PartialEq, Eq)]
pub enum TextFault {
    /// A byte that isn't allowed stands before the comment of this line.
    BadByte { line: u32 },
    /// The block comment that this line opened is not closed.
    OpenComment { line: u32 },
    /// The text has more than 65,536 lines.
    TooManyLines,
    /// There was no memory left for the lines.
    OutOfMemory,
}

impl From<AllocError> for TextFault {
    ghost use Rattle.std.specs.Prelude.{◌≡◌};
    ghost use Rattle.smol_text.specs.declared.text_fault.TextFault.TheVariants.{OutOfMemory};

    ghost from_gives = { λ _ fault. fault ≡ OutOfMemory };

    fn from(_error: AllocError) -> TextFault {
        TextFault::OutOfMemory
    }
}

impl<T: Drop> From<AllocFailed<T>> for TextFault {
    ghost use Rattle.std.specs.Prelude.{◌≡◌};
    ghost use Rattle.smol_text.specs.declared.text_fault.TextFault.TheVariants.{OutOfMemory};

    ghost from_gives = { λ _ fault. fault ≡ OutOfMemory };

    fn from(_error: AllocFailed<T>) -> TextFault {
        TextFault::OutOfMemory
    }
}

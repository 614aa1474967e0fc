//! Why a file isn't expanded.
ghost use Rattle.std.specs.Prelude.{◌≡◌};
ghost use Rattle.smol_macro.specs.Refusal.{kind_text};

use std::alloc::{AllocError, AllocFailed};

/// Why a line, or the text as a whole, is refused.
#[derive(Clone, Copy, Debug, PartialEq, Eq)]
pub enum MacroKind {
    /// The word that `define` should define is no name.
    NotInProfile,
    /// The name is defined already.
    RepeatedName,
    /// No such name is defined.
    UnknownName,
    /// The line has too many words, or too few.
    WrongWordCount,
    /// The line stands out of place.
    BadOrder,
    /// The condition that the line opens is not closed.
    OpenBlock,
    /// More than 65,536 lines would be given, or more than 16 files be read at once.
    TooMany,
    /// A byte that isn't allowed stands before the comment.
    BadByte,
    /// The block comment that the line opens is not closed.
    OpenComment,
    /// A file, or what is given, has more than 4,194,304 bytes, or the files together have more than 16,777,216.
    TooLong,
    /// The file that the line names is being read already.
    Cycle,
}

impl MacroKind {
    /// The refusal in words, as it is printed behind the line's number.
    pub fn text(self) -> &'static str
        ensures { result.now ≡ kind_text self }
    {
        match self {
            MacroKind::NotInProfile => "not in this profile",
            MacroKind::RepeatedName => "name already used",
            MacroKind::UnknownName => "unknown name",
            MacroKind::WrongWordCount => "wrong number of words",
            MacroKind::BadOrder => "statement out of place",
            MacroKind::OpenBlock => "block not closed",
            MacroKind::TooMany => "too many",
            MacroKind::BadByte => "byte not allowed",
            MacroKind::OpenComment => "comment not closed",
            MacroKind::TooLong => "file too long",
            MacroKind::Cycle => "file includes itself",
        }
    }
}

/// Why there is no expanded text.
#[derive(Clone, Copy, Debug, PartialEq, Eq)]
pub enum ExpandFault {
    /// The line of this number in the expanded text, counted from 1, is refused. Line 0 stands for the whole.
    At { line: u32, kind: MacroKind },
    /// A file could not be opened or read.
    ReadFault,
    /// There was no memory left.
    OutOfMemory,
}

impl From<AllocError> for ExpandFault {
    ghost use Rattle.std.specs.Prelude.{◌≡◌};
    ghost use Rattle.smol_macro.specs.declared.expand_fault.ExpandFault.TheVariants.{OutOfMemory};

    ghost from_gives = { λ _ fault. fault ≡ OutOfMemory };

    fn from(_error: AllocError) -> ExpandFault {
        ExpandFault::OutOfMemory
    }
}

impl<T: Drop> From<AllocFailed<T>> for ExpandFault {
    ghost use Rattle.std.specs.Prelude.{◌≡◌};
    ghost use Rattle.smol_macro.specs.declared.expand_fault.ExpandFault.TheVariants.{OutOfMemory};

    ghost from_gives = { λ _ fault. fault ≡ OutOfMemory };

    fn from(_error: AllocFailed<T>) -> ExpandFault {
        ExpandFault::OutOfMemory
    }
}

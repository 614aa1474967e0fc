ghost use Rattle.std.specs.Prelude.{◌≡◌};

use smol_edge::Failed;
use std::alloc::AllocError;

/// What cuts a run off once its text is read.
#[derive(Clone, Copy, Debug, PartialEq, Eq)]
pub enum Loss {
    /// A write failed, or the opening of an output file.
    Output,
    /// Memory ran out.
    Memory,
}

impl From<AllocError> for Loss {
    ghost use Rattle.smol_run.specs.declared.loss.Loss.TheVariants.{Memory};

    ghost from_gives = { λ _ loss. loss ≡ Memory };

    fn from(_: AllocError) -> Loss {
        Loss::Memory
    }
}

impl From<Failed> for Loss {
    ghost use Rattle.smol_run.specs.declared.loss.Loss.TheVariants.{Output};

    ghost from_gives = { λ _ loss. loss ≡ Output };

    fn from(_: Failed) -> Loss {
        Loss::Output
    }
}

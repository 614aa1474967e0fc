ghost use Rattle.std.specs.Prelude.{◌≡◌};

use crate::loss::Loss;

/// What keeps a call from a status of its own.
#[derive(Clone, Copy, Debug, PartialEq, Eq)]
pub enum Stop {
    /// A read failed.
    Input,
    /// A write failed.
    Output,
    /// Memory ran out.
    Memory,
}

impl From<Loss> for Stop {
    ghost use Rattle.smol_run.specs.Ends.{stop_of};

    ghost from_gives = { λ loss stop. stop ≡ stop_of loss };

    fn from(loss: Loss) -> Stop {
        match loss {
            Loss::Output => Stop::Output,
            Loss::Memory => Stop::Memory,
        }
    }
}

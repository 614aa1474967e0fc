use smol_types::Kind;
use std::alloc::AllocError;

/// Why a line isn't taken: its fault, or want of memory.
#[derive(Clone, Copy, Debug, PartialEq, Eq)]
pub enum Refusal {
    At(Kind),
    OutOfMemory,
}

impl From<Kind> for Refusal {
    ghost use Rattle.std.specs.Prelude.{◌≡◌};
    ghost use Rattle.smol_line.specs.declared.refusal.Refusal.TheVariants.{At};

    ghost from_gives = { λ kind refusal. refusal ≡ At kind };

    fn from(kind: Kind) -> Refusal {
        Refusal::At(kind)
    }
}

impl From<AllocError> for Refusal {
    ghost use Rattle.std.specs.Prelude.{◌≡◌};
    ghost use Rattle.smol_line.specs.declared.refusal.Refusal.TheVariants.{OutOfMemory};

    ghost from_gives = { λ _ refusal. refusal ≡ OutOfMemory };

    fn from(_: AllocError) -> Refusal {
        Refusal::OutOfMemory
    }
}

ghost use Rattle.std.specs.Prelude.{◌≡◌};

use std::alloc::AllocError;

/// Why a command could not be performed.
#[derive(Clone, Copy, Debug, PartialEq, Eq)]
pub enum CommandFault {
    /// It would make more molecules than there may be.
    TooManyMolecules,
    /// Memory ran out.
    OutOfMemory,
}

impl From<AllocError> for CommandFault {
    ghost use Rattle.smol_commands.specs.declared.command_fault.CommandFault.TheVariants.{OutOfMemory};

    ghost from_gives = { λ _ fault. fault ≡ OutOfMemory };

    fn from(_: AllocError) -> CommandFault {
        CommandFault::OutOfMemory
    }
}

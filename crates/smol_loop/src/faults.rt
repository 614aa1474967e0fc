//! The fault of a part of a run as one of the run. None of these takes memory, so that each answer has an equation.
ghost use Rattle.std.specs.Prelude.{◌≡◌};
ghost use Rattle.smol_loop.specs.Faults.{fault_of_command, fault_of_placing, fault_of_step};

use crate::run_fault::RunFault;
use smol_commands::CommandFault;
use smol_compart::PlaceFault;
use smol_step::StepFault;

/// The fault of a command at the state of step k.
pub fn fault_of_command(fault: CommandFault, k: u32) -> RunFault
    ensures { result ≡ fault_of_command fault k }
{
    match fault {
        CommandFault::TooManyMolecules => RunFault::TooManyMolecules { step: k },
        CommandFault::OutOfMemory => RunFault::OutOfMemory,
    }
}

/// The fault of step k.
pub fn fault_of_step(fault: StepFault, k: u32) -> RunFault
    ensures { result ≡ fault_of_step fault k }
{
    match fault {
        StepFault::TooManyMolecules { .. } => RunFault::TooManyMolecules { step: k },
        StepFault::OutOfMemory => RunFault::OutOfMemory,
    }
}

/// The fault of the placing of molecules.
pub fn fault_of_placing(fault: PlaceFault) -> RunFault
    ensures { result ≡ fault_of_placing fault }
{
    match fault {
        PlaceFault::NoPlace { line, serial } => RunFault::NoPlace { line, serial },
        PlaceFault::OutOfMemory => RunFault::OutOfMemory,
    }
}

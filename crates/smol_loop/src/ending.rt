//! What becomes of the run of a seed, of which nobody reads what it prints.
ghost use Rattle.std.specs.Prelude.{◌≡◌, ◌≢◌, ◌≤◌, IfOk, length};
ghost use Rattle.smol_types.specs.Sound.{IsSound};
ghost use Rattle.smol_types.specs.State.{Fits};
ghost use Rattle.smol_sweep.specs.Table.{IsAlike};
ghost use Rattle.smol_loop.specs.EndOfRun.{counts_in, end_by_fault, end_of_run};

use crate::course::make_run;
use crate::readers::Nobody;
use crate::run_fault::RunFault;
use smol_commands::counts_of;
use smol_edge::Open;
use smol_sweep::{Counts, Outcome};
use smol_types::{Config, State};
use std::alloc::{AllocError, Global};
use std::thread::Threads;

/// What becomes of the run of a configuration with the random words of a seed: it comes to its end with so many molecules of each
/// species, it doesn't begin since a molecule finds no place, or it is over. Nothing of it is printed, and its output files aren't
/// touched. Fails for want of memory alone.
pub fn end_of_run<R: Threads + Sync>(
    rt: &R,
    alloc: Global,
    config: &Config,
    seed: u64,
    workers: u32,
) -> Result<Outcome, AllocError>
    requires least { 1 ≤ workers }
    requires most { workers ≤ 16 }
    ensures value { IfOk result (λ outcome. outcome ≡ end_of_run config.now seed) }
    ensures alike { IfOk result (IsAlike (length config.now.species)) }
{
    let mut nobody = Nobody {
        files: config.outputs().len() as u32,
    };
    match make_run(rt, alloc, config, seed, workers, &mut nobody, &Open) {
        Ok(last) => Ok(Outcome::Ended(counts_in(alloc, config, &last)?)),
        Err(fault) => end_by_fault(fault).ok_or(AllocError),
    }
}

// How many molecules there are of each species in a state.
fn counts_in(alloc: Global, config: &Config, state: &State) -> Result<Counts, AllocError>
    requires sound { IsSound config.now }
    requires fits { Fits config.now state.now }
    ensures { IfOk result (λ counts. counts ≡ counts_in config.now state.now) }
{
    Ok(Counts::of(counts_of(alloc, config.species(), state.mols.as_slice())?))
}

// What became of a run by its fault, or nothing where memory ran out. No write fails where nobody reads.
fn end_by_fault(fault: RunFault) -> Option<Outcome>
    requires { fault ≢ RunFault.OutputFault }
    ensures { result ≡ end_by_fault fault }
{
    match fault {
        RunFault::NoPlace { .. } => Some(Outcome::NoPlace),
        RunFault::TooManyMolecules { .. } => Some(Outcome::Over),
        RunFault::OutOfMemory => None,
        RunFault::OutputFault => unreachable!(),
    }
}

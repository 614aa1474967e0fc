//! The run of a configuration.
ghost use Rattle.std.specs.Prelude.{◌≡◌, ◌≤◌, IfOk};
ghost use Rattle.smol_edge.specs.Faults.{Tells};
ghost use Rattle.smol_meaning.specs.Run.{run_of};
ghost use Rattle.smol_run.specs.Ends.{CountsLoss, GoesWith, IsRun};
ghost use Rattle.smol_run.specs.Outcome.{outcome_of_run};

use crate::ended::{ended_by, status_of_end, text_of_end};
use crate::error_lines::tell;
use crate::loss::Loss;
use crate::outputs::open_all;
use crate::status::Status;
use smol_edge::{Gate, Outlets};
use smol_loop::simulate;
use smol_types::Config;
use std::alloc::Global;
use std::thread::Threads;

/// Runs a configuration with the random words of a seed, by so many workers: opens its output files, simulates, and tells where
/// the run has no beginning or is over before its end.
pub fn run_config<R: Threads + Sync, K: Outlets, G: Gate + Sync>(
    rt: &R,
    alloc: Global,
    config: &Config,
    seed: u64,
    workers: u32,
    outlets: &mut K,
    gate: &G,
) -> Result<Status, Loss>
    requires opened { K.opened outlets.old ≡ 0 }
    requires least { 1 ≤ workers }
    requires most { workers ≤ 16 }
    ensures ended { Tells (K.told outlets.old) (K.told outlets.new)
        (GoesWith (outcome_of_run config.now.outputs (run_of config.now seed)) result) }
    ensures status { IfOk result IsRun }
    ensures faults { CountsLoss result (K.faults outlets.old) (K.faults outlets.new) }
{
    open_all(outlets, config.outputs())?;
    match simulate(rt, alloc, config, seed, workers, outlets, gate) {
        Ok(()) => Ok(Status::Done),
        Err(fault) => {
            let end = ended_by(fault)?;
            tell(outlets, &text_of_end(alloc, end)?)?;
            Ok(status_of_end(end))
        }
    }
}

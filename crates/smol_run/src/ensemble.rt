//! Many runs of a configuration, which print the table of what becomes of them and nothing else.
ghost use Rattle.std.specs.Prelude.{◌≤◌, IfOk};
ghost use Rattle.smol_edge.specs.Faults.{Tells};
ghost use Rattle.smol_run.specs.Ends.{CountsLoss, GoesWith, IsRun};
ghost use Rattle.smol_run.specs.Outcome.{outcome_of_runs};
ghost use Rattle.smol_run.specs.Words.{AreRuns, AreWorkers};

use crate::loss::Loss;
use crate::single::Single;
use crate::status::Status;
use smol_edge::{Outlets, put_all};
use smol_sweep::{sweep, table};
use smol_types::Config;
use std::alloc::Global;
use std::thread::Threads;

/// Standard output.
const STDOUT: u32 = 0;

/// Makes so many runs of a configuration, each by so many workers, and prints their table. The first has this seed, and the others
/// those that follow it.
pub fn run_ensemble<R: Threads + Sync, K: Outlets>(
    rt: &R,
    alloc: Global,
    config: &Config,
    first: u64,
    count: u32,
    workers: u32,
    outlets: &mut K,
) -> Result<Status, Loss>
    requires runs { AreRuns count }
    requires workers { AreWorkers workers }
    ensures ended { Tells (K.told outlets.old) (K.told outlets.new) (GoesWith (outcome_of_runs config.now first count) result) }
    ensures status { IfOk result IsRun }
    ensures faults { CountsLoss result (K.faults outlets.old) (K.faults outlets.new) }
{
    let ends = sweep(rt, alloc, first, count, &Single { config, workers })?;
    let text = table(alloc, first, &ends)?;
    put_all(outlets, STDOUT, &text)?;
    Ok(Status::Done)
}

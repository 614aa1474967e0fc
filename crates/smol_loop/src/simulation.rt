ghost use Rattle.std.specs.Prelude.{◌≡◌, ◌≢◌, ◌≤◌, IsErrOf, length};
ghost use Rattle.smol_edge.specs.Faults.{Rose, Tells};
ghost use Rattle.smol_meaning.specs.Run.{run_of};
ghost use Rattle.smol_loop.specs.Simulation.{EndsAs, Prints};

use crate::course::make_run;
use crate::run_fault::RunFault;
use smol_edge::{Gate, Outlets};
use smol_types::Config;
use std::alloc::Global;
use std::thread::Threads;

/// Runs a configuration with the random words of a seed, where the files of its output have been opened in order.
pub fn simulate<R: Threads + Sync, K: Outlets, G: Gate + Sync>(
    rt: &R,
    alloc: Global,
    config: &Config,
    seed: u64,
    workers: u32,
    outlets: &mut K,
    gate: &G,
) -> Result<(), RunFault>
    requires opened { K.opened outlets.old ≡ length config.now.outputs }
    requires least { 1 ≤ workers }
    requires most { workers ≤ 16 }
    ensures ended { EndsAs (run_of config.now seed) result }
    ensures printed { Tells (K.told outlets.old) (K.told outlets.new) (Prints (run_of config.now seed) result) }
    ensures opened { K.opened outlets.new ≡ K.opened outlets.old }
    ensures cause { IsErrOf result RunFault.OutputFault → Rose (K.faults outlets.old) (K.faults outlets.new) }
    ensures no_fault { (result ≢ Err RunFault.OutputFault) → K.faults outlets.new ≡ K.faults outlets.old }
{
    match make_run(rt, alloc, config, seed, workers, outlets, gate) {
        Ok(_last) => Ok(()),
        Err(fault) => Err(fault),
    }
}

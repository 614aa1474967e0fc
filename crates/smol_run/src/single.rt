ghost use Rattle.std.specs.Prelude.{◌≤◌};

use smol_loop::end_of_run;
use smol_sweep::{OneRun, Outcome};
use smol_types::Config;
use std::alloc::{AllocError, Global};
use std::thread::Threads;

/// A configuration that is run with any seed, by 1 to 16 workers.
#[derive(Clone, Copy)]
pub struct Single<'a> {
    pub config: &'a Config,
    pub workers: u32,
    ghost least: { 1 ≤ workers },
    ghost most: { workers ≤ 16 },
}

impl<'a> OneRun for Single<'a> {
    ghost use Rattle.std.specs.Prelude.{◌≡◌, length};
    ghost use Rattle.smol_sweep.specs.Table.{IsAlike};
    ghost use Rattle.smol_loop.specs.EndOfRun.{end_of_run};

    type Out = Outcome;

    ghost gives = { λ single seed outcome. (outcome ≡ end_of_run single.config.now seed) × IsAlike (length single.config.now.species) outcome };

    fn run<R: Threads + Sync>(
        &self,
        rt: &R,
        alloc: Global,
        seed: u64,
    ) -> Result<Outcome, AllocError> {
        end_of_run(rt, alloc, self.config, seed, self.workers)
    }
}

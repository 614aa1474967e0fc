ghost use Rattle.std.specs.Prelude.{IfOk, ℕ};
ghost use Rattle.std.specs.Thread.{IsSync};

use std::alloc::{AllocError, Global};
use std::thread::Threads;

/// What can be run with any seed. Threads may share it.
pub trait OneRun: Sync {
    /// What a run gives.
    type Out: Send + Drop;

    /// What a run with a seed may give.
    ghost gives: { Self → ℕ → Self.Out → Type 0 };

    /// Runs it with a seed. Fails for want of memory alone. The `requires` is the bound `Sync`, which an `impl` doesn't see otherwise.
    fn run<R: Threads + Sync>(
        &self,
        rt: &R,
        alloc: Global,
        seed: u64,
    ) -> Result<Self::Out, AllocError>
        requires shared { IsSync R.row }
        ensures { IfOk result (λ out. gives self.now seed out) };
}

use crate::{Counts, OneRun, Outcome, sweep, table};
use std::alloc::{AllocError, Global};
use std::test::Fail;
use std::thread::Threads;

/// A run that gives its seed.
struct Itself;

impl OneRun for Itself {
    ghost use Rattle.std.specs.Prelude.{◌≡◌};

    type Out = u64;

    ghost gives = { λ _ seed out. out ≡ seed };

    fn run<R: Threads + Sync>(
        &self,
        _rt: &R,
        _alloc: Global,
        seed: u64,
    ) -> Result<u64, AllocError> {
        Ok(seed)
    }
}

// The order of seeds stays where runs are shared out, also behind the last seed.
#[test]
fn seeds_follow_one_another(rt: HostRuntime) -> Result<(), Fail> {
    let outs = sweep(&rt, rt.alloc(), u64::MAX - 1, 11, &Itself)?;
    let last = u64::MAX;
    assert_eq!(rt;
        outs.as_slice(),
        [last - 1, last, 0, 1, 2, 3, 4, 5, 6, 7, 8].as_slice()
    );
    Ok(())
}

#[test]
fn tables_tell_each_run(rt: HostRuntime) -> Result<(), Fail> {
    let alloc = rt.alloc();
    let mut outcomes = Vec::new(alloc);
    outcomes.push(Outcome::NoPlace)?;
    outcomes.push(Outcome::Ended(Counts::of(Vec::from_slice(alloc, &[3, 7])?)))?;
    outcomes.push(Outcome::Ended(Counts::of(Vec::from_slice(alloc, &[12, 5])?)))?;
    outcomes.push(Outcome::Over)?;
    let text = table(alloc, 5, &outcomes)?;
    let want = b"5 2\n6 0 3 7\n7 0 12 5\n8 6\nmin 3 5\nmax 12 7\nsum 15 12\n";
    assert_eq!(rt; text.as_slice(), want.as_slice());
    Ok(())
}

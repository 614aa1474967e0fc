//! The runs of many seeds, shared out among threads.
ghost use Rattle.std.specs.Prelude.{◌≡◌, ◌≤◌, ◌+◌, IfOk, length};
ghost use Rattle.std.specs.Thread.{IsSync};
ghost use Rattle.smol_sweep.specs.Seeds.{AreGiven, seed_at};

use crate::one_run::OneRun;
use std::alloc::{AllocError, Global};
use std::thread::{Threads, join};

/// In how many parts the runs are made, each in a thread of its own where one can be made.
const PARTS: u32 = 8;

/// What so many runs give, 1 to 1,000, whose seeds follow one another from the first on: behind 2^64 - 1 comes 0. The order is
/// that of the seeds, however the runs are shared out.
pub fn sweep<R: Threads + Sync, O: OneRun>(
    rt: &R,
    alloc: Global,
    first: u64,
    n: u32,
    one: &O,
) -> Result<Vec<O::Out>, AllocError>
    requires least { 1 ≤ n }
    requires most { n ≤ 1000 }
    ensures count { IfOk result (λ outs. length outs.items ≡ n) }
    ensures given { IfOk result (λ outs. AreGiven (O.gives one.now) first 0 outs.items) }
{
    runs_in_parts(rt, alloc, first, 0, n, PARTS, one)
}

// What so many runs give, of which the first has this number, made in so many parts at most.
fn runs_in_parts<R: Threads + Sync, O: OneRun>(
    rt: &R,
    alloc: Global,
    first: u64,
    number: u32,
    n: u32,
    parts: u32,
    one: &O,
) -> Result<Vec<O::Out>, AllocError>
    requires few { number + n ≤ 1000 }
    ensures count { IfOk result (λ outs. length outs.items ≡ n) }
    ensures given { IfOk result (λ outs. AreGiven (O.gives one.now) first number outs.items) }
{
    if parts < 2 {
        return runs_in_turn(rt, alloc, first, number, n, one);
    }
    let low = n / 2;
    let high = n - low;
    let middle = number + low;
    let half = parts / 2;
    let (front, back) = join(
        rt,
        move || -> Result<Vec<O::Out>, AllocError>
            requires { IsSync R.row × (number + low ≤ 1000) }
            ensures count { IfOk result (λ outs. length outs.items ≡ low) }
            ensures given { IfOk result (λ outs. AreGiven (O.gives one.entry.now) first number outs.items) }
        { runs_in_parts(rt, alloc, first, number, low, half, one) },
        move || -> Result<Vec<O::Out>, AllocError>
            requires { IsSync R.row × (middle + high ≤ 1000) }
            ensures count { IfOk result (λ outs. length outs.items ≡ high) }
            ensures given { IfOk result (λ outs. AreGiven (O.gives one.entry.now) first middle outs.items) }
        { runs_in_parts(rt, alloc, first, middle, high, half, one) },
    );
    let mut outs = front?;
    let mut rest = back?;
    outs.append(&mut rest)?;
    Ok(outs)
}

// What so many runs give, of which the first has this number, made one after another.
fn runs_in_turn<R: Threads + Sync, O: OneRun>(
    rt: &R,
    alloc: Global,
    first: u64,
    number: u32,
    n: u32,
    one: &O,
) -> Result<Vec<O::Out>, AllocError>
    requires few { number + n ≤ 1000 }
    ensures count { IfOk result (λ outs. length outs.items ≡ n) }
    ensures given { IfOk result (λ outs. AreGiven (O.gives one.now) first number outs.items) }
{
    let mut outs = Vec::with_capacity(alloc, n as usize)?;
    for made in 0..n {
        outs.push(one.run(rt, alloc, seed_at(first, number + made))?)?;
    }
    Ok(outs)
}

/// The seed of the run of this number, where the first run, which is number 0, has the seed `first`.
pub fn seed_at(first: u64, number: u32) -> u64
    ensures { result ≡ seed_at first number }
{
    first.wrapping_add(u64::from(number))
}

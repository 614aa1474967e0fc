ghost use Rattle.std.specs.Prelude.{◌≡◌, ◌+◌, ◌*◌, ◌<◌, ◌≤◌, All, length, IfOk};
ghost use Rattle.smol_plan.specs.Pair.{IsOrdered};
ghost use Rattle.smol_claims.specs.Hand.{WorksFor, IsNewFor, HasRun};

use crate::claims::Claims;
use crate::matching::match_pairs;
use crate::worker::Worker;
use smol_edge::{Meet, Open};
use smol_plan::{Pair, Plan};
use std::alloc::{AllocError, Global};
use std::marker::Sync;
use std::process::Abort;
use std::sync::Wait;
use std::test::Fail;
use std::thread;
use std::thread::{Promise, Threads};

// Three pairs, each of which has a molecule of the one before it.
fn three_pairs(alloc: Global) -> Result<Vec<Pair>, AllocError>
    ensures ordered { IfOk result (λ pairs. IsOrdered pairs.items) }
    ensures len { IfOk result (λ pairs. length pairs.items ≡ 3) }
{
    let mut pairs = Vec::new(alloc);
    pairs.push(pair_of(1, 2))?;
    pairs.push(pair_of(1, 3))?;
    pairs.push(pair_of(3, 4))?;
    Ok(pairs)
}

const fn pair_of(a: u64, b: u64) -> Pair
    ensures a { result.a ≡ a }
    ensures b { result.b ≡ b }
{
    Pair { a, b, reaction: 0 }
}

// A matching of the three pairs.
fn open_three<R: Threads + Sync>(
    rt: &R,
    alloc: Global,
    workers: u32,
) -> Result<(Claims, Vec<Worker>), AllocError>
    requires { (1 ≤ workers) × (workers ≤ 16) }
    ensures pairs { IfOk result (λ opened. length opened.0.pairs ≡ 3) }
    ensures workers { IfOk result (λ opened. opened.0.workers ≡ workers) }
    ensures as_many { IfOk result (λ opened. length opened.1.items ≡ workers) }
    ensures new { IfOk result (λ opened. All (IsNewFor opened.0) opened.1.items) }
{
    let plan = Plan::of_pairs(rt, alloc, three_pairs(alloc)?)?;
    Claims::open(alloc, plan, workers)
}

// A worker runs, and looks at a pair before and after it.
fn run_and_look(claims: &Claims, worker: &mut Worker, pair: usize) -> (Option<bool>, Option<bool>)
    requires works { WorksFor worker.old claims.now }
    requires pair { pair < length claims.now.pairs }
    ensures { HasRun claims.now worker.old.view.share worker.new }
{
    let before = worker.look(claims, pair);
    worker.run(claims, &Open);
    (before, worker.look(claims, pair))
}

#[test]
fn one_worker_decides_three_pairs(rt: HostRuntime) -> Result<(), Fail> {
    let (claims, mut workers) = open_three(&rt, rt.alloc(), 1)?;
    let Some(mut worker) = workers.pop() else {
        unreachable!();
    };
    let looks = run_and_look(&claims, &mut worker, 0);
    assert_eq!(rt; looks, (None, Some(true)));
    let mut all = Vec::new(rt.alloc());
    all.push(worker)?;
    let fired = claims.close(all);
    assert_eq!(rt; fired.as_slice(), [true, false, true].as_slice());
    Ok(())
}

// The second worker runs before the first, and finds everything to do.
fn one_after_the_other(
    rt: &impl Abort,
    alloc: Global,
    claims: Claims,
    mut first: Worker,
    mut second: Worker,
) -> Result<Vec<bool>, AllocError>
    requires first { IsNewFor claims first }
    requires second { IsNewFor claims second }
    requires two { claims.workers ≡ 2 }
    requires three { length claims.pairs ≡ 3 }
{
    let looks = run_and_look(&claims, &mut second, 2);
    assert_eq!(rt; looks, (None, Some(true)));
    let looks = run_and_look(&claims, &mut first, 1);
    assert_eq!(rt; looks, (Some(false), Some(false)));
    let mut all = Vec::new(alloc);
    all.push(first)?;
    all.push(second)?;
    Ok(claims.close(all))
}

#[test]
fn two_workers_run_one_after_the_other(rt: HostRuntime) -> Result<(), Fail> {
    let (claims, mut workers) = open_three(&rt, rt.alloc(), 2)?;
    let Some(second) = workers.pop() else {
        unreachable!();
    };
    let Some(first) = workers.pop() else {
        unreachable!();
    };
    let fired = one_after_the_other(&rt, rt.alloc(), claims, first, second)?;
    assert_eq!(rt; fired.as_slice(), [true, false, true].as_slice());
    Ok(())
}

// A thread promises that it has run its worker, which has one part of the share.
#[derive(Clone, Copy)]
struct RunsFor<'a>(&'a Claims);

impl<'a> Promise<Worker> for RunsFor<'a> {
    ghost kept_by = { λ promise worker. HasRun promise.0.now 1 worker };
}

fn run(claims: &Claims, mut worker: Worker) -> Worker
    requires { IsNewFor claims.now worker }
    ensures { HasRun claims.now 1 result }
{
    worker.run(claims, &Open);
    worker
}

// Runs each of two workers in a thread of its own.
fn run_both<R: Threads + Wait>(
    rt: &R,
    claims: &Claims,
    first: Worker,
    second: Worker,
) -> Result<(Worker, Worker), AllocError>
    requires first { IsNewFor claims.now first }
    requires second { IsNewFor claims.now second }
    ensures { IfOk result (λ both. HasRun claims.now 1 both.0 × HasRun claims.now 1 both.1) }
{
    thread::scope(
        thread::scope_env(),
        rt,
        move |scope| -> Result<(Worker, Worker), AllocError>
            requires { IsNewFor claims.now first × IsNewFor claims.now second }
            ensures { IfOk result (λ both. HasRun claims.entry.now 1 both.0 × HasRun claims.entry.now 1 both.1) }
        {
            let one = scope.spawn_with(RunsFor(claims), move || run(claims, first))?;
            let other = scope.spawn_with(RunsFor(claims), move || run(claims, second))?;
            Ok((one.join(rt), other.join(rt)))
        },
    )
}

#[test]
fn two_workers_run_in_threads_of_their_own(rt: HostRuntime) -> Result<(), Fail> {
    let (claims, mut workers) = open_three(&rt, rt.alloc(), 2)?;
    let Some(second) = workers.pop() else {
        unreachable!();
    };
    let Some(first) = workers.pop() else {
        unreachable!();
    };
    let (first, second) = run_both(&rt, &claims, first, second)?;
    let mut all = Vec::new(rt.alloc());
    all.push(first)?;
    all.push(second)?;
    let fired = claims.close(all);
    assert_eq!(rt; fired.as_slice(), [true, false, true].as_slice());
    Ok(())
}

// Pairs of two molecules each that no other pair has.
fn apart(alloc: Global, count: u64) -> Result<Vec<Pair>, AllocError>
    requires { count < 1000 }
    ensures { IfOk result (λ pairs. IsOrdered pairs.items) }
{
    let mut pairs = Vec::new(alloc);
    for k in 0..count {
        pairs.push(pair_of(2 * k + 1, 2 * k + 2))?;
    }
    Ok(pairs)
}

// Whether a gate saw two workers meet over 70 pairs, each of which fires.
fn meets<R: Threads + Abort + Sync>(rt: &R, alloc: Global, workers: u32) -> Result<bool, AllocError>
    requires { (1 ≤ workers) × (workers ≤ 16) }
{
    let meet = Meet::of();
    let fired = match_pairs(rt, alloc, apart(alloc, 70)?, workers, &meet)?;
    assert_eq!(rt; fired.len(), 70);
    assert!(rt; fired.iter().all(|fired| *fired));
    Ok(meet.met())
}

#[test]
fn two_workers_meet(rt: HostRuntime) -> Result<(), Fail> {
    assert!(rt; meets(&rt, rt.alloc(), 2)?);
    Ok(())
}

#[test]
fn one_worker_meets_nobody(rt: HostRuntime) -> Result<(), Fail> {
    assert!(rt; !meets(&rt, rt.alloc(), 1)?);
    Ok(())
}

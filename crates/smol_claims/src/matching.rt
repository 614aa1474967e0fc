//! Matching by workers in threads of their own.
ghost use Rattle.std.specs.Prelude.{◌≡◌, ◌<◌, ◌≤◌, length, All, IfOk, sum_by};
ghost use Rattle.smol_plan.specs.Pair.{IsOrdered};
ghost use Rattle.smol_plan.specs.Matching.{serial};
ghost use Rattle.smol_plan.specs.Machine.{slice_count};
ghost use Rattle.smol_claims.specs.Hand.{WorksFor, HasRun};

use crate::claims::Claims;
use crate::worker::Worker;
use smol_edge::Gate;
use smol_plan::{Pair, Plan};
use std::alloc::{AllocError, Global};
use std::marker::Sync;
use std::thread::{Threads, for_each_mut};

/// Whether each pair fires, as serial matching decides it, by so many workers, each in a thread of its own where one
/// can be made. No more of them work than there are slices to take, so that few pairs start no thread, and no pairs
/// take no memory. The gate may hold a worker, and changes no answer.
pub fn match_pairs<R: Threads + Sync, G: Gate>(
    rt: &R,
    alloc: Global,
    pairs: Vec<Pair>,
    workers: u32,
    gate: &G,
) -> Result<Vec<bool>, AllocError>
    requires ordered { IsOrdered pairs.items }
    requires some { 1 ≤ workers }
    requires few { workers ≤ 16 }
    ensures serial { IfOk result (λ fired. fired.items ≡ serial pairs.items) }
{
    if pairs.is_empty() {
        return Ok(Vec::new(alloc));
    }
    let plan = Plan::of_pairs(rt, alloc, pairs)?;
    let useful = useful_workers(workers, plan.slices());
    let (claims, mut hands) = Claims::open(alloc, plan, useful)?;
    run_all(rt, &claims, &mut hands, gate);
    Ok(claims.close(hands))
}

// So many workers, but no more than there are slices: another one would find none to take. At least one.
fn useful_workers(workers: u32, slices: usize) -> u32
    requires { 1 ≤ workers }
    ensures some { 1 ≤ result }
    ensures few { result ≤ workers }
{
    if slices < workers as usize {
        (slices as u32).max(1)
    } else {
        workers
    }
}

// Runs each worker, in a thread of its own where one can be made.
fn run_all<R: Threads + Sync, G: Gate>(rt: &R, claims: &Claims, workers: &mut [Worker], gate: &G)
    requires some { 0 < length workers.old }
    requires work { All (λ worker. WorksFor worker claims.now) workers.old }
    ensures work { All (λ worker. WorksFor worker claims.now) workers.new }
    ensures seen { All (λ worker. worker.view.seen ≡ slice_count claims.now.pairs) workers.new }
    ensures shares { sum_by (λ worker. worker.view.share) workers.new ≡ sum_by (λ worker. worker.view.share) workers.old }
{
    let threads = workers.len();
    let run = |_, worker: &mut Worker|
        requires { WorksFor worker.now claims.now }
        ensures { HasRun claims.entry.now worker.entry.now.view.share worker.exit.now }
    { worker.run(claims, gate) };
    for_each_mut(rt, workers, threads, &run);
}

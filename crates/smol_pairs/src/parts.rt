//! The search for encounters in parts, side by side.
ghost use Rattle.std.specs.Prelude.{◌≤◌, IfOk, length};
ghost use Rattle.std.specs.Thread.{IsSync};
ghost use Rattle.smol_pairs.specs.Searching.{AreFound};

use crate::keys::Keys;
use crate::rows::look_from;
use crate::search::Search;
use rayon::{current_num_threads, join_mut};
use smol_streams::Streams;
use std::alloc::{AllocError, Global};
use std::thread::Threads;

// From so many seekers on it pays to start a thread for half of them.
const WORTH_A_THREAD: usize = 8192;

/// The encounters among all seekers, in any order.
pub fn look<R: Threads + Sync>(rt: &R, alloc: Global, search: &Search) -> Result<Keys, AllocError>
    ensures { IfOk result (AreFound search.now 0 (length search.now.seekers.now)) }
{
    let count = search.seekers.len();
    look_halved(rt, alloc, search, 0, count, halvings_of(rt, count))
}

// How often a list of so many seekers is halved: so often that each processor has a part, and a short list not at all. To ask for
// the processors costs more than the search for a few.
fn halvings_of(rt: &impl Threads, count: usize) -> u32 {
    if count < WORTH_A_THREAD {
        return 0;
    }
    current_num_threads(rt).ilog2()
}

// The encounters of the seekers at the places from one up to another with those behind them: so often halved, or looked for in turn
// where they are few.
#[cycle(halves)]
fn look_halved<R: Threads + Sync>(
    rt: &R,
    alloc: Global,
    search: &Search,
    start: usize,
    end: usize,
    halvings: u32,
) -> Result<Keys, AllocError>
    requires ordered { start ≤ end }
    requires end { end ≤ length search.now.seekers.now }
    ensures { IfOk result (AreFound search.now start end) }
{
    if halvings == 0 || end - start < WORTH_A_THREAD {
        return look_in_turn(alloc, search, start, end);
    }
    let middle = start + (end - start) / 2;
    let (front, back) = look_both(rt, alloc, search, start, middle, end, halvings - 1);
    let mut keys = front?;
    keys.append(back?)?;
    Ok(keys)
}

// The same of two parts, side by side.
#[cycle(halves)]
fn look_both<R: Threads + Sync>(
    rt: &R,
    alloc: Global,
    search: &Search,
    start: usize,
    middle: usize,
    end: usize,
    halvings: u32,
) -> (Result<Keys, AllocError>, Result<Keys, AllocError>)
    requires low { start ≤ middle }
    requires high { middle ≤ end }
    requires end { end ≤ length search.now.seekers.now }
    ensures front { IfOk result.0 (AreFound search.now start middle) }
    ensures back { IfOk result.1 (AreFound search.now middle end) }
{
    let mut front = || -> Result<Keys, AllocError>
        requires { IsSync R.row × (start ≤ middle) × (middle ≤ length search.now.seekers.now) }
        ensures { IfOk result (AreFound search.entry.now start middle) }
    { look_halved(rt, alloc, search, start, middle, halvings) };
    let mut back = || -> Result<Keys, AllocError>
        requires { IsSync R.row × (middle ≤ end) × (end ≤ length search.now.seekers.now) }
        ensures { IfOk result (AreFound search.entry.now middle end) }
    { look_halved(rt, alloc, search, middle, end, halvings) };
    join_mut(rt, &mut front, &mut back)
}

// The same, one place after another.
fn look_in_turn(
    alloc: Global,
    search: &Search,
    start: usize,
    end: usize,
) -> Result<Keys, AllocError>
    requires end { end ≤ length search.now.seekers.now }
    ensures { IfOk result (AreFound search.now start end) }
{
    let mut streams = Streams::of_seed(search.seed);
    let mut keys = Keys::new(alloc);
    look_from(search, &mut streams, start..end, &mut keys)?;
    Ok(keys)
}

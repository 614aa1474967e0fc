//! Motion of many molecules in parts, side by side.
ghost use Rattle.std.specs.Prelude.{◌≡◌, ◌+◌, ◌++◌, ◌^◌, ◌≤◌, All, IfOk, OnOk, length, map, take, drop};
ghost use Rattle.std.specs.Thread.{IsSync};
ghost use Rattle.smol_meaning.specs.Events.{lone_reaction};
ghost use Rattle.smol_meaning.specs.Motion.{all_diffused};
ghost use Rattle.smol_meaning.specs.Placed.{IsPlaced};
ghost use Rattle.smol_step.specs.Diffused.{AreDiffused};

use crate::motion::diffuse_in_turn;
use crate::setup::Setup;
use rayon::{current_num_threads, join_mut};
use smol_types::Mol;
use std::alloc::{AllocError, Global};
use std::thread::Threads;

// From so many molecules on it pays to start a thread for half of them.
const WORTH_A_THREAD: usize = 8192;

// How often a list of so many molecules is halved: so often that each processor has a part, and a short list not at all. To ask
// for the processors costs more than the motion of a few molecules.
fn halvings_of(rt: &impl Threads, count: usize) -> u32 {
    if count < WORTH_A_THREAD {
        return 0;
    }
    current_num_threads(rt).ilog2()
}

// Brings the first items behind the middle of a list up to those that are left in front of it.
fn close_up<T: Copy>(items: &mut [T], middle: usize, front: usize, back: usize)
    requires front { front ≤ middle }
    requires back { middle + back ≤ length items.old }
    ensures items { take (front + back) items.new ≡ take front items.old ++ take back (drop middle items.old) }
    ensures count { length items.new ≡ length items.old }
{
    if front < middle {
        items.copy_within(middle..middle + back, front);
    }
}

// Moves molecules: so often halved, or all in turn where they are few.
#[cycle(halves)]
fn diffuse_halved<R: Threads + Sync>(
    rt: &R,
    setup: &Setup,
    seed: u64,
    k: u32,
    halvings: u32,
    mols: &mut [Mol],
    reactions: &mut [Option<u16>],
) -> usize
    requires placed { All (IsPlaced setup.now (2 ^ 57)) mols.old }
    requires beside { length reactions.old ≡ length mols.old }
    ensures { AreDiffused setup.now seed k mols.old mols.new reactions.new result }
{
    if halvings == 0 || mols.len() < WORTH_A_THREAD {
        return diffuse_in_turn(setup, seed, k, mols, reactions);
    }
    let middle = mols.len() / 2;
    let (front_mols, back_mols) = mols.split_at_mut(middle);
    let (front_reactions, back_reactions) = reactions.split_at_mut(middle);
    let (front, back) = diffuse_both(
        rt,
        setup,
        seed,
        k,
        halvings - 1,
        front_mols,
        front_reactions,
        back_mols,
        back_reactions,
    );
    close_up(mols, middle, front, back);
    close_up(reactions, middle, front, back);
    front + back
}

// Moves two lists of molecules side by side.
#[cycle(halves)]
fn diffuse_both<R: Threads + Sync>(
    rt: &R,
    setup: &Setup,
    seed: u64,
    k: u32,
    halvings: u32,
    front_mols: &mut [Mol],
    front_reactions: &mut [Option<u16>],
    back_mols: &mut [Mol],
    back_reactions: &mut [Option<u16>],
) -> (usize, usize)
    requires front_placed { All (IsPlaced setup.now (2 ^ 57)) front_mols.old }
    requires front_beside { length front_reactions.old ≡ length front_mols.old }
    requires back_placed { All (IsPlaced setup.now (2 ^ 57)) back_mols.old }
    requires back_beside { length back_reactions.old ≡ length back_mols.old }
    ensures front { AreDiffused setup.now seed k front_mols.old front_mols.new front_reactions.new result.0 }
    ensures back { AreDiffused setup.now seed k back_mols.old back_mols.new back_reactions.new result.1 }
{
    let mut front = || -> usize
        requires { IsSync R.row × All (IsPlaced setup.now (2 ^ 57)) front_mols.now
            × (length front_reactions.now ≡ length front_mols.now) }
        ensures { AreDiffused setup.entry.now seed k front_mols.entry.now front_mols.exit.now front_reactions.exit.now result }
    { diffuse_halved(rt, setup, seed, k, halvings, front_mols, front_reactions) };
    let mut back = || -> usize
        requires { IsSync R.row × All (IsPlaced setup.now (2 ^ 57)) back_mols.now
            × (length back_reactions.now ≡ length back_mols.now) }
        ensures { AreDiffused setup.entry.now seed k back_mols.entry.now back_mols.exit.now back_reactions.exit.now result }
    { diffuse_halved(rt, setup, seed, k, halvings, back_mols, back_reactions) };
    join_mut(rt, &mut front, &mut back)
}

/// Moves all molecules, and tells of each that is left which reaction it makes alone then. Those that are absorbed leave the list,
/// and the others keep their order.
pub(crate) fn diffuse<R: Threads + Sync>(
    rt: &R,
    alloc: Global,
    setup: &Setup,
    seed: u64,
    k: u32,
    mols: &mut Vec<Mol>,
) -> Result<Vec<Option<u16>>, AllocError>
    requires placed { All (IsPlaced setup.now (2 ^ 57)) mols.old.items }
    ensures moved { OnOk result (mols.new.items ≡ all_diffused setup.now seed k mols.old.items) }
    ensures reactions { IfOk result (λ reactions. reactions.items ≡ map (lone_reaction setup.now seed k) mols.new.items) }
{
    let mut reactions: Vec<Option<u16>> = vec![in alloc; None; mols.len()]?;
    let halvings = halvings_of(rt, mols.len());
    let left = diffuse_halved(rt, setup, seed, k, halvings, mols, &mut reactions);
    mols.truncate(left);
    reactions.truncate(left);
    Ok(reactions)
}

//! The search for encounters among seekers in box order.
ghost use Rattle.std.specs.Prelude.{◌≡◌, ℕ, ◌+◌, ◌<◌, ◌≤◌, ◌++◌, length, OnOk, map};
ghost use Rattle.smol_meaning.specs.Encounters.{encounters_of_two};
ghost use Rattle.smol_pairs.specs.Encounters.{ranks_of};
ghost use Rattle.smol_pairs.specs.Ranked.{IsRanked};
ghost use Rattle.smol_pairs.specs.Searching.{HaveMetAt, HaveMetIn, IsGrownIn, IsSeekerIn};
ghost use Rattle.smol_pairs.specs.Seekers.{mol_at};

use crate::encounter::Encounter;
use crate::keys::Keys;
use crate::meeting::may_react;
use crate::ranked::Ranked;
use crate::reach::is_out_of_reach;
use crate::search::Search;
use crate::seeker::Seeker;
use smol_sheets::Panels;
use smol_streams::Streams;
use smol_types::Mol;
use std::alloc::AllocError;
use std::ops::Range;

// Adds the encounters of two molecules, one for each reaction that they may make.
fn add_of_two(
    panels: &Panels,
    streams: &mut Streams,
    a: &Ranked,
    b: &Ranked,
    k: u32,
    keys: &mut Keys,
) -> Result<(), AllocError>
    requires a { IsRanked panels.now a.now }
    requires b { IsRanked panels.now b.now }
    ensures keys { OnOk result (keys.new ≡ keys.old
        ++ map ranks_of (encounters_of_two panels.now streams.old k a.now.rank a.now.mol b.now.rank b.now.mol 0 panels.now.reactions)) }
    ensures seed { streams.new ≡ streams.old }
{
    for (number, reaction) in panels.config().reactions().iter().enumerate() {
        if may_react(panels, streams, reaction, number as u16, a, b, k) {
            keys.add(&Encounter {
                rank_a: a.rank as u32,
                rank_b: b.rank as u32,
                reaction: number as u16,
            })?;
        }
    }
    Ok(())
}

// The molecule of a rank.
fn ranked(mols: &[Mol], rank: usize) -> Ranked
    requires { rank < length mols.now }
    ensures mol { result.mol ≡ mol_at mols.now rank }
    ensures rank { result.rank ≡ rank }
{
    Ranked {
        mol: mols[rank],
        rank,
    }
}

// Adds the encounters of two seekers, of which the one with the lower rank comes first.
fn meet(
    search: &Search,
    streams: &mut Streams,
    a: &Seeker,
    b: &Seeker,
    keys: &mut Keys,
) -> Result<(), AllocError>
    requires a { IsSeekerIn search.now a.now }
    requires b { IsSeekerIn search.now b.now }
    requires seed { streams.old ≡ search.now.seed }
    ensures grown { OnOk result (IsGrownIn search.now keys.old keys.new) }
    ensures met { OnOk result (HaveMetIn search.now keys.new a.now.rank b.now.rank) }
    ensures seed { streams.new ≡ streams.old }
{
    let one = ranked(search.mols, a.rank);
    let other = ranked(search.mols, b.rank);
    if a.rank < b.rank {
        add_of_two(search.panels, streams, &one, &other, search.k, keys)
    } else if b.rank < a.rank {
        add_of_two(search.panels, streams, &other, &one, search.k, keys)
    } else {
        Ok(())
    }
}

// Adds the encounters of two seekers, if they are within reach of each other. Most of them aren't.
fn look(
    search: &Search,
    streams: &mut Streams,
    a: &Seeker,
    b: &Seeker,
    keys: &mut Keys,
) -> Result<(), AllocError>
    requires a { IsSeekerIn search.now a.now }
    requires b { IsSeekerIn search.now b.now }
    requires seed { streams.old ≡ search.now.seed }
    ensures grown { OnOk result (IsGrownIn search.now keys.old keys.new) }
    ensures met { OnOk result (HaveMetIn search.now keys.new a.now.rank b.now.rank) }
    ensures seed { streams.new ≡ streams.old }
{
    if is_out_of_reach(search.reach, &a.place, &b.place) {
        Ok(())
    } else {
        meet(search, streams, a, b, keys)
    }
}

/// Looks from a place in box order at those of a run of places that are behind it.
pub fn look_along(
    search: &Search,
    streams: &mut Streams,
    place: usize,
    run: Range<usize>,
    keys: &mut Keys,
) -> Result<(), AllocError>
    requires place { place < length search.now.seekers.now }
    requires run { run.end ≤ length search.now.seekers.now }
    requires seed { streams.old ≡ search.now.seed }
    ensures grown { OnOk result (IsGrownIn search.now keys.old keys.new) }
    ensures met { OnOk result ((q : ℕ) → place < q → run.start ≤ q → q < run.end → HaveMetAt search.now keys.new place q) }
    ensures seed { streams.new ≡ streams.old }
{
    let seekers = search.seekers;
    for other in run.start.max(place + 1)..run.end {
        look(search, streams, &seekers[place], &seekers[other], keys)?;
    }
    Ok(())
}

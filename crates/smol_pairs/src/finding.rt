//! Which molecules may react, looked for among those in near boxes.
ghost use Rattle.std.specs.Prelude.{◌≡◌, ℕ, ◌≤◌, ◌<◌, All, Contains, IfOk, Some, map};
ghost use Rattle.smol_meaning.specs.Encounters.{encounters_of};
ghost use Rattle.smol_meaning.specs.Events.{is_free};
ghost use Rattle.smol_pairs.specs.Encounters.{AreRanksIn, ranks_of};
ghost use Rattle.smol_pairs.specs.Met.{Has};
ghost use Rattle.smol_pairs.specs.Moved.{AreMoved};
ghost use Rattle.smol_pairs.specs.Reach.{longest_of, reaches_of};
ghost use Rattle.smol_pairs.specs.Seekers.{IsSeeker, rank_of};

use crate::encounter::Encounter;
use crate::grid::grid_of;
use crate::keys::Keys;
use crate::listing::in_order;
use crate::parts::look;
use crate::reaches::Reaches;
use crate::search::Search;
use crate::seeker::{Seeker, places_of, seekers_at, seekers_of};
use smol_cells::in_box_order;
use smol_sheets::Panels;
use smol_types::Mol;
use std::alloc::{AllocError, Global};
use std::thread::Threads;

/// Which molecules may react in step k, by the lower serial, the higher one and the reaction, and if the configuration asks for the
/// nearest first, by distance before these. The molecules are those after the step's motion, and `free` says which of them made no
/// reaction alone.
pub fn encounters<R: Threads + Sync>(
    rt: &R,
    alloc: Global,
    panels: &Panels,
    reaches: &Reaches,
    mols: &[Mol],
    free: &[bool],
    seed: u64,
    k: u32,
) -> Result<Vec<Encounter>, AllocError>
    requires moved { AreMoved panels.now mols.now }
    requires reaches { reaches.now ≡ panels.now }
    requires free { free.now ≡ map (is_free panels.now seed k) mols.now }
    requires step { k ≤ 4000000 }
    ensures encounters { IfOk result (λ found. found.items ≡ map ranks_of (encounters_of panels.now seed k mols.now)) }
    ensures ranks { IfOk result (λ found. All (AreRanksIn mols.now) found.items) }
{
    let Some(reach) = reaches.longest() else {
        return Ok(Vec::new(alloc));
    };
    let seekers = seekers_of(alloc, reaches, mols, free)?;
    let keys = keys_among(rt, alloc, panels, mols, &seekers, reach, seed, k)?;
    let found = in_order(alloc, panels.config().nearest(), mols, keys)?;
    Ok(found)
}

// The encounters among seekers, in any order.
fn keys_among<R: Threads + Sync>(
    rt: &R,
    alloc: Global,
    panels: &Panels,
    mols: &[Mol],
    seekers: &[Seeker],
    reach: u64,
    seed: u64,
    k: u32,
) -> Result<Keys, AllocError>
    requires moved { AreMoved panels.now mols.now }
    requires seekers { All (IsSeeker panels.now seed k mols.now) seekers.now }
    requires reach { longest_of (reaches_of panels.now) ≡ Some reach }
    ensures sound { IfOk result (λ keys. All (Contains (map ranks_of (encounters_of panels.now seed k mols.now))) keys) }
    ensures has { IfOk result (λ keys. (i j : ℕ) → i < j → Contains (map rank_of seekers.now) i → Contains (map rank_of seekers.now) j
        → Has panels.now seed k mols.now keys i j) }
{
    let grid = grid_of(seekers, reach);
    let places = places_of(alloc, seekers)?;
    let made = in_box_order(alloc, &grid, &places)?;
    let ordered = seekers_at(alloc, seekers, &made.order)?;
    let search = Search {
        panels,
        mols,
        seekers: &ordered,
        cells: &made.cells,
        reach,
        seed,
        k,
    };
    look(rt, alloc, &search)
}

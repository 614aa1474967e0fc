//! Encounters as pairs of serials.
ghost use Rattle.std.specs.Prelude.{◌≡◌, ℕ, ◌≤◌, All, IfOk, map};
ghost use Rattle.smol_types.specs.declared.draft.Draft.{Draft};
ghost use Rattle.smol_plan.specs.Pair.{IsOrdered};
ghost use Rattle.smol_meaning.specs.Encounters.{candidates_of, encounters_of};
ghost use Rattle.smol_meaning.specs.Events.{is_free};
ghost use Rattle.smol_pairs.specs.Encounters.{AreRanksIn, pair_at, ranks_of};
ghost use Rattle.smol_pairs.specs.Moved.{AreMoved, IsAmong};

use crate::encounter::Encounter;
use crate::finding::encounters;
use crate::reaches::Reaches;
use smol_plan::Pair;
use smol_sheets::Panels;
use smol_types::{Config, Mol};
use std::alloc::{AllocError, Global};
use std::thread::Threads;

/// The pairs that may react in step k, by the lower serial, the higher one and the reaction, and if the configuration asks for the
/// nearest first, by distance before these. The molecules are those after the step's motion, and `free` says which of them made no
/// reaction alone.
pub fn candidates<R: Threads + Sync>(
    rt: &R,
    alloc: Global,
    config: &Config,
    mols: &[Mol],
    free: &[bool],
    seed: u64,
    k: u32,
) -> Result<Vec<Pair>, AllocError>
    requires moved { AreMoved config.now mols.now }
    requires free { free.now ≡ map (is_free config.now seed k) mols.now }
    requires step { k ≤ 4000000 }
    ensures pairs { IfOk result (λ pairs. pairs.items ≡ candidates_of config.now seed k mols.now) }
    ensures ordered { IfOk result (λ pairs. IsOrdered pairs.items) }
    ensures among { IfOk result (λ pairs. All (IsAmong config.now seed k mols.now) pairs.items) }
{
    let panels = Panels::of(alloc, config)?;
    let reaches = Reaches::of(alloc, config)?;
    let encounters = encounters(rt, alloc, &panels, &reaches, mols, free, seed, k)?;
    let pairs = pairs_of(alloc, mols, &encounters)?;
    Ok(pairs)
}

/// Encounters of these molecules as pairs of serials, in their order. Those of a step are its candidates.
pub fn pairs_of(
    alloc: Global,
    mols: &[Mol],
    encounters: &[Encounter],
) -> Result<Vec<Pair>, AllocError>
    requires ranks { All (AreRanksIn mols.now) encounters.now }
    ensures each { IfOk result (λ pairs. pairs.items ≡ map (pair_at mols.now) encounters.now) }
    ensures candidates { IfOk result (λ pairs. (draft : Draft) (seed k : ℕ) →
        encounters.now ≡ map ranks_of (encounters_of draft seed k mols.now) → pairs.items ≡ candidates_of draft seed k mols.now) }
{
    let mut pairs = Vec::with_capacity(alloc, encounters.len())?;
    for encounter in encounters {
        pairs.push(pair_at(mols, encounter))?;
    }
    Ok(pairs)
}

// The serials of the molecules at the ranks of an encounter.
fn pair_at(mols: &[Mol], encounter: &Encounter) -> Pair
    requires { AreRanksIn mols.now encounter.now }
    ensures { result ≡ pair_at mols.now encounter.now }
{
    Pair {
        a: mols[encounter.rank_a as usize].serial,
        b: mols[encounter.rank_b as usize].serial,
        reaction: encounter.reaction,
    }
}

//! Encounters in the order in which they come to a reaction.
ghost use Rattle.std.specs.Prelude.{◌≡◌, ◌^◌, true, All, IfOk, IsPermutation, map};
ghost use Rattle.std.specs.List.Sorted.{IsNonDecreasingBy, IsStrictlyIncreasing};
ghost use Rattle.smol_types.specs.declared.state.Mol.{Mol};
ghost use Rattle.smol_meaning.specs.Sighted.{IsPlaceWithin};
ghost use Rattle.smol_pairs.specs.declared.encounter.Encounter.{Encounter};
ghost use Rattle.smol_pairs.specs.Encounters.{AreRanksIn};
ghost use Rattle.smol_pairs.specs.Keys.{HaveSame, IsOfKey, key_of};
ghost use Rattle.smol_pairs.specs.Listing.{HasRoom, key_in, measured_at, met_of, number_of};

use crate::encounter::Encounter;
use crate::keys::Keys;
use smol_geom::dist2;
use smol_types::Mol;
use std::alloc::{AllocError, Global};

// An encounter with the square of the distance of its molecules, in square ticks. The distance is compared first.
#[derive(Clone, Copy, PartialEq, Eq, PartialOrd, Ord)]
struct Measured {
    square: u128,
    met: Encounter,
}

/// What was found, each once: by the lower rank, the higher one and the reaction, and if the nearest come first, by distance
/// before these.
pub fn in_order(
    alloc: Global,
    nearest: bool,
    mols: &[Mol],
    keys: Keys,
) -> Result<Vec<Encounter>, AllocError>
    requires places { All (λ (mol : Mol). IsPlaceWithin (2 ^ 57) mol.place) mols.now }
    requires ranks { All (AreRanksIn mols.now) keys }
    requires room { All IsOfKey keys }
    ensures rising { IfOk result (λ found. IsStrictlyIncreasing (map (key_in nearest mols.now) found.items)) }
    ensures same { IfOk result (λ found. HaveSame keys found.items) }
{
    let found = keys.into_order(alloc)?;
    if nearest {
        nearest_first(alloc, mols, &found)
    } else {
        Ok(found)
    }
}

// The nearest first, and at one distance as they are.
fn nearest_first(
    alloc: Global,
    mols: &[Mol],
    found: &[Encounter],
) -> Result<Vec<Encounter>, AllocError>
    requires places { All (λ (mol : Mol). IsPlaceWithin (2 ^ 57) mol.place) mols.now }
    requires ranks { All (AreRanksIn mols.now) found.now }
    requires room { All IsOfKey found.now }
    requires apart { IsStrictlyIncreasing (map key_of found.now) }
    ensures rising { IfOk result (λ sorted. IsStrictlyIncreasing (map (key_in true mols.now) sorted.items)) }
    ensures same { IfOk result (λ sorted. HaveSame found.now sorted.items) }
{
    let mut measured = measure(alloc, mols, found)?;
    sort_measured(&mut measured);
    encounters_of(alloc, &measured)
}

// Encounters with the squares of their distances.
fn measure(alloc: Global, mols: &[Mol], found: &[Encounter]) -> Result<Vec<Measured>, AllocError>
    requires places { All (λ (mol : Mol). IsPlaceWithin (2 ^ 57) mol.place) mols.now }
    requires ranks { All (AreRanksIn mols.now) found.now }
    ensures { IfOk result (λ measured. measured.items ≡ map (measured_at mols.now) found.now) }
{
    let mut measured = Vec::with_capacity(alloc, found.len())?;
    for met in found {
        measured.push(measured_at(mols, met))?;
    }
    Ok(measured)
}

// An encounter with the square of its distance.
fn measured_at(mols: &[Mol], met: &Encounter) -> Measured
    requires places { All (λ (mol : Mol). IsPlaceWithin (2 ^ 57) mol.place) mols.now }
    requires ranks { AreRanksIn mols.now met.now }
    ensures { result ≡ measured_at mols.now met.now }
{
    let a = &mols[met.rank_a as usize];
    let b = &mols[met.rank_b as usize];
    Measured {
        square: dist2(&a.place, &b.place),
        met: *met,
    }
}

// Sorts by distance, and what is at one distance as encounters are compared.
fn sort_measured(measured: &mut Vec<Measured>)
    requires { All HasRoom measured.old.items }
    ensures permutation { IsPermutation measured.old.items measured.new.items }
    ensures rising { IsNonDecreasingBy number_of measured.new.items }
{
    measured.sort_unstable();
}

// The encounters without their distances.
fn encounters_of(alloc: Global, measured: &[Measured]) -> Result<Vec<Encounter>, AllocError>
    ensures { IfOk result (λ found. found.items ≡ map met_of measured.now) }
{
    let mut found = Vec::with_capacity(alloc, measured.len())?;
    for one in measured {
        found.push(one.met)?;
    }
    Ok(found)
}

//! The molecules that may react with others.
ghost use Rattle.std.specs.Prelude.{◌≡◌, ℕ, ◌<◌, length, All, IfOk, map};
ghost use Rattle.smol_types.specs.declared.state.Mol.{Mol};
ghost use Rattle.smol_meaning.specs.Events.{is_free};
ghost use Rattle.smol_pairs.specs.Seekers.{AreCovered, IsSeeker, place_of, seeker_at};

use crate::reaches::Reaches;
use smol_geom::Place;
use smol_types::Mol;
use std::alloc::{AllocError, Global};

/// A molecule that may react with another: its place, and its rank in the list after motion.
#[derive(Clone, Copy)]
pub struct Seeker {
    pub place: Place,
    pub rank: usize,
}

/// The molecules that made no reaction alone, as `free` says, and that reach others at all.
pub fn seekers_of(
    alloc: Global,
    reaches: &Reaches,
    mols: &[Mol],
    free: &[bool],
) -> Result<Vec<Seeker>, AllocError>
    requires species { All (λ (mol : Mol). mol.species < length reaches.now.species) mols.now }
    requires free { length free.now ≡ length mols.now }
    ensures seekers { IfOk result (λ seekers. (seed k : ℕ) → free.now ≡ map (is_free reaches.now seed k) mols.now
        → All (IsSeeker reaches.now seed k mols.now) seekers.items) }
    ensures covered { IfOk result (λ seekers. (seed k : ℕ) → free.now ≡ map (is_free reaches.now seed k) mols.now
        → AreCovered reaches.now seed k mols.now (length mols.now) seekers.items) }
{
    let mut seekers = Vec::new(alloc);
    for (rank, mol) in mols.iter().enumerate() {
        if free[rank] && reaches.reach(mol.species).is_some() {
            seekers.push(Seeker {
                place: mol.place,
                rank,
            })?;
        }
    }
    Ok(seekers)
}

/// The places of seekers.
pub fn places_of(alloc: Global, seekers: &[Seeker]) -> Result<Vec<Place>, AllocError>
    ensures { IfOk result (λ places. places.items ≡ map place_of seekers.now) }
{
    seekers.iter().map(|seeker| seeker.place).collect(alloc)
}

/// The seekers at these indexes.
pub fn seekers_at(
    alloc: Global,
    seekers: &[Seeker],
    order: &[usize],
) -> Result<Vec<Seeker>, AllocError>
    requires { All (λ index. index < length seekers.now) order.now }
    ensures { IfOk result (λ ordered. ordered.items ≡ map (seeker_at seekers.now) order.now) }
{
    let mut ordered = Vec::with_capacity(alloc, order.len())?;
    for index in order {
        ordered.push(seekers[*index])?;
    }
    Ok(ordered)
}

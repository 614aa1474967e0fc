//! How many molecules are in each part of a range.
ghost use Rattle.std.specs.Prelude.{◌≡◌, ◌*◌, ◌^◌, ◌<◌, ◌≤◌, ◌<ℤ◌, All, IfOk, length, unsigned_abs};
ghost use Rattle.smol_types.specs.declared.state.Mol.{Mol as TheMol};
ghost use Rattle.smol_stats.specs.Bins.{bins_of, is_in_bin, is_mol_in_bin};
ghost use Rattle.smol_stats.specs.Tally.{IsPlaced};

use crate::counts::raise;
use smol_types::Mol;
use std::alloc::{AllocError, Global};

/// How many molecules of the species that count are in each of the `n` equal bins between two coordinates of an axis, in ticks.
/// A molecule at an end or beyond it is in no bin. The error says that memory ran out.
pub fn bins(
    alloc: Global,
    mols: &[Mol],
    who: &[bool],
    axis: usize,
    low: i64,
    high: i64,
    n: u32,
) -> Result<Vec<u64>, AllocError>
    requires species { All (λ (mol : TheMol). mol.species < length who.now) mols.now }
    requires few { length mols.now ≤ 1000000 }
    requires axis { axis < 3 }
    requires ordered { low <ℤ high }
    requires low { unsigned_abs low ≤ 2 * 10 ^ 12 }
    requires high { unsigned_abs high ≤ 2 * 10 ^ 12 }
    requires some { 0 < n }
    requires n { n ≤ 1000 }
    ensures { IfOk result (λ counts. counts.items ≡ bins_of who.now axis low high n mols.now) }
{
    let mut counts = vec![in alloc; 0u64; n as usize]?;
    for mol in mols {
        let bin = bin_of_mol(mol, who, axis, low, high, n);
        raise(&mut counts, bin);
    }
    Ok(counts)
}

// The bin of a molecule, where its species counts and it is in one.
fn bin_of_mol(mol: &Mol, who: &[bool], axis: usize, low: i64, high: i64, n: u32) -> Option<usize>
    requires species { mol.now.species < length who.now }
    requires axis { axis < 3 }
    requires ordered { low <ℤ high }
    requires low { unsigned_abs low ≤ 2 * 10 ^ 12 }
    requires high { unsigned_abs high ≤ 2 * 10 ^ 12 }
    requires some { 0 < n }
    requires n { n ≤ 1000 }
    ensures { IsPlaced (is_mol_in_bin who.now axis low high n) n mol.now result }
{
    if who[mol.species as usize] {
        bin_of(mol.place.0[axis], low, high, n)
    } else {
        None
    }
}

// The bin of a coordinate, where it is in one.
fn bin_of(x: i64, low: i64, high: i64, n: u32) -> Option<usize>
    requires ordered { low <ℤ high }
    requires low { unsigned_abs low ≤ 2 * 10 ^ 12 }
    requires high { unsigned_abs high ≤ 2 * 10 ^ 12 }
    requires some { 0 < n }
    requires n { n ≤ 1000 }
    ensures { IsPlaced (is_in_bin low high n) n x result }
{
    if x <= low || high <= x {
        return None;
    }
    let bin = x.abs_diff(low) * u64::from(n) / high.abs_diff(low);
    Some(bin as usize)
}

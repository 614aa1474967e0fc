//! Counts of molecules, species by species.
ghost use Rattle.std.specs.Prelude.{◌≡◌, ◌^◌, ◌<◌, All, IfOk, filter, length};
ghost use Rattle.smol_types.specs.declared.state.Mol.{Mol as TheMol};
ghost use Rattle.smol_meaning.specs.Inside.{is_inside};
ghost use Rattle.smol_meaning.specs.Lines.{counts_from};
ghost use Rattle.smol_meaning.specs.Sighted.{IsPlaceWithin};

use smol_compart::inside;
use smol_types::{Config, Mol, Species};
use std::alloc::{AllocError, Global};

/// How many molecules there are of each species, in order.
pub fn counts_of(alloc: Global, species: &[Species], mols: &[Mol]) -> Result<Vec<u64>, AllocError>
    requires { All (λ (mol : TheMol). mol.species < length species.now) mols.now }
    ensures { IfOk result (λ counts. counts.items ≡ counts_from mols.now 0 species.now) }
{
    let mut counts = vec![in alloc; 0u64; species.len()]?;
    for mol in mols {
        counts[mol.species as usize] += 1;
    }
    Ok(counts)
}

/// How many molecules inside a compartment there are of each species, in order.
pub fn counts_inside(
    alloc: Global,
    config: &Config,
    compartment: u16,
    mols: &[Mol],
) -> Result<Vec<u64>, AllocError>
    requires compartment { compartment < length config.now.compartments }
    requires species { All (λ (mol : TheMol). mol.species < length config.now.species) mols.now }
    requires places { All (λ (mol : TheMol). IsPlaceWithin (2 ^ 57) mol.place) mols.now }
    ensures { IfOk result (λ counts. counts.items
        ≡ counts_from (filter (λ (mol : TheMol). is_inside config.now compartment mol.place) mols.now) 0 config.now.species) }
{
    let mut counts = vec![in alloc; 0u64; config.species().len()]?;
    for mol in mols {
        if inside(config, compartment, &mol.place) {
            counts[mol.species as usize] += 1;
        }
    }
    Ok(counts)
}

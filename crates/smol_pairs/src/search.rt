ghost use Rattle.std.specs.Prelude.{◌≡◌, ◌<◌, ◌≤◌, ◌^◌, All, Some, length, map};
ghost use Rattle.smol_types.specs.declared.state.Mol.{Mol};
ghost use Rattle.smol_types.specs.Limits.{most_molecules};
ghost use Rattle.smol_meaning.specs.Sighted.{IsPlaceWithin};
ghost use Rattle.smol_cells.specs.Placed.{AreInOrder};
ghost use Rattle.smol_pairs.specs.Reach.{longest_of, reaches_of};
ghost use Rattle.smol_pairs.specs.Seekers.{IsSeeker, place_of};

use crate::seeker::Seeker;
use smol_cells::Cells;
use smol_sheets::Panels;
use smol_types::Mol;

/// What a step looks for encounters with: molecules after their motion, the seekers among them in box order, and the longest
/// reach of any species.
#[derive(Clone, Copy)]
pub struct Search<'a, 'b> {
    pub panels: &'a Panels<'b>,
    pub mols: &'a [Mol],
    pub seekers: &'a [Seeker],
    pub cells: &'a Cells,
    pub reach: u64,
    pub seed: u64,
    pub k: u32,
    ghost few: { length mols.now ≤ most_molecules },
    ghost species: { All (λ (mol : Mol). mol.species < length panels.now.species) mols.now },
    ghost places: { All (λ (mol : Mol). IsPlaceWithin (2 ^ 57) mol.place) mols.now },
    ghost longest: { longest_of (reaches_of panels.now) ≡ Some reach },
    ghost known: { All (IsSeeker panels.now seed k mols.now) seekers.now },
    ghost order: { AreInOrder (map place_of seekers.now) cells.now },
}

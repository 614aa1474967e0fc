//! The species that the lines so far name, and how each moves.
ghost use Rattle.std.specs.Prelude.{◌≡◌, ◌≤◌, ◌++◌, ◌∷◌, ◌&&◌, [], ℕ, false, length, nat_le, nat_lt, slice_index_or, OnOk, if◌then◌else◌};
ghost use Rattle.smol_config.specs.Motion.{still};

use crate::motion::Motion;
use smol_line::{Chosen, NameSet};
use std::alloc::{AllocError, Global};

/// How a species moves of which no line says it.
const STILL: Motion = Motion::Difstep(0);

// Lets the chosen species move like this, and the others as before.
fn set_all(motions: &mut [Motion], chosen: Chosen, motion: Motion)
    requires ordered { chosen.first ≤ chosen.end }
    requires within { chosen.end ≤ length motions.old }
    ensures { (number : ℕ) → slice_index_or motions.new number still
        ≡ (if nat_le chosen.first number && nat_lt number chosen.end then motion else slice_index_or motions.old number still) }
{
    for i in chosen.first..chosen.end {
        motions[i] = motion;
    }
}

/// Species by their numbers: their names, and how they move.
#[derive(Drop)]
pub struct SpeciesTable {
    pub names: NameSet,
    pub motions: Vec<Motion>,
    ghost paired: { length names ≤ length motions.items },
}

impl SpeciesTable {
    ghost use Rattle.smol_line.specs.Names.{is_named};

    /// No species, which takes no memory.
    pub fn new(alloc: Global) -> SpeciesTable
        ensures names { result.names ≡ [] }
        ensures motions { result.motions.items ≡ [] }
    {
        SpeciesTable {
            names: NameSet::new(alloc),
            motions: Vec::new(alloc),
        }
    }

    /// Adds a species of a new name, which stands still.
    pub fn add(&mut self, alloc: Global, name: &str) -> Result<(), AllocError>
        requires new { is_named self.old.names name.now ≡ false }
        ensures names { OnOk result (self.new.names ≡ self.old.names ++ name.now ∷ []) }
        ensures motions { OnOk result (self.new.motions.items ≡ self.old.motions.items ++ still ∷ []) }
    {
        self.motions.push(STILL)?;
        self.names.add(alloc, name)
    }

    /// Lets the chosen species move like this, and the others as before.
    pub fn set_motion(&mut self, chosen: Chosen, motion: Motion)
        requires ordered { chosen.first ≤ chosen.end }
        requires within { chosen.end ≤ length self.old.names }
        ensures names { self.new.names ≡ self.old.names }
        ensures motions { (number : ℕ) → slice_index_or self.new.motions.items number still
            ≡ (if nat_le chosen.first number && nat_lt number chosen.end then motion
            else slice_index_or self.old.motions.items number still) }
    {
        set_all(self.motions.as_mut_slice(), chosen, motion);
    }
}

//! `species NAME ...`: the names of species, in order.
ghost use Rattle.std.specs.Prelude.{◌≡◌, ◌++◌, ◌∷◌, [], ℕ, None, Some, slice_index_or, OnOk, Ok, Err};
ghost use Rattle.smol_types.specs.declared.fault.Kind.{Kind as TheKind};
ghost use Rattle.smol_line.specs.declared.refusal.Refusal.TheVariants.{At};
ghost use Rattle.smol_line.specs.Names.{names_fault};
ghost use Rattle.smol_config.specs.Species.{further_words, species_fault, species_in};
ghost use Rattle.smol_config.specs.Motion.{still};

use crate::species_table::SpeciesTable;
use smol_line::{Refusal, new_name_in, unless};
use smol_text::StatedLine;
use smol_types::Kind;
use std::alloc::Global;

/// How many species there may be.
const MOST_SPECIES: usize = 256;

// Adds a species of a new name.
fn add_name(alloc: Global, species: &mut SpeciesTable, word: &[u8]) -> Result<(), Refusal>
    ensures names { OnOk result (species.new.names ≡ species.old.names ++ word.now ∷ []) }
    ensures motions { OnOk result (species.new.motions.items ≡ species.old.motions.items ++ still ∷ []) }
    ensures accepted { OnOk result (species_fault species.old.names word.now ≡ None) }
    ensures refused { (kind : TheKind) → result ≡ Err (At kind) → species_fault species.old.names word.now ≡ Some kind }
{
    let name = new_name_in(&species.names, word)?;
    species.add(alloc, name)?;
    Ok(())
}

// Adds a species for each word behind the first one, as long as the names are new.
fn add_names(
    alloc: Global,
    species: &mut SpeciesTable,
    line: &StatedLine<'_>,
) -> Result<(), Refusal>
    ensures names { OnOk result (species.new.names ≡ species.old.names ++ further_words line.now) }
    ensures motions { OnOk result ((number : ℕ)
        → slice_index_or species.new.motions.items number still ≡ slice_index_or species.old.motions.items number still) }
    ensures accepted { OnOk result (names_fault species_fault species.old.names (further_words line.now) ≡ None) }
    ensures refused { (kind : TheKind) → result ≡ Err (At kind) → names_fault species_fault species.old.names (further_words line.now) ≡ Some kind }
{
    for i in 1..line.len() {
        add_name(alloc, species, line.word(i))?;
    }
    Ok(())
}

/// Adds the species that a line names to those of the lines before.
#[tactic(auto, unfolding(crate::specs::Species::species_in))]
pub fn read(alloc: Global, species: &mut SpeciesTable, line: &StatedLine<'_>) -> Result<(), Refusal>
    ensures names { OnOk result (species.new.names ≡ species.old.names ++ further_words line.now) }
    ensures motions { OnOk result ((number : ℕ)
        → slice_index_or species.new.motions.items number still ≡ slice_index_or species.old.motions.items number still) }
    ensures accepted { OnOk result (species_in species.old.names line.now ≡ Ok (further_words line.now)) }
    ensures refused { (kind : TheKind) → result ≡ Err (At kind) → species_in species.old.names line.now ≡ Err kind }
{
    unless(line.len() >= 2, Kind::WrongWordCount)?;
    add_names(alloc, species, line)?;
    unless(species.names.len() <= MOST_SPECIES, Kind::TooMany)?;
    Ok(())
}

//! `compartment_mol N SPECIES CMPT`: molecules of a species inside a compartment.
ghost use Rattle.std.specs.Prelude.{◌≡◌, ◌≤◌, length};
ghost use Rattle.smol_types.specs.Limits.{most_compartments, most_species};
ghost use Rattle.smol_config.specs.CompartmentMol.{compartment_mol_in};

use smol_line::{
    Axes, NameSet, count_in, needs_walls, number_in, species_word_in, word_at, word_count,
};
use smol_text::StatedLine;
use smol_types::{Kind, Placing};

/// How many molecules a line may place.
const MOST_MOLECULES: u64 = 1_000_000;

/// What a line places, beside species and compartments of these names, by what the lines before give of the axes.
#[tactic(auto, unfolding(crate::specs::CompartmentMol::compartment_mol_in))]
pub fn judge(
    axes: &Axes,
    species: &NameSet,
    compartments: &NameSet,
    line: &StatedLine<'_>,
) -> Result<Placing, Kind>
    requires species { length species.now ≤ most_species }
    requires compartments { length compartments.now ≤ most_compartments }
    ensures { result ≡ compartment_mol_in axes.now species.now compartments.now line.now }
{
    needs_walls(axes)?;
    word_count(4, line)?;
    let n = count_in(0, MOST_MOLECULES, word_at(line, 1))? as u32;
    let species = species_word_in(species, word_at(line, 2))?;
    let compartment = number_in(compartments, word_at(line, 3))?;
    Ok(Placing::InCompartment {
        line: line.number(),
        n,
        species,
        compartment,
    })
}

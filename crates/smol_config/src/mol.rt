//! `mol N SPECIES P ...`: molecules of a species at a place between the walls.
ghost use Rattle.std.specs.Prelude.{◌≡◌, ◌≤◌, ◌<◌, pos, length};
ghost use Rattle.smol_types.specs.Limits.{most_species};
ghost use Rattle.smol_types.specs.declared.placing.Given.TheVariants.{At};
ghost use Rattle.smol_line.specs.Axes.{read_axis};
ghost use Rattle.smol_config.specs.Mol.{given_in, mol_in, given_place_in};

use smol_line::{
    Axes, Bounds, NameSet, coordinate_in, count_in, needs_walls, species_word_in, spells, word_at,
    word_count,
};
use smol_text::StatedLine;
use smol_types::{Given, Kind, Placing};

/// How many molecules a line may place.
const MOST_MOLECULES: u64 = 1_000_000;

// A coordinate between two walls, which is drawn there where the word says so.
#[tactic(auto, unfolding(crate::specs::Mol::given_in))]
fn given_in(bounds: &Bounds, word: &[u8]) -> Result<Given, Kind>
    ensures { result ≡ given_in bounds.now word.now }
{
    if spells(word, "u") {
        return Ok(Given::Any);
    }
    Ok(Given::At(coordinate_in(bounds, word)?))
}

// The coordinate of a line on an axis.
fn given_at(axis: usize, bounds: &Option<Bounds>, line: &StatedLine<'_>) -> Result<Given, Kind>
    requires { axis < 3 }
    ensures { result ≡ read_axis given_in (At (pos 1)) 3 axis bounds.now line.now }
{
    match bounds {
        None => Ok(Given::At(1)),
        Some(bounds) => given_in(bounds, word_at(line, 3 + axis)),
    }
}

// The coordinates of a line on the three axes.
#[tactic(auto, unfolding(smol_line::specs::Axes::read_axes))]
fn given_place_in(axes: &Axes, line: &StatedLine<'_>) -> Result<[Given; 3], Kind>
    ensures { result ≡ given_place_in axes.now line.now }
{
    let x = given_at(0, &axes.x, line)?;
    let y = given_at(1, &axes.y, line)?;
    let z = given_at(2, &axes.z, line)?;
    Ok([x, y, z])
}

/// What a line places, beside species of these names, by what the lines before give of the axes.
#[tactic(auto, unfolding(crate::specs::Mol::mol_in))]
pub fn judge(axes: &Axes, species: &NameSet, line: &StatedLine<'_>) -> Result<Placing, Kind>
    requires { length species.now ≤ most_species }
    ensures { result ≡ mol_in axes.now species.now line.now }
{
    let dims = needs_walls(axes)?;
    word_count(3 + dims as usize, line)?;
    let n = count_in(0, MOST_MOLECULES, word_at(line, 1))? as u32;
    let species = species_word_in(species, word_at(line, 2))?;
    let at = given_place_in(axes, line)?;
    Ok(Placing::Mol { n, species, at })
}

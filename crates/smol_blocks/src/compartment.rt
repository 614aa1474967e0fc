//! What the lines of a compartment's block say.
ghost use Rattle.std.specs.Prelude.{◌≡◌, ◌<◌, ◌≤◌, List, pos, length, Ok, Err, OnOk};
ghost use Rattle.smol_types.specs.declared.fault.Kind.{Kind as TheKind};
ghost use Rattle.smol_types.specs.Limits.{most_bounds, most_points, most_surfaces};
ghost use Rattle.smol_line.specs.Axes.{read_axis, read_axes};
ghost use Rattle.smol_blocks.specs.Compartment.{CompartmentSaid, bound_in, compartment_of, end_compartment_in, point_in, point_word};

use smol_geom::Place;
use smol_line::{
    Axes, Bounds, NameSet, micros_in, needs_walls, number_in, ticks_within, unless, word_at,
    word_count,
};
use smol_text::StatedLine;
use smol_types::{Compartment, Kind, Need};

/// How many surfaces a compartment may have.
const MOST_BOUNDS: usize = 16;

/// How many points a compartment may have.
const MOST_POINTS: usize = 16;

/// The number of the surface that a line names, beside surfaces of these names, by what the lines before say of the compartment.
#[tactic(auto, unfolding(crate::specs::Compartment::bound_in))]
pub fn bound_in(
    surfaces: &NameSet,
    compartment: &Compartment,
    line: &StatedLine<'_>,
) -> Result<u16, Kind>
    requires { length surfaces.now ≤ most_surfaces }
    ensures rule { (lines : List CompartmentSaid) → compartment.now ≡ compartment_of lines → result ≡ bound_in surfaces.now lines line.now }
    ensures room { OnOk result (length compartment.now.surfaces < most_bounds) }
{
    word_count(2, line)?;
    let surface = number_in(surfaces, word_at(line, 1))?;
    unless(compartment.surfaces.len() < MOST_BOUNDS, Kind::TooMany)?;
    Ok(surface)
}

// A coordinate of a point in ticks.
fn point_word(bounds: &Bounds, word: &[u8]) -> Result<i64, Kind>
    ensures { result ≡ point_word bounds.now word.now }
{
    let x = micros_in(word)?;
    Ok(ticks_within(bounds, x))
}

// The coordinate of a line on an axis with these walls, if it has some.
fn coordinate_at(axis: usize, bounds: &Option<Bounds>, line: &StatedLine<'_>) -> Result<i64, Kind>
    requires { axis < 3 }
    ensures { result ≡ read_axis point_word (pos 1) 1 axis bounds.now line.now }
{
    match bounds {
        None => Ok(1),
        Some(bounds) => point_word(bounds, word_at(line, 1 + axis)),
    }
}

// The coordinates of a line on the three axes.
#[tactic(auto, unfolding(smol_line::specs::Axes::read_axes))]
fn coordinates_in(axes: &Axes, line: &StatedLine<'_>) -> Result<[i64; 3], Kind>
    ensures { result ≡ read_axes point_word (pos 1) 1 axes.now line.now }
{
    let x = coordinate_at(0, &axes.x, line)?;
    let y = coordinate_at(1, &axes.y, line)?;
    let z = coordinate_at(2, &axes.z, line)?;
    Ok([x, y, z])
}

/// The point that a line gives, by what the lines before say of the compartment.
#[tactic(auto, unfolding(crate::specs::Compartment::point_in))]
pub fn point_in(
    axes: &Axes,
    compartment: &Compartment,
    line: &StatedLine<'_>,
) -> Result<Place, Kind>
    ensures rule { (lines : List CompartmentSaid) → compartment.now ≡ compartment_of lines → result ≡ point_in axes.now lines line.now }
    ensures room { OnOk result (length compartment.now.points < most_points) }
{
    let dims = needs_walls(axes)?;
    word_count(1 + usize::from(dims), line)?;
    let at = coordinates_in(axes, line)?;
    unless(compartment.points.len() < MOST_POINTS, Kind::TooMany)?;
    Ok(Place(at))
}

/// Whether a line may close the block of a compartment.
#[tactic(auto, unfolding(crate::specs::Compartment::end_compartment_in))]
pub fn closes_compartment(compartment: &Compartment, line: &StatedLine<'_>) -> Result<(), Kind>
    ensures accepted { OnOk result ((lines : List CompartmentSaid) → compartment.now ≡ compartment_of lines
        → end_compartment_in lines line.now ≡ Ok (compartment_of lines)) }
    ensures refused { (kind : TheKind) (lines : List CompartmentSaid) → result ≡ Err kind → compartment.now ≡ compartment_of lines
        → end_compartment_in lines line.now ≡ Err kind }
{
    word_count(1, line)?;
    unless(!compartment.points.is_empty(), Kind::Missing(Need::Point))?;
    Ok(())
}

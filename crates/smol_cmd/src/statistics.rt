//! Commands that print numbers over the molecules.
ghost use Rattle.std.specs.Prelude.{◌≡◌, ◌+◌, ◌<◌, ◌≤◌, ◌*ℤ◌, length, pos, unsigned_abs};
ghost use Rattle.smol_text.specs.Reading.{words_of};
ghost use Rattle.smol_line.specs.Answers.{Answers};
ghost use Rattle.smol_line.specs.Axes.{read_axis};
ghost use Rattle.smol_line.specs.Length.{micros_in, most_micros};
ghost use Rattle.smol_cmd.specs.Known.{AreFew};
ghost use Rattle.smol_cmd.specs.Statistics.{at_in, bins_in, count_space_in, mean_square_in, moments_in, radial_in, radius_in};

use crate::known::Known;
use crate::outlet::outlet_in;
use crate::places::{word_behind, words_from};
use crate::who::who_in;
use smol_line::{
    Bounds, Refusal, axis_in, count_in, decimal_in, micros_in, needs_dim, species_word_in, unless,
};
use smol_text::StatedLine;
use smol_types::{Act, Kind};
use std::alloc::Global;

/// How many parts of a range or shells there may be.
const MOST_BINS: u64 = 1_000;

/// How long a radius may be, in micros.
const LONGEST: i64 = 1_000_000_000;

// How many parts of a range or shells a word gives.
fn bins_in(word: &[u8]) -> Result<u32, Kind>
    ensures { result ≡ bins_in word.now }
{
    let bins = count_in(1, MOST_BINS, word)?;
    Ok(bins as u32)
}

// The radius that a word gives, in micros.
fn radius_in(word: &[u8]) -> Result<u64, Kind>
    ensures { result ≡ radius_in word.now }
{
    let radius = decimal_in(6, 1, LONGEST, word)?;
    Ok(radius.unsigned_abs())
}

// Where a coordinate of so many micros stands, in ticks.
fn ticks_at(micros: i64) -> i64
    requires { unsigned_abs micros ≤ most_micros }
    ensures { result ≡ pos 2 *ℤ micros }
{
    2 * micros
}

// `molcountspace SPECIES+ AXIS LOW HIGH BINS OUT`.
#[tactic(auto, unfolding(crate::specs::Statistics::count_space_in))]
pub fn count_space_in(
    alloc: Global,
    known: &Known<'_>,
    line: &StatedLine<'_>,
    at: usize,
) -> Result<Act, Refusal>
    requires few { AreFew known.now }
    requires within { at < length (words_of line.now) }
    ensures { Answers (count_space_in known.now line.now at) result }
{
    let dims = needs_dim(known.axes())?;
    words_from(7, line, at)?;
    let who = who_in(alloc, known.species(), word_behind(line, at, 1))?;
    let axis = axis_in(dims, word_behind(line, at, 2))?;
    let low = micros_in(word_behind(line, at, 3))?;
    let high = micros_in(word_behind(line, at, 4))?;
    let bins = bins_in(word_behind(line, at, 5))?;
    let out = outlet_in(known.outputs(), word_behind(line, at, 6))?;
    unless(low < high, Kind::OutOfRange)?;
    Ok(Act::CountSpace {
        who,
        axis,
        low: ticks_at(low),
        high: ticks_at(high),
        bins,
        out,
    })
}

// `molmoments SPECIES+ OUT`.
#[tactic(auto, unfolding(crate::specs::Statistics::moments_in))]
pub fn moments_in(
    alloc: Global,
    known: &Known<'_>,
    line: &StatedLine<'_>,
    at: usize,
) -> Result<Act, Refusal>
    requires few { AreFew known.now }
    requires within { at < length (words_of line.now) }
    ensures { Answers (moments_in known.now line.now at) result }
{
    words_from(3, line, at)?;
    let who = who_in(alloc, known.species(), word_behind(line, at, 1))?;
    let out = outlet_in(known.outputs(), word_behind(line, at, 2))?;
    Ok(Act::Moments { who, out })
}

// The coordinate of a line in micros on an axis with these walls, if it has some, where coordinates stand from the second word behind a
// place on.
fn micros_at(
    bounds: &Option<Bounds>,
    line: &StatedLine<'_>,
    at: usize,
    axis: usize,
) -> Result<i64, Kind>
    requires within { at ≤ length (words_of line.now) }
    requires axis { axis < 3 }
    ensures { result ≡ read_axis (λ bounds word. micros_in word) (pos 0) (at + 2) axis bounds.now line.now }
{
    match bounds {
        None => Ok(0),
        Some(_) => micros_in(word_behind(line, at, 2 + axis)),
    }
}

// The place in micros whose coordinates stand from the second word behind a place on.
#[tactic(auto, unfolding(smol_line::specs::Axes::read_axes))]
fn at_in(known: &Known<'_>, line: &StatedLine<'_>, at: usize) -> Result<[i64; 3], Kind>
    requires { at ≤ length (words_of line.now) }
    ensures { result ≡ at_in known.now line.now (at + 2) }
{
    let axes = known.axes();
    let x = micros_at(&axes.x, line, at, 0)?;
    let y = micros_at(&axes.y, line, at, 1)?;
    let z = micros_at(&axes.z, line, at, 2)?;
    Ok([x, y, z])
}

// `meansqrdist SPECIES+ P ... OUT`.
#[tactic(auto, unfolding(crate::specs::Statistics::mean_square_in))]
pub fn mean_square_in(
    alloc: Global,
    known: &Known<'_>,
    line: &StatedLine<'_>,
    at: usize,
) -> Result<Act, Refusal>
    requires few { AreFew known.now }
    requires within { at < length (words_of line.now) }
    ensures { Answers (mean_square_in known.now line.now at) result }
{
    let dims = needs_dim(known.axes())?;
    words_from(3 + usize::from(dims), line, at)?;
    let who = who_in(alloc, known.species(), word_behind(line, at, 1))?;
    let place = at_in(known, line, at)?;
    let out = outlet_in(
        known.outputs(),
        word_behind(line, at, 2 + usize::from(dims)),
    )?;
    Ok(Act::MeanSquare {
        who,
        at: place,
        out,
    })
}

// `radialcount SPECIES SPECIES RADIUS BINS OUT`.
#[tactic(auto, unfolding(crate::specs::Statistics::radial_in))]
pub fn radial_in(known: &Known<'_>, line: &StatedLine<'_>, at: usize) -> Result<Act, Kind>
    requires few { AreFew known.now }
    requires within { at < length (words_of line.now) }
    ensures { result ≡ radial_in known.now line.now at }
{
    words_from(6, line, at)?;
    let first = species_word_in(known.species(), word_behind(line, at, 1))?;
    let second = species_word_in(known.species(), word_behind(line, at, 2))?;
    let radius = radius_in(word_behind(line, at, 3))?;
    let bins = bins_in(word_behind(line, at, 4))?;
    let out = outlet_in(known.outputs(), word_behind(line, at, 5))?;
    Ok(Act::Radial {
        first,
        second,
        radius,
        bins,
        out,
    })
}

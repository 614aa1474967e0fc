//! COMMAND and its words: what a command does.
ghost use Rattle.std.specs.Prelude.{◌≡◌, ◌+◌, ◌<◌, ◌≤◌, length, pos, Err, IfErr, IfOk, Ok};
ghost use Rattle.smol_text.specs.Reading.{words_of};
ghost use Rattle.smol_line.specs.Answers.{Answers};
ghost use Rattle.smol_line.specs.Axes.{read_axis};
ghost use Rattle.smol_line.specs.Coordinate.{coordinate_in};
ghost use Rattle.smol_cmd.specs.Known.{AreFew};
ghost use Rattle.smol_cmd.specs.Act.{act_in, act_of, count_within_in, echo_in, echo_parts_in, kill_in, kill_prob_in, place_in, point_source_in, positions_in, print_in, replace_in, stop_in};

use crate::echo::{quoted_in, rest_behind, spelled};
use crate::known::Known;
use crate::outlet::outlet_in;
use crate::places::{word_behind, words_from};
use crate::probability::probability_in;
use crate::statistics::{count_space_in, mean_square_in, moments_in, radial_in};
use crate::verb::{Verb, verb_in};
use crate::who::who_in;
use smol_geom::Place;
use smol_line::{
    Axes, Bounds, Refusal, coordinate_in, count_in, needs_dim, number_in, species_word_in,
};
use smol_text::StatedLine;
use smol_types::{Act, Kind};
use std::alloc::Global;

/// How many molecules a command may add.
const MOST_MOLECULES: u64 = 1_000_000;

// `stop`.
fn stop_in(line: &StatedLine<'_>, at: usize) -> Result<Act, Kind>
    requires { at < length (words_of line.now) }
    ensures { result ≡ stop_in line.now at }
{
    words_from(1, line, at)?;
    Ok(Act::Stop)
}

// The outlet of `molcountheader OUT`, `molcount OUT` and `listmols OUT`.
#[tactic(auto, unfolding(crate::specs::Act::print_in))]
fn print_in(known: &Known<'_>, line: &StatedLine<'_>, at: usize) -> Result<u32, Kind>
    requires few { AreFew known.now }
    requires within { at < length (words_of line.now) }
    ensures { result ≡ print_in known.now line.now at }
{
    words_from(2, line, at)?;
    outlet_in(known.outputs(), word_behind(line, at, 1))
}

// `molcountincmpt CMPT OUT`.
#[tactic(auto, unfolding(crate::specs::Act::count_within_in))]
fn count_within_in(known: &Known<'_>, line: &StatedLine<'_>, at: usize) -> Result<Act, Kind>
    requires few { AreFew known.now }
    requires within { at < length (words_of line.now) }
    ensures { result ≡ count_within_in known.now line.now at }
{
    words_from(3, line, at)?;
    let compartment = number_in(known.compartments(), word_behind(line, at, 1))?;
    let out = outlet_in(known.outputs(), word_behind(line, at, 2))?;
    Ok(Act::CountIn { compartment, out })
}

// `molpos SPECIES+ OUT`.
#[tactic(auto, unfolding(crate::specs::Act::positions_in))]
fn positions_in(
    alloc: Global,
    known: &Known<'_>,
    line: &StatedLine<'_>,
    at: usize,
) -> Result<Act, Refusal>
    requires few { AreFew known.now }
    requires within { at < length (words_of line.now) }
    ensures { Answers (positions_in known.now line.now at) result }
{
    words_from(3, line, at)?;
    let who = who_in(alloc, known.species(), word_behind(line, at, 1))?;
    let out = outlet_in(known.outputs(), word_behind(line, at, 2))?;
    Ok(Act::Positions { who, out })
}

// The outlet of an `echo`, and the bytes between its quotation marks. The shape of the text comes before OUT. Takes no memory.
#[tactic(auto, unfolding(crate::specs::Act::echo_parts_in))]
fn echo_parts_in<'a>(
    known: &Known<'_>,
    line: &StatedLine<'a>,
    at: usize,
) -> Result<(u32, &'a [u8]), Kind>
    requires few { AreFew known.now }
    requires within { at < length (words_of line.now) }
    ensures accepted { IfOk result (λ parts. echo_parts_in known.now line.now at ≡ Ok (parts.0, parts.1.now)) }
    ensures refused { IfErr result (λ kind. echo_parts_in known.now line.now at ≡ Err kind) }
{
    let behind = at + (line.len() - at).min(1);
    let Some(bytes) = quoted_in(rest_behind(behind, line.part())) else {
        return Err(Kind::WrongWordCount);
    };
    let out = outlet_in(known.outputs(), word_behind(line, at, 1))?;
    Ok((out, bytes))
}

// `echo OUT "TEXT"`.
#[tactic(auto, unfolding(crate::specs::Act::echo_in))]
fn echo_in(
    alloc: Global,
    known: &Known<'_>,
    line: &StatedLine<'_>,
    at: usize,
) -> Result<Act, Refusal>
    requires few { AreFew known.now }
    requires within { at < length (words_of line.now) }
    ensures { Answers (echo_in known.now line.now at) result }
{
    let (out, bytes) = echo_parts_in(known, line, at)?;
    let text = spelled(alloc, bytes)?;
    Ok(Act::Echo { out, text })
}

// `killmol SPECIES+`.
#[tactic(auto, unfolding(crate::specs::Act::kill_in))]
fn kill_in(
    alloc: Global,
    known: &Known<'_>,
    line: &StatedLine<'_>,
    at: usize,
) -> Result<Act, Refusal>
    requires few { AreFew known.now }
    requires within { at < length (words_of line.now) }
    ensures { Answers (kill_in known.now line.now at) result }
{
    words_from(2, line, at)?;
    let who = who_in(alloc, known.species(), word_behind(line, at, 1))?;
    Ok(Act::Kill { who })
}

// `killmolprob SPECIES+ P`.
#[tactic(auto, unfolding(crate::specs::Act::kill_prob_in))]
fn kill_prob_in(
    alloc: Global,
    known: &Known<'_>,
    line: &StatedLine<'_>,
    at: usize,
) -> Result<Act, Refusal>
    requires few { AreFew known.now }
    requires within { at < length (words_of line.now) }
    ensures { Answers (kill_prob_in known.now line.now at) result }
{
    words_from(3, line, at)?;
    let who = who_in(alloc, known.species(), word_behind(line, at, 1))?;
    let p = probability_in(word_behind(line, at, 2))?;
    Ok(Act::KillProb { who, p })
}

// `replacemol SPECIES+ SPECIES P`.
#[tactic(auto, unfolding(crate::specs::Act::replace_in))]
fn replace_in(
    alloc: Global,
    known: &Known<'_>,
    line: &StatedLine<'_>,
    at: usize,
) -> Result<Act, Refusal>
    requires few { AreFew known.now }
    requires within { at < length (words_of line.now) }
    ensures { Answers (replace_in known.now line.now at) result }
{
    words_from(4, line, at)?;
    let who = who_in(alloc, known.species(), word_behind(line, at, 1))?;
    let to = species_word_in(known.species(), word_behind(line, at, 2))?;
    let p = probability_in(word_behind(line, at, 3))?;
    Ok(Act::Replace { who, to, p })
}

// The coordinate of a line on an axis with these walls, if it has some, where coordinates stand from the third word behind a place on.
fn coordinate_at(
    bounds: &Option<Bounds>,
    line: &StatedLine<'_>,
    at: usize,
    axis: usize,
) -> Result<i64, Kind>
    requires within { at ≤ length (words_of line.now) }
    requires axis { axis < 3 }
    ensures { result ≡ read_axis coordinate_in (pos 1) (at + 3) axis bounds.now line.now }
{
    match bounds {
        None => Ok(1),
        Some(bounds) => coordinate_in(bounds, word_behind(line, at, 3 + axis)),
    }
}

// The place whose coordinates stand from the third word behind a place on.
#[tactic(auto, unfolding(crate::specs::Act::place_in, smol_line::specs::Axes::read_axes))]
fn place_in(axes: &Axes, line: &StatedLine<'_>, at: usize) -> Result<Place, Kind>
    requires { at ≤ length (words_of line.now) }
    ensures { result ≡ place_in axes.now line.now (at + 3) }
{
    let x = coordinate_at(&axes.x, line, at, 0)?;
    let y = coordinate_at(&axes.y, line, at, 1)?;
    let z = coordinate_at(&axes.z, line, at, 2)?;
    Ok(Place([x, y, z]))
}

// `pointsource SPECIES N X ...`.
#[tactic(auto, unfolding(crate::specs::Act::point_source_in))]
fn point_source_in(known: &Known<'_>, line: &StatedLine<'_>, at: usize) -> Result<Act, Kind>
    requires few { AreFew known.now }
    requires within { at < length (words_of line.now) }
    ensures { result ≡ point_source_in known.now line.now at }
{
    let dims = needs_dim(known.axes())?;
    words_from(3 + usize::from(dims), line, at)?;
    let species = species_word_in(known.species(), word_behind(line, at, 1))?;
    let n = count_in(0, MOST_MOLECULES, word_behind(line, at, 2))? as u32;
    let place = place_in(known.axes(), line, at)?;
    Ok(Act::PointSource { species, n, place })
}

// What the words of a line from a place on do, where the word there is this one.
fn act_of(
    alloc: Global,
    verb: Verb,
    known: &Known<'_>,
    line: &StatedLine<'_>,
    at: usize,
) -> Result<Act, Refusal>
    requires few { AreFew known.now }
    requires within { at < length (words_of line.now) }
    ensures { Answers (act_of verb known.now line.now at) result }
{
    match verb {
        Verb::CountHeader => Ok(Act::CountHeader {
            out: print_in(known, line, at)?,
        }),
        Verb::Count => Ok(Act::Count {
            out: print_in(known, line, at)?,
        }),
        Verb::CountIn => Ok(count_within_in(known, line, at)?),
        Verb::List => Ok(Act::List {
            out: print_in(known, line, at)?,
        }),
        Verb::Positions => positions_in(alloc, known, line, at),
        Verb::CountSpace => count_space_in(alloc, known, line, at),
        Verb::Moments => moments_in(alloc, known, line, at),
        Verb::MeanSquare => mean_square_in(alloc, known, line, at),
        Verb::Radial => Ok(radial_in(known, line, at)?),
        Verb::Echo => echo_in(alloc, known, line, at),
        Verb::Kill => kill_in(alloc, known, line, at),
        Verb::KillProb => kill_prob_in(alloc, known, line, at),
        Verb::Replace => replace_in(alloc, known, line, at),
        Verb::PointSource => Ok(point_source_in(known, line, at)?),
        Verb::Stop => Ok(stop_in(line, at)?),
    }
}

/// What the words of a line from a place on do.
#[tactic(auto, unfolding(crate::specs::Act::act_in))]
pub fn act_in(
    alloc: Global,
    known: &Known<'_>,
    line: &StatedLine<'_>,
    at: usize,
) -> Result<Act, Refusal>
    requires few { AreFew known.now }
    requires within { at < length (words_of line.now) }
    ensures { Answers (act_in known.now line.now at) result }
{
    let verb = verb_in(line.word(at))?;
    act_of(alloc, verb, known, line, at)
}

//! `boundaries AXIS LOW HIGH [LETTER]`: the two walls of an axis, and what they do.
ghost use Rattle.std.specs.Prelude.{◌≡◌, ◌<◌, IfOk};
ghost use Rattle.smol_config.specs.Boundaries.{boundaries_in, bounds_at, bounds_in, letter_in, line_letter};
ghost use Rattle.smol_config.specs.Tables.{with_bounds};

use smol_line::{Axes, Bounds, axis_in, micros_in, needs_dim, once, spells, unless, word_at};
use smol_num::Micro;
use smol_text::StatedLine;
use smol_types::{Kind, Letter};

// What walls do, by their letter.
#[tactic(auto, unfolding(crate::specs::Boundaries::letter_in))]
fn letter_in(word: &[u8]) -> Result<Letter, Kind>
    ensures { result ≡ letter_in word.now }
{
    if spells(word, "r") {
        Ok(Letter::R)
    } else if spells(word, "p") {
        Ok(Letter::P)
    } else if spells(word, "a") {
        Ok(Letter::A)
    } else if spells(word, "t") {
        Ok(Letter::T)
    } else {
        Err(Kind::BadAction)
    }
}

fn line_letter(line: &StatedLine<'_>) -> Result<Letter, Kind>
    ensures { result ≡ line_letter line.now }
{
    if line.len() == 5 {
        letter_in(word_at(line, 4))
    } else {
        Ok(Letter::T)
    }
}

// The walls that a line gives, whatever axis it names.
#[tactic(auto, unfolding(crate::specs::Boundaries::bounds_in))]
fn bounds_in(line: &StatedLine<'_>) -> Result<Bounds, Kind>
    ensures { result ≡ bounds_in line.now }
{
    let low = micros_in(word_at(line, 2))?;
    let high = micros_in(word_at(line, 3))?;
    let letter = line_letter(line)?;
    unless(low < high, Kind::OutOfRange)?;
    Ok(Bounds {
        low: Micro(low),
        high: Micro(high),
        letter,
    })
}

// The walls of an axis, by its number.
fn bounds_at(axis: u8, axes: &Axes) -> Option<Bounds>
    ensures { result ≡ bounds_at axis axes.now }
{
    if axis == 0 {
        axes.x
    } else if axis == 1 {
        axes.y
    } else {
        axes.z
    }
}

/// Lets an axis have these walls.
pub fn set_bounds(axis: u8, bounds: Bounds, axes: &mut Axes)
    ensures { axes.new ≡ with_bounds axis bounds axes.old }
{
    if axis == 0 {
        axes.x = Some(bounds);
    } else if axis == 1 {
        axes.y = Some(bounds);
    } else {
        axes.z = Some(bounds);
    }
}

/// The walls that a line gives, and their axis, by what the lines before give.
#[tactic(auto, unfolding(crate::specs::Boundaries::boundaries_in))]
pub fn judge(axes: &Axes, line: &StatedLine<'_>) -> Result<(u8, Bounds), Kind>
    ensures rule { result ≡ boundaries_in axes.now line.now }
    ensures within { IfOk result (λ given. given.0 < 3) }
{
    let dims = needs_dim(axes)?;
    unless(line.len() == 4 || line.len() == 5, Kind::WrongWordCount)?;
    let axis = axis_in(dims, word_at(line, 1))?;
    let given = bounds_in(line)?;
    once(&bounds_at(axis, axes))?;
    Ok((axis, given))
}

//! `panel SHAPE SIGNEDAXIS CORNER ... EDGE ... [NAME]`: a rectangle across an axis.
ghost use Rattle.std.specs.Prelude.{◌≡◌, ◌≤◌, ◌<◌, ◌+ℤ◌, IfOk, unsigned_abs};
ghost use Rattle.smol_line.specs.Length.{most_micros};
ghost use Rattle.smol_blocks.specs.Panel.{corner_in, edge_in, edge_place, extent_in, facing_in, is_shape, rect_in, shape_in, sign_of, ticks_of};

use smol_geom::Rect;
use smol_line::{axis_in, decimal_in, micros_in, spells, unless, word_at};
use smol_text::StatedLine;
use smol_types::Kind;

/// How far a coordinate may be from 0, in micros.
const MOST_MICROS: i64 = 1_000_000_000_000;

/// The axis that a panel lies across, and whether its front is the side of greater coordinates.
#[derive(Clone, Copy, Debug, PartialEq, Eq)]
pub struct Facing {
    pub axis: u8,
    pub greater: bool,
}

// Whether a word begins with `+` or with `-`.
fn sign_of(word: &[u8]) -> Option<bool>
    ensures { result ≡ sign_of word.now }
{
    match word.first() {
        Some(b'+') => Some(true),
        Some(b'-') => Some(false),
        _ => None,
    }
}

// How a panel faces, by the word of its axis with a sign.
fn facing_in(dims: u8, word: &[u8]) -> Result<Facing, Kind>
    ensures value { result ≡ facing_in dims word.now }
    ensures within { IfOk result (λ facing. facing.axis < dims) }
{
    let Some(greater) = sign_of(word) else {
        return Err(Kind::BadFace);
    };
    match axis_in(3, &word[1..]) {
        Err(_) => Err(Kind::BadFace),
        Ok(axis) if axis < dims => Ok(Facing { axis, greater }),
        Ok(_) => Err(Kind::OutOfRange),
    }
}

// A coordinate of the corner in micros.
fn corner_in(dims: u8, axis: u8, line: &StatedLine<'_>) -> Result<i64, Kind>
    requires { axis < 3 }
    ensures value { result ≡ corner_in dims axis line.now }
    ensures size { IfOk result (λ corner. unsigned_abs corner ≤ most_micros) }
{
    if axis < dims {
        micros_in(word_at(line, 3 + usize::from(axis)))
    } else {
        Ok(0)
    }
}

// The place of the word of an edge.
fn edge_place(dims: u8, across: u8, axis: u8) -> usize
    requires axis { axis < 3 }
    requires dims { dims ≤ 3 }
    ensures { result ≡ edge_place dims across axis }
{
    let before = if axis < across {
        axis
    } else {
        axis.saturating_sub(1)
    };
    3 + usize::from(dims) + usize::from(before)
}

// An edge in micros, where its corner stands there.
fn edge_in(corner: i64, word: &[u8]) -> Result<i64, Kind>
    requires { unsigned_abs corner ≤ most_micros }
    ensures value { result ≡ edge_in corner word.now }
    ensures size { IfOk result (λ edge. unsigned_abs edge ≤ 2000000000000) }
{
    decimal_in(6, 1, MOST_MICROS - corner, word)
}

// How far a panel reaches on an axis, in micros.
fn extent_in(
    dims: u8,
    across: u8,
    axis: u8,
    corner: i64,
    line: &StatedLine<'_>,
) -> Result<i64, Kind>
    requires axis { axis < 3 }
    requires dims { dims ≤ 3 }
    requires corner { unsigned_abs corner ≤ most_micros }
    ensures value { result ≡ extent_in dims across axis corner line.now }
    ensures size { IfOk result (λ extent. unsigned_abs extent ≤ 2000000000000) }
{
    if axis >= dims {
        return Ok(1);
    }
    if axis == across {
        return Ok(0);
    }
    edge_in(corner, word_at(line, edge_place(dims, across, axis)))
}

// A place of m micros stands at 2m ticks.
fn ticks_of(micros: i64) -> i64
    requires { unsigned_abs micros ≤ most_micros }
    ensures { result ≡ ticks_of micros }
{
    2 * micros
}

// Where an edge ends, in ticks.
fn end(corner: i64, extent: i64) -> i64
    requires corner { unsigned_abs corner ≤ most_micros }
    requires extent { unsigned_abs extent ≤ 2000000000000 }
    ensures { result ≡ ticks_of (corner +ℤ extent) }
{
    2 * (corner + extent)
}

// The rectangle of a line across this axis.
#[tactic(auto, unfolding(crate::specs::Panel::rect_in))]
fn rect_in(dims: u8, across: u8, line: &StatedLine<'_>) -> Result<Rect, Kind>
    requires { dims ≤ 3 }
    ensures { result ≡ rect_in dims across line.now }
{
    let x = corner_in(dims, 0, line)?;
    let y = corner_in(dims, 1, line)?;
    let z = corner_in(dims, 2, line)?;
    let a = extent_in(dims, across, 0, x, line)?;
    let b = extent_in(dims, across, 1, y, line)?;
    let c = extent_in(dims, across, 2, z, line)?;
    Ok(Rect {
        axis: across,
        low: [ticks_of(x), ticks_of(y), ticks_of(z)],
        high: [end(x, a), end(y, b), end(z, c)],
    })
}

fn is_shape(word: &[u8]) -> bool
    ensures { result ≡ is_shape word.now }
{
    spells(word, "rect") || spells(word, "r")
}

/// The rectangle of a line, and how it faces.
#[tactic(auto, unfolding(crate::specs::Panel::shape_in))]
pub fn shape_in(dims: u8, line: &StatedLine<'_>) -> Result<(Facing, Rect), Kind>
    requires least { 1 ≤ dims }
    requires most { dims ≤ 3 }
    ensures { result ≡ shape_in dims line.now }
{
    unless(line.len() >= 2, Kind::WrongWordCount)?;
    unless(is_shape(word_at(line, 1)), Kind::NotInProfile)?;
    let plain = 2 * usize::from(dims) + 2;
    unless(
        line.len() == plain || line.len() == plain + 1,
        Kind::WrongWordCount,
    )?;
    let facing = facing_in(dims, word_at(line, 2))?;
    let rect = rect_in(dims, facing.axis, line)?;
    Ok((facing, rect))
}

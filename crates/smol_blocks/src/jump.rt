//! `jump P FACE ARROW Q FACE`: where a jump from a face of a panel leads.
ghost use Rattle.std.specs.Prelude.{◌≡◌, ◌≤◌, ◌<◌, ◌^◌, length, IfOk, unsigned_abs};
ghost use Rattle.std.specs.Ordering.{int_eq};
ghost use Rattle.smol_blocks.specs.Jump.{are_congruent, arrow_in, edge_of, jump_in};

use crate::faces::face_in;
use smol_geom::Rect;
use smol_line::{NameSet, number_in, spells, unless, word_at, word_count};
use smol_text::StatedLine;
use smol_types::{Face, Kind};

/// Where a jump leads from and to: panels by their numbers in the surface, and their faces.
#[derive(Clone, Copy, Debug, PartialEq, Eq)]
pub struct Leading {
    pub from: u16,
    pub from_face: Face,
    pub to: u16,
    pub to_face: Face,
    /// Whether it leads back too.
    pub both: bool,
}

// Whether an arrow leads both ways.
#[tactic(auto, unfolding(crate::specs::Jump::arrow_in))]
fn arrow_in(word: &[u8]) -> Result<bool, Kind>
    ensures { result ≡ arrow_in word.now }
{
    if spells(word, "->") {
        Ok(false)
    } else if spells(word, "<->") {
        Ok(true)
    } else {
        Err(Kind::BadJump)
    }
}

// How long a rectangle is on an axis.
fn edge_of(rect: &Rect, axis: usize) -> i128
    requires { axis < 3 }
    ensures value { result ≡ edge_of rect.now axis }
    ensures size { unsigned_abs result < 2 ^ 65 }
{
    i128::from(rect.high[axis]) - i128::from(rect.low[axis])
}

// Whether two lengths are one.
fn same_length(one: i128, other: i128) -> bool
    ensures { result ≡ int_eq one other }
{
    one == other
}

// Whether two rectangles are equally long on an axis.
fn same_edge(a: &Rect, b: &Rect, axis: usize) -> bool
    requires { axis < 3 }
    ensures { result ≡ int_eq (edge_of a.now axis) (edge_of b.now axis) }
{
    same_length(edge_of(a, axis), edge_of(b, axis))
}

// Whether two rectangles lie across one axis and have equal edges.
fn are_congruent(a: &Rect, b: &Rect) -> bool
    ensures { result ≡ are_congruent a.now b.now }
{
    a.axis == b.axis && same_edge(a, b, 0) && same_edge(a, b, 1) && same_edge(a, b, 2)
}

/// Where a line leads from and to, beside these names of the surface's panels and their rectangles.
#[tactic(auto, unfolding(crate::specs::Jump::jump_in))]
pub fn jump_in(names: &NameSet, rects: &[Rect], line: &StatedLine<'_>) -> Result<Leading, Kind>
    requires few { length names.now ≤ 2 ^ 16 }
    requires paired { length names.now ≡ length rects.now }
    ensures rule { result ≡ jump_in names.now rects.now line.now }
    ensures from_within { IfOk result (λ leading. leading.from < length names.now) }
    ensures to_within { IfOk result (λ leading. leading.to < length names.now) }
{
    word_count(6, line)?;
    let from = number_in(names, word_at(line, 1))?;
    let from_face = face_in(word_at(line, 2))?;
    let both = arrow_in(word_at(line, 3))?;
    let to = number_in(names, word_at(line, 4))?;
    let to_face = face_in(word_at(line, 5))?;
    let congruent = are_congruent(&rects[usize::from(from)], &rects[usize::from(to)]);
    unless(congruent, Kind::BadJump)?;
    Ok(Leading {
        from,
        from_face,
        to,
        to_face,
        both,
    })
}

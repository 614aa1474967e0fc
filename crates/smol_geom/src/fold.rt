ghost use Rattle.std.specs.Prelude.{◌≡◌, ◌↔◌, ◌^◌, ◌≤◌, ◌+ℤ◌, ◌*ℤ◌, IsTrue, unsigned_abs};
ghost use Rattle.smol_geom.specs.Axes.{EachAxis, IsWithin, on_axis};
ghost use Rattle.smol_geom.specs.Fold.{IsFold, IsSign, true_point};
ghost use Rattle.smol_geom.specs.Moment.{IsPart, part_of};
ghost use Rattle.smol_geom.specs.Rect.{HoldsPoint};

use crate::moment::Moment;
use crate::part::Part;
use crate::place::{Place, Step3};
use crate::rect::Rect;

/// How mirrors and translations carry a straight move: the true coordinate on an axis is the sign
/// times the move's coordinate, plus the shift in ticks.
#[derive(Clone, Copy, Debug, PartialEq, Eq)]
pub struct Fold {
    pub sign: [i8; 3],
    pub shift: [i64; 3],
}

/// Whether the true point of a move at a moment, which is the fold of the point that the move has reached,
/// is in the closed rectangle.
pub fn holds_at(rect: &Rect, from: &Place, by: &Step3, m: &Moment, f: &Fold) -> bool
    requires low { IsWithin (2 ^ 58) rect.now.low }
    requires high { IsWithin (2 ^ 58) rect.now.high }
    requires from { IsWithin (2 ^ 58) from.now.0 }
    requires by { IsWithin (2 ^ 34) by.now.0 }
    requires moment { IsPart m.now }
    requires fold { IsFold f.now }
    requires shift { IsWithin (2 ^ 58) f.now.shift }
    ensures { IsTrue result ↔ HoldsPoint rect.now (true_point f.now from.now by.now (part_of m.now)) }
{
    let part = Part {
        num: m.num,
        den: m.den,
    };
    part.is_held(rect, folded_place(f, from), folded_step(f, by))
}

// The place that the fold carries a place to.
fn folded_place(f: &Fold, place: &Place) -> [i64; 3]
    requires fold { IsFold f.now }
    requires shift { IsWithin (2 ^ 58) f.now.shift }
    requires place { IsWithin (2 ^ 58) place.now.0 }
    ensures value { EachAxis (λ axis. on_axis result axis
        ≡ on_axis f.now.sign axis *ℤ on_axis place.now.0 axis +ℤ on_axis f.now.shift axis) }
    ensures size { IsWithin (2 ^ 59) result }
{
    [
        folded(f.sign[0], place.0[0], f.shift[0]),
        folded(f.sign[1], place.0[1], f.shift[1]),
        folded(f.sign[2], place.0[2], f.shift[2]),
    ]
}

// The displacement that the fold turns a displacement to.
fn folded_step(f: &Fold, step: &Step3) -> [i64; 3]
    requires fold { IsFold f.now }
    requires step { IsWithin (2 ^ 58) step.now.0 }
    ensures value { EachAxis (λ axis. on_axis result axis ≡ on_axis f.now.sign axis *ℤ on_axis step.now.0 axis) }
    ensures size { IsWithin (2 ^ 58) result }
{
    [
        turned(f.sign[0], step.0[0]),
        turned(f.sign[1], step.0[1]),
        turned(f.sign[2], step.0[2]),
    ]
}

// The coordinate that a sign and a shift carry a coordinate to.
fn folded(sign: i8, coordinate: i64, shift: i64) -> i64
    requires sign { IsSign sign }
    requires coordinate { unsigned_abs coordinate ≤ 2 ^ 58 }
    requires shift { unsigned_abs shift ≤ 2 ^ 58 }
    ensures value { result ≡ sign *ℤ coordinate +ℤ shift }
    ensures size { unsigned_abs result ≤ 2 ^ 59 }
{
    turned(sign, coordinate) + shift
}

// The number, turned where the sign is -1.
fn turned(sign: i8, number: i64) -> i64
    requires sign { IsSign sign }
    requires number { unsigned_abs number ≤ 2 ^ 58 }
    ensures value { result ≡ sign *ℤ number }
    ensures size { unsigned_abs result ≤ 2 ^ 58 }
{
    if sign < 0 { -number } else { number }
}

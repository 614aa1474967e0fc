//! What effects make of a fold.
ghost use Rattle.std.specs.Prelude.{◌≡◌, ◌<◌, ◌≤◌, ◌^◌, unsigned_abs};
ghost use Rattle.smol_geom.specs.Axes.{IsWithin};
ghost use Rattle.smol_geom.specs.Fold.{IsFold};
ghost use Rattle.smol_geom.specs.Moments.{IsMoment};
ghost use Rattle.smol_meaning.specs.Plates.{are_same, jumped, mirrored, shifted};
ghost use Rattle.smol_meaning.specs.Way.{after_effect};
ghost use Rattle.smol_travel.specs.Legs.{IsLeg};
ghost use Rattle.smol_travel.specs.Meetings.{IsSmallJump};

use crate::coordinates::{mirrored_shift, opposite, sum};
use crate::leg::{Leg, goes_up, plane_at};
use smol_geom::{Fold, Moment};
use smol_meaning::{Effect, Response, Standing};

// What an effect makes of the fold at a moment, and of the species.
pub fn done(leg: &Leg, moment: &Moment, effect: Effect) -> Standing
    requires leg { IsLeg leg.now }
    requires moment { IsMoment leg.now.from leg.now.by moment.now }
    requires jump { IsSmallJump effect.response }
    ensures { result ≡ after_effect leg.now.from leg.now.by leg.now.fold moment.now effect }
{
    let species = effect.species;
    match effect.response {
        Response::Reflect => {
            let fold = mirrored(&leg.fold, moment.axis, plane_at(leg, moment));
            Standing::Goes { fold, species }
        }
        Response::Absorb { number } => Standing::Gone { number },
        Response::Jump { by, up } => {
            let plane = plane_at(leg, moment);
            let fold = jumped(&leg.fold, moment.axis, plane, by, up, goes_up(leg, moment));
            Standing::Goes { fold, species }
        }
        Response::Pass => Standing::Goes {
            fold: leg.fold,
            species,
        },
    }
}

// The fold mirrored on an axis at a plane.
fn mirrored(fold: &Fold, axis: u8, plane: i64) -> Fold
    requires axis { axis < 3 }
    requires fold { IsFold fold.now }
    requires size { IsWithin (2 ^ 59) fold.now.shift }
    requires plane { unsigned_abs plane ≤ 2 ^ 60 }
    ensures { result ≡ mirrored fold.now axis plane }
{
    let mut turned = *fold;
    turned.sign[axis as usize] = opposite(fold.sign[axis as usize]);
    turned.shift[axis as usize] = mirrored_shift(plane, fold.shift[axis as usize]);
    turned
}

// The fold translated.
fn shifted(fold: &Fold, by: [i64; 3]) -> Fold
    requires size { IsWithin (2 ^ 58) fold.now.shift }
    requires by { IsWithin (2 ^ 42) by }
    ensures { result ≡ shifted fold.now by }
{
    Fold {
        sign: fold.sign,
        shift: [
            sum(fold.shift[0], by[0]),
            sum(fold.shift[1], by[1]),
            sum(fold.shift[2], by[2]),
        ],
    }
}

// The fold after a jump that is to lead up or not, where the motion goes up or not.
fn jumped(fold: &Fold, axis: u8, plane: i64, by: [i64; 3], up: bool, goes: bool) -> Fold
    requires axis { axis < 3 }
    requires fold { IsFold fold.now }
    requires size { IsWithin (2 ^ 58) fold.now.shift }
    requires by { IsWithin (2 ^ 42) by }
    requires plane { unsigned_abs plane ≤ 2 ^ 59 }
    ensures { result ≡ jumped fold.now axis plane by up goes }
{
    let there = shifted(fold, by);
    if are_same(goes, up) {
        there
    } else {
        mirrored(&there, axis, sum(plane, by[axis as usize]))
    }
}

// Whether two answers are one.
fn are_same(a: bool, b: bool) -> bool
    ensures { result ≡ are_same a b }
{
    if a { b } else { !b }
}

//! Whether molecules are near enough to react.
ghost use Rattle.std.specs.Prelude.{◌≡◌, ◌&&◌, ◌*◌, ◌^◌, ◌<◌, ◌≤◌, IfSome, nat_le, unsigned_abs};
ghost use Rattle.smol_num.specs.declared.quantities.Micro.{Micro};
ghost use Rattle.smol_geom.specs.Place.{square_of_distance};
ghost use Rattle.smol_meaning.specs.Encounters.{are_near};
ghost use Rattle.smol_meaning.specs.Sighted.{IsPlaceWithin};
ghost use Rattle.smol_pairs.specs.Near.{are_within_on};

use smol_geom::{Place, dist2};
use smol_num::Micro;

/// Whether two places are no farther apart than a radius. Without one they are too far.
pub fn are_near(radius: Option<Micro>, a: &Place, b: &Place) -> bool
    requires radius { IfSome radius (λ (radius : Micro). unsigned_abs radius.0 ≤ 2 ^ 59) }
    requires a { IsPlaceWithin (2 ^ 57) a.now }
    requires b { IsPlaceWithin (2 ^ 57) b.now }
    ensures { result ≡ are_near radius a.now b.now }
{
    match radius {
        Some(radius) => are_within(2 * radius.0.unsigned_abs(), a, b),
        None => false,
    }
}

// Whether two places are at most this many ticks apart. Most pairs are too far on one axis alone.
fn are_within(most: u64, a: &Place, b: &Place) -> bool
    requires most { most ≤ 2 ^ 60 }
    requires a { IsPlaceWithin (2 ^ 57) a.now }
    requires b { IsPlaceWithin (2 ^ 57) b.now }
    ensures { result ≡ nat_le (square_of_distance a.now b.now) (most * most) }
{
    are_within_on_each(most, a, b) && dist2(a, b) <= u128::from(most) * u128::from(most)
}

/// Whether two places are at most this many ticks apart on each axis.
pub fn are_within_on_each(most: u64, a: &Place, b: &Place) -> bool
    requires a { IsPlaceWithin (2 ^ 57) a.now }
    requires b { IsPlaceWithin (2 ^ 57) b.now }
    ensures { result ≡ (are_within_on most a.now b.now 0
        && (are_within_on most a.now b.now 1 && are_within_on most a.now b.now 2)) }
{
    are_within_on(most, a, b, 0) && are_within_on(most, a, b, 1) && are_within_on(most, a, b, 2)
}

// Whether two places are at most this many ticks apart on an axis.
fn are_within_on(most: u64, a: &Place, b: &Place, axis: usize) -> bool
    requires axis { axis < 3 }
    requires a { IsPlaceWithin (2 ^ 57) a.now }
    requires b { IsPlaceWithin (2 ^ 57) b.now }
    ensures { result ≡ are_within_on most a.now b.now axis }
{
    a.0[axis].abs_diff(b.0[axis]) <= most
}

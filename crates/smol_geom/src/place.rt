ghost use Rattle.std.specs.Prelude.{◌≡◌, ◌*◌, ◌^◌, ◌≤◌, ◌-ℤ◌, unsigned_abs};
ghost use Rattle.smol_geom.specs.Axes.{IsWithin};
ghost use Rattle.smol_geom.specs.Place.{square_of_distance};

/// Where a molecule stands: a coordinate on each axis, in ticks.
#[derive(Clone, Copy, Debug, PartialEq, Eq)]
pub struct Place(pub [i64; 3]);

/// A displacement: how far to go on each axis, in ticks.
#[derive(Clone, Copy, Debug, PartialEq, Eq)]
pub struct Step3(pub [i64; 3]);

/// The squared distance of two places, in square ticks.
pub fn dist2(a: &Place, b: &Place) -> u128
    requires a_size { IsWithin (2 ^ 58) a.now.0 }
    requires b_size { IsWithin (2 ^ 58) b.now.0 }
    ensures { result ≡ square_of_distance a.now b.now }
{
    square_of_gap(a.0[0], b.0[0]) + square_of_gap(a.0[1], b.0[1]) + square_of_gap(a.0[2], b.0[2])
}

// The square of the gap between two coordinates of one axis.
fn square_of_gap(a: i64, b: i64) -> u128
    requires a_size { unsigned_abs a ≤ 2 ^ 58 }
    requires b_size { unsigned_abs b ≤ 2 ^ 58 }
    ensures value { result ≡ unsigned_abs (a -ℤ b) * unsigned_abs (a -ℤ b) }
    ensures size { result ≤ 2 ^ 118 }
{
    let gap = u128::from(a.abs_diff(b));
    gap * gap
}

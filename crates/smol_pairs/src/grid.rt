//! The grid in which seekers look for each other. Whichever it is, they find the same.
ghost use Rattle.std.specs.Prelude.{◌^◌, ◌≤◌, ◌≤ℤ◌, All, unsigned_abs};
ghost use Rattle.smol_geom.specs.Axes.{IsWithin};
ghost use Rattle.smol_cells.specs.Numbered.{IsFilled};
ghost use Rattle.smol_pairs.specs.declared.seeker.Seeker.{Seeker};

use crate::seeker::Seeker;
use smol_cells::Grid;
use smol_geom::{Cuboid, Place};

// How many boxes few seekers may have.
const FEW_BOXES: usize = 4096;

// An edge of this length, in ticks, isn't doubled again.
const LONG_EDGE: u64 = 1 << 57;

/// Boxes over seekers: their edge is at least this reach, if there are then no more than twice as many boxes as seekers, or few.
pub fn grid_of(seekers: &[Seeker], reach: u64) -> Grid
    requires { All (λ (seeker : Seeker). IsWithin (2 ^ 57) seeker.place.0) seekers.now }
{
    let bounds = bounds_of(seekers);
    let most = FEW_BOXES.max(seekers.len().saturating_mul(2));
    let mut edge = reach.min(LONG_EDGE).next_power_of_two();
    let mut grid = Grid::of(&bounds, edge);
    while grid.len() > most && edge < LONG_EDGE {
        edge *= 2;
        grid = Grid::of(&bounds, edge);
    }
    grid
}

// The least cuboid that has all seekers.
fn bounds_of(seekers: &[Seeker]) -> Cuboid
    requires { All (λ (seeker : Seeker). IsWithin (2 ^ 57) seeker.place.0) seekers.now }
    ensures low { IsWithin (2 ^ 57) result.low }
    ensures high { IsWithin (2 ^ 57) result.high }
    ensures filled { IsFilled result }
{
    let Some(first) = seekers.first() else {
        return Cuboid {
            low: [0; 3],
            high: [0; 3],
        };
    };
    let mut bounds = Cuboid {
        low: first.place.0,
        high: first.place.0,
    };
    for seeker in seekers {
        bounds = widened(&bounds, &seeker.place);
    }
    bounds
}

// A cuboid widened to have a place.
fn widened(bounds: &Cuboid, place: &Place) -> Cuboid
    requires low { IsWithin (2 ^ 57) bounds.now.low }
    requires high { IsWithin (2 ^ 57) bounds.now.high }
    requires filled { IsFilled bounds.now }
    requires place { IsWithin (2 ^ 57) place.now.0 }
    ensures low { IsWithin (2 ^ 57) result.low }
    ensures high { IsWithin (2 ^ 57) result.high }
    ensures filled { IsFilled result }
{
    let [x, y, z] = place.0;
    Cuboid {
        low: [
            least(bounds.low[0], x),
            least(bounds.low[1], y),
            least(bounds.low[2], z),
        ],
        high: [
            greatest(bounds.high[0], x),
            greatest(bounds.high[1], y),
            greatest(bounds.high[2], z),
        ],
    }
}

// The lesser of an end and a coordinate.
fn least(end: i64, x: i64) -> i64
    requires end { unsigned_abs end ≤ 2 ^ 57 }
    requires x { unsigned_abs x ≤ 2 ^ 57 }
    ensures size { unsigned_abs result ≤ 2 ^ 57 }
    ensures below { result ≤ℤ x }
{
    if x < end { x } else { end }
}

// The greater of an end and a coordinate.
fn greatest(end: i64, x: i64) -> i64
    requires end { unsigned_abs end ≤ 2 ^ 57 }
    requires x { unsigned_abs x ≤ 2 ^ 57 }
    ensures size { unsigned_abs result ≤ 2 ^ 57 }
    ensures above { x ≤ℤ result }
{
    if end < x { x } else { end }
}

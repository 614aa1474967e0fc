//! The edge that gives few boxes to bounds.
ghost use Rattle.std.specs.Prelude.{◌≡◌, ℕ, ◌+◌, ◌*◌, ◌^◌, ◌<◌, ◌≤◌, ◌↔◌, IsTrue, Some, ◌-ℤ◌, unsigned_abs};
ghost use Rattle.std.specs.Option.{ForSome};
ghost use Rattle.smol_geom.specs.Axes.{IsWithin, on_axis};
ghost use Rattle.smol_cells.specs.Bounds.{IsLeastDouble, boxes_in, boxes_on, most_boxes};
ghost use Rattle.smol_cells.specs.Numbers.{above_low};

use smol_geom::Cuboid;

// How many boxes a grid has at most.
const MOST: u64 = 1_048_576;

// The least of an edge, its double, the double of that and so on that gives the bounds few boxes.
pub fn least_double(bounds: &Cuboid, edge: u64) -> u64
    requires low { IsWithin (2 ^ 58) bounds.now.low }
    requires high { IsWithin (2 ^ 58) bounds.now.high }
    requires positive { 0 < edge }
    requires short { edge ≤ 2 ^ 58 }
    ensures least { IsLeastDouble bounds.now edge result }
    ensures positive { 0 < result }
{
    let mut doubled = edge;
    while !are_few(bounds, doubled) {
        doubled *= 2;
    }
    doubled
}

// Whether the bounds have few boxes of this edge.
fn are_few(bounds: &Cuboid, edge: u64) -> bool
    requires low { IsWithin (2 ^ 58) bounds.now.low }
    requires high { IsWithin (2 ^ 58) bounds.now.high }
    requires positive { 0 < edge }
    ensures { IsTrue result ↔ (boxes_in bounds.now edge ≤ most_boxes) }
{
    let x = boxes_on(bounds, edge, 0);
    let y = boxes_on(bounds, edge, 1);
    let z = boxes_on(bounds, edge, 2);
    z.saturating_mul(y).saturating_mul(x) <= MOST
}

// How many boxes of this edge the bounds have on an axis.
pub fn boxes_on(bounds: &Cuboid, edge: u64, axis: usize) -> u64
    requires axis { axis < 3 }
    requires low { IsWithin (2 ^ 58) bounds.now.low }
    requires high { IsWithin (2 ^ 58) bounds.now.high }
    requires positive { 0 < edge }
    ensures value { result ≡ boxes_on bounds.now edge axis }
    ensures size { result ≤ 2 ^ 59 + 1 }
{
    let extent = length_of(bounds.low[axis], bounds.high[axis]);
    extent / edge + 1
}

// How long it is from one coordinate to another.
fn length_of(low: i64, high: i64) -> u64
    requires low { unsigned_abs low ≤ 2 ^ 58 }
    requires high { unsigned_abs high ≤ 2 ^ 58 }
    ensures value { result ≡ unsigned_abs (high -ℤ low) }
    ensures size { result ≤ 2 ^ 59 }
{
    high.abs_diff(low)
}

// How far a coordinate is above a low end.
pub fn above_low(low: i64, x: i64) -> u64
    ensures { result ≡ above_low low x }
{
    if x < low { 0 } else { x.abs_diff(low) }
}

// By how many places a number is 1 shifted, where it is.
pub fn power_of(number: u64) -> Option<u32>
    ensures { ForSome result (λ s. (s < 64) × (number ≡ 2 ^ s)) }
{
    let shift = number.trailing_zeros();
    if shift < 64 && 1 << shift == number {
        Some(shift)
    } else {
        None
    }
}

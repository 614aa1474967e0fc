ghost use Rattle.std.specs.Prelude.{◌≡◌, ◌*ℤ◌, ◌≤ℤ◌, pos, ◌↔◌, ◌^◌, ◌<◌, ◌≤◌, IsTrue, unsigned_abs};
ghost use Rattle.smol_geom.specs.Axes.{IsWithin, on_axis};
ghost use Rattle.smol_geom.specs.Fraction.{◌≤ℚ◌, whole};
ghost use Rattle.smol_geom.specs.Line.{part_way, move_point};
ghost use Rattle.smol_geom.specs.Part.{IsSmall, fraction_of, scaled_way};
ghost use Rattle.smol_geom.specs.Rect.{HoldsPoint, IsInRange};

use crate::rect::Rect;

// The part `num / den` of a way.
#[derive(Clone, Copy)]
pub struct Part {
    pub num: u64,
    pub den: u64,
}

impl Part {
    // Whether the closed rectangle holds the point after this part of the move.
    pub fn is_held(self, rect: &Rect, from: [i64; 3], by: [i64; 3]) -> bool
        requires part { IsSmall self }
        requires low { IsWithin (2 ^ 60) rect.now.low }
        requires high { IsWithin (2 ^ 60) rect.now.high }
        requires from { IsWithin (2 ^ 60) from }
        requires by { IsWithin (2 ^ 60) by }
        ensures { IsTrue result ↔ HoldsPoint rect.now (move_point from by (fraction_of self)) }
    {
        self.is_in_range(rect, &from, &by, 0)
            && self.is_in_range(rect, &from, &by, 1)
            && self.is_in_range(rect, &from, &by, 2)
    }

    // Whether the coordinate after this part of the move is in the rectangle's range on the axis.
    fn is_in_range(self, rect: &Rect, from: &[i64; 3], by: &[i64; 3], axis: usize) -> bool
        requires axis { axis < 3 }
        requires part { IsSmall self }
        requires low { unsigned_abs (on_axis rect.now.low axis) ≤ 2 ^ 60 }
        requires high { unsigned_abs (on_axis rect.now.high axis) ≤ 2 ^ 60 }
        requires from { unsigned_abs (on_axis from.now axis) ≤ 2 ^ 60 }
        requires by { unsigned_abs (on_axis by.now axis) ≤ 2 ^ 60 }
        ensures { IsTrue result ↔ IsInRange rect.now axis (move_point from.now by.now (fraction_of self) axis) }
    {
        self.is_between(rect.low[axis], rect.high[axis], from[axis], by[axis])
    }

    // Whether the coordinate after this part of the way, `start + num / den * by`, is from low to high.
    fn is_between(self, low: i64, high: i64, start: i64, by: i64) -> bool
        requires part { IsSmall self }
        requires low { unsigned_abs low ≤ 2 ^ 60 }
        requires high { unsigned_abs high ≤ 2 ^ 60 }
        requires start { unsigned_abs start ≤ 2 ^ 60 }
        requires by { unsigned_abs by ≤ 2 ^ 60 }
        ensures { IsTrue result
            ↔ ((whole low ≤ℚ part_way start by (fraction_of self)) × (part_way start by (fraction_of self) ≤ℚ whole high)) }
    {
        let low = product(low, self.den);
        let high = product(high, self.den);
        are_ordered(low, self.scaled_way(start, by), high)
    }

    // The coordinate after this part of the way, times the denominator.
    fn scaled_way(self, start: i64, by: i64) -> i128
        requires part { IsSmall self }
        requires start { unsigned_abs start ≤ 2 ^ 60 }
        requires by { unsigned_abs by ≤ 2 ^ 60 }
        ensures { result ≡ scaled_way start by (fraction_of self) }
    {
        product(start, self.den) + product(by, self.num)
    }
}

// The product of a coordinate and a small number.
fn product(coordinate: i64, number: u64) -> i128
    requires coordinate { unsigned_abs coordinate ≤ 2 ^ 60 }
    requires number { number ≤ 2 ^ 60 }
    ensures { result ≡ coordinate *ℤ pos number }
{
    i128::from(coordinate) * i128::from(number)
}

// Whether the three numbers don't fall.
fn are_ordered(low: i128, middle: i128, high: i128) -> bool
    ensures { IsTrue result ↔ ((low ≤ℤ middle) × (middle ≤ℤ high)) }
{
    low <= middle && middle <= high
}

ghost use Rattle.std.specs.Prelude.{◌≡◌, ℕ, ◌*◌, ◌/◌, ◌^◌, ◌<◌, ◌≤◌, Some};
ghost use Rattle.std.specs.Option.{ForSome};
ghost use Rattle.smol_geom.specs.Axes.{EachAxis, IsWithin};
ghost use Rattle.smol_cells.specs.Bounds.{most_boxes};
ghost use Rattle.smol_cells.specs.Numbers.{count_on, product};

use crate::bounds::{above_low, boxes_on, least_double, power_of};
use crate::boxes::Boxes;
use smol_geom::{Cuboid, Place};

/// Boxes of one edge, in ticks, from a low corner on, so many on each axis and at most 2^20 in all.
#[derive(Clone, Copy, Debug)]
pub struct Grid {
    low: [i64; 3],
    edge: u64,
    shift: Option<u32>,
    counts: [usize; 3],
    ghost small: { IsWithin (2 ^ 58) low },
    ghost positive: { 0 < edge },
    ghost exact: { ForSome shift (λ s. (s < 64) × (edge ≡ 2 ^ s)) },
    ghost some: { EachAxis (λ axis. 0 < count_on counts axis) },
    ghost few: { product counts ≤ most_boxes },
}

impl Grid {
    ghost use Rattle.std.specs.Prelude.{◌≤ℤ◌, unsigned_abs};
    ghost use Rattle.smol_geom.specs.Axes.{on_axis};
    ghost use Rattle.smol_cells.specs.Numbers.{box_at};
    ghost use Rattle.smol_cells.specs.Ranges.{AreAmong};
    ghost use Rattle.smol_cells.specs.Placed.{box_of_place};
    ghost use Rattle.smol_cells.specs.Numbered.{IsFilled, IsGridOf, boxes_between, boxes_of_cuboid, number_on};

    /// The grid of bounds with this edge, in ticks, or with the least of its doubles that gives at most 2^20 boxes.
    pub fn of(bounds: &Cuboid, edge: u64) -> Grid
        requires low { IsWithin (2 ^ 58) bounds.now.low }
        requires high { IsWithin (2 ^ 58) bounds.now.high }
        requires filled { IsFilled bounds.now }
        requires positive { 0 < edge }
        requires short { edge ≤ 2 ^ 58 }
        ensures { IsGridOf bounds.now edge result }
    {
        let edge = least_double(bounds, edge);
        Grid {
            low: bounds.low,
            edge,
            shift: power_of(edge),
            counts: [
                boxes_on(bounds, edge, 0) as usize,
                boxes_on(bounds, edge, 1) as usize,
                boxes_on(bounds, edge, 2) as usize,
            ],
        }
    }

    /// The boxes that have a point of the closed cuboid, where what is beyond the bounds is in the outermost boxes.
    pub fn boxes(&self, c: &Cuboid) -> Boxes
        requires low { IsWithin (2 ^ 58) c.now.low }
        requires high { IsWithin (2 ^ 58) c.now.high }
        requires filled { IsFilled c.now }
        ensures value { result ≡ boxes_of_cuboid self.now c.now }
        ensures among { AreAmong self.now.counts result }
    {
        self.between(&c.low, &c.high)
    }

    /// How many boxes there are.
    pub fn len(&self) -> usize
        ensures value { result ≡ product self.now.counts }
        ensures few { result ≤ most_boxes }
    {
        self.counts[2] * self.counts[1] * self.counts[0]
    }

    // The number among all boxes of the box of a place.
    pub fn box_of(&self, place: &Place) -> usize
        requires { IsWithin (2 ^ 58) place.now.0 }
        ensures { result ≡ box_of_place self.now place.now }
    {
        let x = self.number(&place.0, 0);
        let y = self.number(&place.0, 1);
        let z = self.number(&place.0, 2);
        self.number_at(x, y, z)
    }

    // The number among all boxes of the box with these numbers on the axes.
    pub fn number_at(&self, x: usize, y: usize, z: usize) -> usize
        requires x { x < count_on self.now.counts 0 }
        requires y { y < count_on self.now.counts 1 }
        requires z { z < count_on self.now.counts 2 }
        ensures value { result ≡ box_at self.now.counts x y z }
        ensures inside { result < product self.now.counts }
    {
        (z * self.counts[1] + y) * self.counts[0] + x
    }

    // The boxes from those of low coordinates to those of high ones.
    pub fn between(&self, low: &[i64; 3], high: &[i64; 3]) -> Boxes
        requires low { IsWithin (2 ^ 58) low.now }
        requires high { IsWithin (2 ^ 58) high.now }
        requires ordered { EachAxis (λ axis. on_axis low.now axis ≤ℤ on_axis high.now axis) }
        ensures value { result ≡ boxes_between self.now low.now high.now }
        ensures among { AreAmong self.now.counts result }
    {
        Boxes {
            first: [
                self.number(low, 0),
                self.number(low, 1),
                self.number(low, 2),
            ],
            last: [
                self.number(high, 0),
                self.number(high, 1),
                self.number(high, 2),
            ],
        }
    }

    // The box number of coordinates on an axis.
    fn number(&self, at: &[i64; 3], axis: usize) -> usize
        requires axis { axis < 3 }
        requires at { IsWithin (2 ^ 58) at.now }
        ensures value { result ≡ number_on self.now at.now axis }
        ensures inside { result < count_on self.now.counts axis }
    {
        let above = above_low(self.low[axis], at[axis]);
        (self.edges_in(above) as usize).min(self.counts[axis] - 1)
    }

    // How many whole edges a length has.
    fn edges_in(&self, length: u64) -> u64
        ensures { result ≡ length / self.now.edge }
    {
        match self.shift {
            Some(shift) => length >> shift,
            None => length / self.edge,
        }
    }
}

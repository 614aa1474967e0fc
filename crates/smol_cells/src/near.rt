//! What is near a cuboid, in order.
ghost use Rattle.std.specs.Prelude.{◌≡◌, ℕ, ◌+◌, ◌-◌, ◌<◌, ◌≤◌, ◌++◌, ◌∷◌, [], List, true};
ghost use Rattle.smol_cells.specs.Kept.{item, items_between, items_in, items_in_layer, items_in_row, size};
ghost use Rattle.smol_cells.specs.Next.{IsNext, has_number};
ghost use Rattle.smol_cells.specs.Numbers.{count_on};
ghost use Rattle.smol_cells.specs.Placed.{counted};
ghost use Rattle.smol_cells.specs.Ranges.{AreAmong};

use crate::boxes::Boxes;
use crate::cells::Cells;
use smol_geom::Cuboid;

// Numbers side by side, from the start up to the end.
#[derive(Clone, Copy)]
pub struct Run {
    pub start: usize,
    pub end: usize,
}

/// The indexes of what is near a cuboid, in ascending order and without repeats. It takes no memory.
#[derive(Drop)]
pub struct Near<'a> {
    cells: &'a Cells,
    boxes: Boxes,
    next: usize,
    end: usize,
    ghost among: { AreAmong cells.now.grid.counts boxes },
    ghost run: { (n : ℕ) → next ≤ n → n < end → has_number (items_in cells.now boxes) n ≡ true },
}

impl<'a> Iterator for Near<'a> {
    ghost use Rattle.std.specs.Iterator.{YieldsFirst, item_count};
    ghost use Rattle.smol_cells.specs.NearLeft.{near_left};

    type Item = usize;

    ghost next_gives = { YieldsFirst near_left };

    ghost remaining = { item_count near_left };

    fn next(&mut self) -> Option<usize> {
        if self.next < self.end {
            let index = self.next;
            self.next += 1;
            return Some(index);
        }
        let Some(run) = self.cells.next_in(&self.boxes, self.next) else {
            return None;
        };
        self.next = run.start + 1;
        self.end = run.end;
        Some(run.start)
    }
}

// The run that begins first.
fn earlier(a: Option<Run>, b: Option<Run>) -> Option<Run>
    ensures { (xs ys : List ℕ) (least : ℕ) → IsNext xs least a → IsNext ys least b → IsNext (xs ++ ys) least result }
{
    let Some(one) = a else { return b };
    let Some(other) = b else { return a };
    Some(if other.start < one.start { other } else { one })
}

// The run of one number, where it isn't too low.
fn run_of_one(number: usize, least: usize) -> Option<Run>
    requires { number < usize.MAX }
    ensures { IsNext (number ∷ []) least result }
{
    if number < least {
        return None;
    }
    Some(Run {
        start: number,
        end: number + 1,
    })
}

// What of a run isn't too low.
fn run_from(run: Run, least: usize) -> Option<Run>
    ensures { IsNext (counted run.start (run.end - run.start)) least result }
{
    let start = run.start.max(least);
    if start < run.end {
        Some(Run {
            start,
            end: run.end,
        })
    } else {
        None
    }
}

impl Cells {
    ghost use Rattle.std.specs.Prelude.{◌^◌};
    ghost use Rattle.smol_geom.specs.Axes.{IsWithin};
    ghost use Rattle.smol_cells.specs.declared.boxes.Boxes.{Boxes};
    ghost use Rattle.smol_cells.specs.Kept.{AreOf};
    ghost use Rattle.smol_cells.specs.NearLeft.{near_left};
    ghost use Rattle.smol_cells.specs.Numbered.{IsFilled, boxes_of_cuboid};
    ghost use Rattle.smol_cells.specs.Ranges.{near_of};

    /// The indexes of what is near a cuboid, whose boxes meet those of the cuboid: in ascending order and without repeats.
    pub fn near(&self, c: &Cuboid) -> Near<'_>
        requires low { IsWithin (2 ^ 58) c.now.low }
        requires high { IsWithin (2 ^ 58) c.now.high }
        requires filled { IsFilled c.now }
        ensures { (ranges : List Boxes) → AreOf ranges self.now → near_left result ≡ near_of ranges (boxes_of_cuboid self.now.grid c.now) }
    {
        Near {
            cells: self,
            boxes: self.grid.boxes(c),
            next: 0,
            end: 0,
        }
    }

    // The next index at or behind a number of what is in the boxes.
    fn next_in(&self, boxes: &Boxes, least: usize) -> Option<Run>
        requires { AreAmong self.now.grid.counts boxes.now }
        ensures { IsNext (items_in self.now boxes.now) least result }
    {
        let mut next = None;
        for z in boxes.first[2]..boxes.last[2] + 1 {
            next = earlier(next, self.next_in_layer(boxes, z, least));
        }
        next
    }

    // The same of those of the boxes that are in a layer.
    fn next_in_layer(&self, boxes: &Boxes, z: usize, least: usize) -> Option<Run>
        requires among { AreAmong self.now.grid.counts boxes.now }
        requires z { z < count_on self.now.grid.counts 2 }
        ensures { IsNext (items_in_layer self.now boxes.now z) least result }
    {
        let mut next = None;
        for y in boxes.first[1]..boxes.last[1] + 1 {
            next = earlier(next, self.next_in_row(boxes, z, y, least));
        }
        next
    }

    // The same of those of the boxes that are in a row.
    fn next_in_row(&self, boxes: &Boxes, z: usize, y: usize, least: usize) -> Option<Run>
        requires among { AreAmong self.now.grid.counts boxes.now }
        requires z { z < count_on self.now.grid.counts 2 }
        requires y { y < count_on self.now.grid.counts 1 }
        ensures { IsNext (items_in_row self.now boxes.now z y) least result }
    {
        let positions = self.run(boxes.first[0], boxes.last[0], y, z);
        let run = Run {
            start: positions.start,
            end: positions.end,
        };
        if self.in_order {
            run_from(run, least)
        } else {
            self.next_among(run, least)
        }
    }

    // The same of the items at positions.
    fn next_among(&self, run: Run, least: usize) -> Option<Run>
        requires { run.end ≤ size self.now }
        ensures { IsNext (items_between self.now run.start run.end) least result }
    {
        let mut next = None;
        for position in run.start..run.end {
            next = earlier(next, run_of_one(self.item(position), least));
        }
        next
    }

    // The index of the thing at a position.
    pub fn item(&self, position: usize) -> usize
        requires { position < size self.now }
        ensures value { result ≡ item self.now position }
        ensures known { result < self.now.count }
    {
        if self.in_order {
            position
        } else {
            self.items[position]
        }
    }
}

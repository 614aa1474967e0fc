//! What is near a cuboid, row by row of boxes.
ghost use Rattle.std.specs.Prelude.{◌≡◌, ℕ, ◌≤◌};
ghost use Rattle.smol_cells.specs.Kept.{size};
ghost use Rattle.smol_cells.specs.Ranges.{AreAmong, last_on};

use crate::boxes::Boxes;
use crate::cells::Cells;
use smol_geom::Cuboid;

/// The indexes of what is near a cuboid, row by row of boxes, with repeats. It takes no memory.
#[derive(Drop)]
pub struct Touching<'a> {
    cells: &'a Cells,
    boxes: Boxes,
    z: usize,
    y: usize,
    at: usize,
    end: usize,
    ghost among: { AreAmong cells.now.grid.counts boxes },
    ghost layer: { z ≤ last_on boxes 2 },
    ghost row: { y ≤ last_on boxes 1 },
    ghost run: { end ≤ size cells.now },
}

impl<'a> Touching<'a> {
    ghost use Rattle.std.specs.Prelude.{◌++◌, ◌<◌, [], IfNone, IfSome};
    ghost use Rattle.smol_cells.specs.Kept.{items_in_row};
    ghost use Rattle.smol_cells.specs.TouchingLeft.{behind_row, rows_left, touching_left};

    // From a row on.
    pub fn from_row(cells: &'a Cells, boxes: Boxes, z: usize, y: usize) -> Touching<'a>
        requires among { AreAmong cells.now.grid.counts boxes }
        requires z { z ≤ last_on boxes 2 }
        requires y { y ≤ last_on boxes 1 }
        ensures left { touching_left result ≡ items_in_row cells.now boxes z y ++ behind_row cells.now boxes z y }
        ensures boxes { result.boxes ≡ boxes }
        ensures z { result.z ≡ z }
        ensures y { result.y ≡ y }
    {
        let run = cells.run(boxes.first[0], boxes.last[0], y, z);
        Touching {
            cells,
            boxes,
            z,
            y,
            at: run.start,
            end: run.end,
        }
    }

    // From the next row on, where there is one.
    fn next_row(&self) -> Option<Touching<'a>>
        ensures left { IfSome result (λ next. touching_left next ≡ behind_row self.now.cells.now self.now.boxes self.now.z self.now.y) }
        ensures fewer { IfSome result (λ next. rows_left next < rows_left self.now) }
        ensures none { IfNone result (behind_row self.now.cells.now self.now.boxes self.now.z self.now.y ≡ []) }
    {
        if self.y < self.boxes.last[1] {
            return Some(Touching::from_row(self.cells, self.boxes, self.z, self.y + 1));
        }
        if self.z < self.boxes.last[2] {
            return Some(Touching::from_row(
                self.cells,
                self.boxes,
                self.z + 1,
                self.boxes.first[1],
            ));
        }
        None
    }
}

impl<'a> Iterator for Touching<'a> {
    ghost use Rattle.std.specs.Iterator.{YieldsFirst, item_count};
    ghost use Rattle.smol_cells.specs.TouchingLeft.{touching_left};

    type Item = usize;

    ghost next_gives = { YieldsFirst touching_left };

    ghost remaining = { item_count touching_left };

    fn next(&mut self) -> Option<usize> {
        while self.at >= self.end {
            let Some(next) = self.next_row() else {
                return None;
            };
            *self = next;
        }
        let index = self.cells.item(self.at);
        self.at += 1;
        Some(index)
    }
}

impl Cells {
    ghost use Rattle.std.specs.Prelude.{◌^◌, ◌↔◌, Contains, List};
    ghost use Rattle.smol_geom.specs.Axes.{IsWithin};
    ghost use Rattle.smol_cells.specs.declared.boxes.Boxes.{Boxes};
    ghost use Rattle.smol_cells.specs.Kept.{AreOf};
    ghost use Rattle.smol_cells.specs.Numbered.{IsFilled, boxes_of_cuboid};
    ghost use Rattle.smol_cells.specs.Ranges.{near_of};
    ghost use Rattle.smol_cells.specs.TouchingLeft.{touching_left};

    /// The indexes of what is near a cuboid, row by row of boxes, with repeats: for callers who mind neither order nor repeats.
    pub fn touching(&self, c: &Cuboid) -> Touching<'_>
        requires low { IsWithin (2 ^ 58) c.now.low }
        requires high { IsWithin (2 ^ 58) c.now.high }
        requires filled { IsFilled c.now }
        ensures { (ranges : List Boxes) → AreOf ranges self.now → (index : ℕ)
            → Contains (touching_left result) index ↔ Contains (near_of ranges (boxes_of_cuboid self.now.grid c.now)) index }
    {
        let boxes = self.grid.boxes(c);
        Touching::from_row(self, boxes, boxes.first[2], boxes.first[1])
    }
}

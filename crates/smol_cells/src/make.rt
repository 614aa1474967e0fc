//! The cells of places and of rectangles.
ghost use Rattle.std.specs.Prelude.{◌≡◌, ℕ, ◌^◌, All, IfOk, map};
ghost use Rattle.smol_geom.specs.declared.place.Place.{Place};
ghost use Rattle.smol_geom.specs.Axes.{IsWithin};
ghost use Rattle.smol_cells.specs.Kept.{AreOf};
ghost use Rattle.smol_cells.specs.Numbered.{IsPlain, boxes_of_place, boxes_of_rect};
ghost use Rattle.smol_cells.specs.Ranges.{AreAmong};

use crate::boxes::Boxes;
use crate::cells::Cells;
use crate::entries::{indexes_of, ordered_entries_of_ranges, starts_of};
use crate::grid::Grid;
use smol_geom::{Place, Rect};
use std::alloc::{AllocError, Global};

impl Cells {
    /// Which places are in which boxes.
    pub fn of_points(alloc: Global, grid: &Grid, places: &[Place]) -> Result<Cells, AllocError>
        requires { All (λ (place : Place). IsWithin (2 ^ 58) place.0) places.now }
        ensures grid { IfOk result (λ cells. cells.grid ≡ grid.now) }
        ensures of { IfOk result (λ cells. AreOf (map (boxes_of_place grid.now) places.now) cells) }
    {
        let ranges = ranges_of_places(alloc, grid, places)?;
        Cells::of_ranges(alloc, grid, &ranges)
    }

    /// Which rectangles are in which boxes.
    pub fn of_rects(alloc: Global, grid: &Grid, rects: &[Rect]) -> Result<Cells, AllocError>
        requires { All IsPlain rects.now }
        ensures grid { IfOk result (λ cells. cells.grid ≡ grid.now) }
        ensures of { IfOk result (λ cells. AreOf (map (boxes_of_rect grid.now) rects.now) cells) }
    {
        let ranges = ranges_of_rects(alloc, grid, rects)?;
        Cells::of_ranges(alloc, grid, &ranges)
    }

    // Which things are in which boxes, where each is in some boxes side by side.
    fn of_ranges(alloc: Global, grid: &Grid, ranges: &[Boxes]) -> Result<Cells, AllocError>
        requires { All (AreAmong grid.now.counts) ranges.now }
        ensures grid { IfOk result (λ cells. cells.grid ≡ grid.now) }
        ensures of { IfOk result (λ cells. AreOf ranges.now cells) }
    {
        let entries = ordered_entries_of_ranges(alloc, grid, ranges)?;
        let starts = starts_of(alloc, &entries, grid.len())?;
        let items = indexes_of(alloc, &entries)?;
        Ok(Cells {
            grid: *grid,
            starts,
            items,
            in_order: false,
            count: ranges.len(),
        })
    }
}

// The box of each place.
fn ranges_of_places(alloc: Global, grid: &Grid, places: &[Place]) -> Result<Vec<Boxes>, AllocError>
    requires { All (λ (place : Place). IsWithin (2 ^ 58) place.0) places.now }
    ensures value { IfOk result (λ ranges. ranges.items ≡ map (boxes_of_place grid.now) places.now) }
    ensures among { IfOk result (λ ranges. All (AreAmong grid.now.counts) ranges.items) }
{
    let mut ranges = Vec::with_capacity(alloc, places.len())?;
    for place in places {
        ranges.push(grid.between(&place.0, &place.0))?;
    }
    Ok(ranges)
}

// The boxes of each rectangle.
fn ranges_of_rects(alloc: Global, grid: &Grid, rects: &[Rect]) -> Result<Vec<Boxes>, AllocError>
    requires { All IsPlain rects.now }
    ensures value { IfOk result (λ ranges. ranges.items ≡ map (boxes_of_rect grid.now) rects.now) }
    ensures among { IfOk result (λ ranges. All (AreAmong grid.now.counts) ranges.items) }
{
    let mut ranges = Vec::with_capacity(alloc, rects.len())?;
    for rect in rects {
        ranges.push(grid.between(&rect.low, &rect.high))?;
    }
    Ok(ranges)
}

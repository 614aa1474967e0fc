//! The boxes in which panels are looked for. Whichever they are, the same is found.
ghost use Rattle.std.specs.Prelude.{◌≡◌, ℤ, ◌^◌, ◌<◌, ◌≤◌, ◌≤ℤ◌, All, IfOk, map, unsigned_abs};
ghost use Rattle.smol_geom.specs.Axes.{IsWithin};
ghost use Rattle.smol_types.specs.Limits.{farthest};
ghost use Rattle.smol_types.specs.declared.surface.Panel.{Panel};
ghost use Rattle.smol_cells.specs.Kept.{AreOf};
ghost use Rattle.smol_cells.specs.Meeting.{MeetsBetween};
ghost use Rattle.smol_cells.specs.Numbered.{IsFilled, boxes_of_rect};
ghost use Rattle.smol_meaning.specs.Folds.{IsPanelRect};
ghost use Rattle.smol_meaning.specs.Sighted.{IsPlaceWithin};
ghost use Rattle.smol_sheets.specs.Sheets.{HasBoth, rect_of};

use smol_cells::{Cells, Grid};
use smol_geom::{Cuboid, Place, Rect};
use smol_types::Panel;
use std::alloc::{AllocError, Global};

// As many boxes few panels may have, and as many more each panel.
const FEW_BOXES: u64 = 64;

const BOXES_A_PANEL: u64 = 24;

// An edge of this length, in ticks, isn't doubled again: a dozen boxes have all panels.
const LONG_EDGE: u64 = 1 << 42;

// No cuboid in which panels are looked for reaches beyond this, in ticks.
const BEYOND: i64 = 1 << 58;

// Which panels are in which boxes.
pub fn cells_of(alloc: Global, panels: &[Panel]) -> Result<Cells, AllocError>
    requires { All IsPanelRect (map rect_of panels.now) }
    ensures { IfOk result (λ cells. AreOf (map (boxes_of_rect cells.grid) (map rect_of panels.now)) cells) }
{
    let rects = rects_of(alloc, panels)?;
    let grid = grid_of(&rects);
    let cells = Cells::of_rects(alloc, &grid, &rects)?;
    Ok(cells)
}

// Where panels stand.
fn rects_of(alloc: Global, panels: &[Panel]) -> Result<Vec<Rect>, AllocError>
    ensures { IfOk result (λ rects. rects.items ≡ map rect_of panels.now) }
{
    panels.iter().map(|panel| panel.rect).collect(alloc)
}

// Boxes over panels: of the least edge for which neither the boxes nor the entries of panels in them are many.
fn grid_of(rects: &[Rect]) -> Grid
    requires { All IsPanelRect rects.now }
{
    let bounds = bounds_of(rects);
    let most = (rects.len() as u64)
        .saturating_mul(BOXES_A_PANEL)
        .saturating_add(FEW_BOXES);
    let mut edge = 2;
    let mut grid = Grid::of(&around(&bounds, edge), edge);
    while edge < LONG_EDGE && !are_few(&grid, rects, most) {
        edge *= 2;
        grid = Grid::of(&around(&bounds, edge), edge);
    }
    grid
}

// Whether there are at most so many boxes, and entries of panels in them.
fn are_few(grid: &Grid, rects: &[Rect], most: u64) -> bool
    requires { All IsPanelRect rects.now }
{
    grid.len() as u64 <= most && entries_in(grid, rects) <= most
}

// In how many boxes panels are, each counted for itself.
fn entries_in(grid: &Grid, rects: &[Rect]) -> u64
    requires { All IsPanelRect rects.now }
{
    let mut entries: u64 = 0;
    for rect in rects {
        entries = entries.saturating_add(boxes_with(grid, rect));
    }
    entries
}

// In how many boxes a panel is.
fn boxes_with(grid: &Grid, rect: &Rect) -> u64
    requires { IsPanelRect rect.now }
{
    let boxes = grid.boxes(&Cuboid {
        low: rect.low,
        high: rect.high,
    });
    let x = numbers(boxes.first[0], boxes.last[0]);
    let y = numbers(boxes.first[1], boxes.last[1]);
    let z = numbers(boxes.first[2], boxes.last[2]);
    z.saturating_mul(y).saturating_mul(x)
}

// How many numbers there are from a first to a last one.
fn numbers(first: usize, last: usize) -> u64 {
    (last.saturating_sub(first) as u64).saturating_add(1)
}

// The least cuboid that has all panels.
fn bounds_of(rects: &[Rect]) -> Cuboid
    requires { All IsPanelRect rects.now }
    ensures low { IsWithin farthest result.low }
    ensures high { IsWithin farthest result.high }
    ensures filled { IsFilled result }
{
    let Some(first) = rects.first() else {
        return Cuboid {
            low: [0; 3],
            high: [0; 3],
        };
    };
    let mut bounds = Cuboid {
        low: first.low,
        high: first.high,
    };
    for rect in rects {
        bounds = joined(&bounds, rect);
    }
    bounds
}

// A cuboid widened to have a panel.
fn joined(bounds: &Cuboid, rect: &Rect) -> Cuboid
    requires low { IsWithin farthest bounds.now.low }
    requires high { IsWithin farthest bounds.now.high }
    requires filled { IsFilled bounds.now }
    requires rect { IsPanelRect rect.now }
    ensures low { IsWithin farthest result.low }
    ensures high { IsWithin farthest result.high }
    ensures filled { IsFilled result }
{
    let x = joined_on(bounds.low[0], bounds.high[0], rect.low[0], rect.high[0]);
    let y = joined_on(bounds.low[1], bounds.high[1], rect.low[1], rect.high[1]);
    let z = joined_on(bounds.low[2], bounds.high[2], rect.low[2], rect.high[2]);
    Cuboid {
        low: [x.0, y.0, z.0],
        high: [x.1, y.1, z.1],
    }
}

// On an axis, the ends of what has what lies between two ends, and what lies between two others.
fn joined_on(low: i64, high: i64, other_low: i64, other_high: i64) -> (i64, i64)
    requires low { unsigned_abs low ≤ farthest }
    requires high { unsigned_abs high ≤ farthest }
    requires other_low { unsigned_abs other_low ≤ farthest }
    requires other_high { unsigned_abs other_high ≤ farthest }
    requires ordered { low ≤ℤ high }
    ensures low { unsigned_abs result.0 ≤ farthest }
    ensures high { unsigned_abs result.1 ≤ farthest }
    ensures ordered { result.0 ≤ℤ result.1 }
{
    let least = if other_low < low { other_low } else { low };
    let greatest = if high < other_high { other_high } else { high };
    (least, greatest)
}

// A cuboid widened by an edge on each side: what is beyond all panels has boxes of its own then.
fn around(bounds: &Cuboid, edge: u64) -> Cuboid
    requires low { IsWithin farthest bounds.now.low }
    requires high { IsWithin farthest bounds.now.high }
    requires filled { IsFilled bounds.now }
    requires edge { edge ≤ 2 ^ 43 }
    ensures low { IsWithin (2 ^ 58) result.low }
    ensures high { IsWithin (2 ^ 58) result.high }
    ensures filled { IsFilled result }
{
    let x = around_on(bounds.low[0], bounds.high[0], edge);
    let y = around_on(bounds.low[1], bounds.high[1], edge);
    let z = around_on(bounds.low[2], bounds.high[2], edge);
    Cuboid {
        low: [x.0, y.0, z.0],
        high: [x.1, y.1, z.1],
    }
}

// On an axis, two ends with an edge more on each side.
fn around_on(low: i64, high: i64, edge: u64) -> (i64, i64)
    requires low { unsigned_abs low ≤ farthest }
    requires high { unsigned_abs high ≤ farthest }
    requires ordered { low ≤ℤ high }
    requires edge { edge ≤ 2 ^ 43 }
    ensures low { unsigned_abs result.0 ≤ 2 ^ 58 }
    ensures high { unsigned_abs result.1 ≤ 2 ^ 58 }
    ensures ordered { result.0 ≤ℤ result.1 }
{
    (low - edge as i64, high + edge as i64)
}

// What of a cuboid isn't too far out for boxes: whatever of it panels may meet.
pub fn limited(c: &Cuboid) -> Cuboid
    requires low { IsWithin (2 ^ 60) c.now.low }
    requires high { IsWithin (2 ^ 60) c.now.high }
    requires filled { IsFilled c.now }
    ensures low { IsWithin (2 ^ 58) result.low }
    ensures high { IsWithin (2 ^ 58) result.high }
    ensures filled { IsFilled result }
    ensures meets { (rect : Rect) → IsPanelRect rect → MeetsBetween c.now rect.low rect.high → MeetsBetween result rect.low rect.high }
{
    let x = limited_on(c.low[0], c.high[0]);
    let y = limited_on(c.low[1], c.high[1]);
    let z = limited_on(c.low[2], c.high[2]);
    Cuboid {
        low: [x.0, y.0, z.0],
        high: [x.1, y.1, z.1],
    }
}

// On an axis, two ends that aren't too far out.
fn limited_on(low: i64, high: i64) -> (i64, i64)
    requires low { unsigned_abs low ≤ 2 ^ 60 }
    requires high { unsigned_abs high ≤ 2 ^ 60 }
    requires ordered { low ≤ℤ high }
    ensures low { unsigned_abs result.0 ≤ 2 ^ 58 }
    ensures high { unsigned_abs result.1 ≤ 2 ^ 58 }
    ensures ordered { result.0 ≤ℤ result.1 }
    ensures meets { (a b : ℤ) → unsigned_abs a ≤ farthest → unsigned_abs b ≤ farthest → (a ≤ℤ high) × (low ≤ℤ b) → (a ≤ℤ result.1) × (result.0 ≤ℤ b) }
{
    if high < -BEYOND {
        return (-BEYOND, -BEYOND);
    }
    if BEYOND < low {
        return (BEYOND, BEYOND);
    }
    let least = if low < -BEYOND { -BEYOND } else { low };
    let greatest = if BEYOND < high { BEYOND } else { high };
    (least, greatest)
}

// The least cuboid that has two places, and so the straight line between them.
pub fn stretch(a: &Place, b: &Place) -> Cuboid
    requires a { IsPlaceWithin (2 ^ 58) a.now }
    requires b { IsPlaceWithin (2 ^ 58) b.now }
    ensures low { IsWithin (2 ^ 60) result.low }
    ensures high { IsWithin (2 ^ 60) result.high }
    ensures filled { IsFilled result }
    ensures both { HasBoth result a.now b.now }
{
    let x = stretch_on(a.0[0], b.0[0]);
    let y = stretch_on(a.0[1], b.0[1]);
    let z = stretch_on(a.0[2], b.0[2]);
    Cuboid {
        low: [x.0, y.0, z.0],
        high: [x.1, y.1, z.1],
    }
}

// The lesser and the greater of two coordinates.
fn stretch_on(a: i64, b: i64) -> (i64, i64)
    requires a { unsigned_abs a ≤ 2 ^ 58 }
    requires b { unsigned_abs b ≤ 2 ^ 58 }
    ensures low { unsigned_abs result.0 ≤ 2 ^ 58 }
    ensures high { unsigned_abs result.1 ≤ 2 ^ 58 }
    ensures a { (result.0 ≤ℤ a) × (a ≤ℤ result.1) }
    ensures b { (result.0 ≤ℤ b) × (b ≤ℤ result.1) }
    ensures ordered { result.0 ≤ℤ result.1 }
{
    if a < b { (a, b) } else { (b, a) }
}

//! Laws of box numbers. The functions do nothing: the laws are their contracts.
ghost use Rattle.std.specs.Prelude.{ℕ, ◌<◌, ◌≤◌, ◌↔◌, Contains, List, ℤ, pos, ◌+ℤ◌, ◌-ℤ◌, ◌≤ℤ◌, length, map, unsigned_abs};
ghost use Rattle.std.specs.List.Sorted.{IsStrictlyIncreasing};
ghost use Rattle.smol_geom.specs.declared.cuboid.Cuboid.{Cuboid};
ghost use Rattle.smol_geom.specs.declared.place.Place.{Place};
ghost use Rattle.smol_geom.specs.declared.rect.Rect.{Rect};
ghost use Rattle.smol_cells.specs.declared.boxes.Boxes.{Boxes};
ghost use Rattle.smol_cells.specs.declared.cells.Cells.{Cells};
ghost use Rattle.smol_cells.specs.declared.grid.Grid.{Grid};
ghost use Rattle.smol_cells.specs.Kept.{AreOf};
ghost use Rattle.smol_cells.specs.Meeting.{MeetsBetween, ShareNumbers, rect_at};
ghost use Rattle.smol_cells.specs.Numbered.{box_number, boxes_of_cuboid, boxes_of_place, boxes_of_rect};
ghost use Rattle.smol_cells.specs.Placed.{AreInOrder, place_at};
ghost use Rattle.smol_cells.specs.Ranges.{boxes_at, near_of};

/// Box numbers rise with coordinates. So what lies between two coordinates has a box between theirs.
pub fn numbers_rise()
    ensures { (grid : Grid) (axis : ℕ) (x y : ℤ) → x ≤ℤ y → box_number grid axis x ≤ box_number grid axis y }
{}

/// What is within reach of a coordinate has a box between those of the ends of the reach.
pub fn reach_is_between()
    ensures { (grid : Grid) (axis reach : ℕ) (x y : ℤ) → unsigned_abs (x -ℤ y) ≤ reach
        → (box_number grid axis (x -ℤ pos reach) ≤ box_number grid axis y) × (box_number grid axis y ≤ box_number grid axis (x +ℤ pos reach)) }
{}

/// What is near boxes are those things whose boxes have a number in common with these on every axis, in ascending order.
pub fn near_ones_share_numbers()
    ensures exactly { (ranges : List Boxes) (boxes : Boxes) (index : ℕ)
        → Contains (near_of ranges boxes) index ↔ ((index < length ranges) × ShareNumbers (boxes_at ranges index) boxes) }
    ensures ascending { (ranges : List Boxes) (boxes : Boxes) → IsStrictlyIncreasing (near_of ranges boxes) }
{}

/// Each place in a closed cuboid, and each rectangle that meets it, is near it, within the bounds of the grid or beyond them.
pub fn what_meets_is_near()
    ensures places { (grid : Grid) (places : List Place) (c : Cuboid) (index : ℕ) → index < length places
        → MeetsBetween c (place_at places index).0 (place_at places index).0
        → Contains (near_of (map (boxes_of_place grid) places) (boxes_of_cuboid grid c)) index }
    ensures rects { (grid : Grid) (rects : List Rect) (c : Cuboid) (index : ℕ) → index < length rects
        → MeetsBetween c (rect_at rects index).low (rect_at rects index).high
        → Contains (near_of (map (boxes_of_rect grid) rects) (boxes_of_cuboid grid c)) index }
{}

/// The cells of places in order are those of their boxes.
pub fn cells_in_order_are_of_places()
    ensures { (places : List Place) (cells : Cells) → AreInOrder places cells → AreOf (map (boxes_of_place cells.grid) places) cells }
{}

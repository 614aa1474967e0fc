//! Straight lines between places, and the panels and walls that they meet.
ghost use Rattle.std.specs.Prelude.{◌≡◌, ℕ, ◌^◌, ◌<◌, ℤ, ◌↔◌, IsTrue};
ghost use Rattle.smol_geom.specs.declared.place.Place.{Place};
ghost use Rattle.smol_geom.specs.declared.rect.Rect.{Rect};
ghost use Rattle.smol_geom.specs.Axes.{on_axis};
ghost use Rattle.smol_geom.specs.Line.{IsStrictlyBetween, LineMeets};
ghost use Rattle.smol_meaning.specs.declared.sheet.Sheet.TheVariants.{Plane, Rectangle};
ghost use Rattle.smol_meaning.specs.Sight.{is_strictly_between, line_meets};
ghost use Rattle.smol_meaning.specs.Sighted.{IsInSight, IsPlaceWithin};

use smol_geom::{Place, Rect, meets};

/// Whether the straight line between two places meets a panel's rectangle.
pub fn meets_panel(rect: &Rect, a: &Place, b: &Place) -> bool
    requires rect { IsInSight rect.now }
    requires a { IsPlaceWithin (2 ^ 58) a.now }
    requires b { IsPlaceWithin (2 ^ 58) b.now }
    ensures { result ≡ line_meets (Rectangle rect.now) a.now b.now }
{
    meets(rect, a, b)
}

/// Whether the straight line between two places meets the wall that stands at a plane across an axis.
pub fn meets_wall(axis: u8, plane: i64, a: &Place, b: &Place) -> bool
    requires axis { axis < 3 }
    requires a { IsPlaceWithin (2 ^ 58) a.now }
    requires b { IsPlaceWithin (2 ^ 58) b.now }
    ensures { result ≡ line_meets (Plane axis plane) a.now b.now }
{
    let start = a.0[axis as usize];
    let end = b.0[axis as usize];
    lies_between(plane, start, end)
}

// Whether the plane lies strictly between the coordinates of two places.
fn lies_between(plane: i64, start: i64, end: i64) -> bool
    ensures { result ≡ is_strictly_between plane start end }
{
    (start < plane && plane < end) || (end < plane && plane < start)
}

/// The line from a to b meets a panel exactly where some point of it is in the closed rectangle. This function does
/// nothing: its contract is the law.
pub fn a_line_meets_a_panel()
    ensures { (rect : Rect) (a b : Place) →
        IsInSight rect → IsPlaceWithin (2 ^ 58) a → IsPlaceWithin (2 ^ 58) b →
        (IsTrue (line_meets (Rectangle rect) a b) ↔ LineMeets rect a b) }
{}

/// It meets a wall exactly where its ends stand on different sides of the wall's plane.
pub fn a_line_meets_a_wall()
    ensures { (axis : ℕ) (plane : ℤ) (a b : Place) →
        (IsTrue (line_meets (Plane axis plane) a b) ↔ IsStrictlyBetween plane (on_axis a.0 axis) (on_axis b.0 axis)) }
{}

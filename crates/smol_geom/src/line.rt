ghost use Rattle.std.specs.Prelude.{◌≡◌, ◌↔◌, ◌^◌, ◌-ℤ◌, IsTrue};
ghost use Rattle.smol_geom.specs.Axes.{EachAxis, IsEven, IsOdd, IsWithin, on_axis};
ghost use Rattle.smol_geom.specs.Line.{IsStrictlyBetween, LineMeets};
ghost use Rattle.smol_geom.specs.Rect.{IsRect, plane_of};

use crate::part::Part;
use crate::place::Place;
use crate::rect::Rect;

/// Whether the straight line from a to b meets the closed rectangle. A line that touches an edge or a
/// corner meets it. No end of the line stands on the plane, since places are odd and planes even.
pub fn meets(rect: &Rect, a: &Place, b: &Place) -> bool
    requires rect { IsRect rect.now }
    requires low { IsWithin (2 ^ 58) rect.now.low }
    requires high { IsWithin (2 ^ 58) rect.now.high }
    requires a { IsWithin (2 ^ 58) a.now.0 }
    requires b { IsWithin (2 ^ 58) b.now.0 }
    requires a_odd { EachAxis (λ axis. IsOdd (on_axis a.now.0 axis)) }
    requires b_odd { EachAxis (λ axis. IsOdd (on_axis b.now.0 axis)) }
    requires plane_even { IsEven (plane_of rect.now) }
    ensures { IsTrue result ↔ LineMeets rect.now a.now b.now }
{
    let axis = rect.axis as usize;
    let plane = rect.low[axis];
    let start = a.0[axis];
    let end = b.0[axis];
    let part = Part {
        num: plane.abs_diff(start),
        den: end.abs_diff(start),
    };
    lies_between(plane, start, end) && part.is_held(rect, a.0, way(a, b))
}

// Whether the plane lies strictly between the coordinates of two places.
fn lies_between(plane: i64, start: i64, end: i64) -> bool
    ensures { IsTrue result ↔ IsStrictlyBetween plane start end }
{
    (start < plane && plane < end) || (end < plane && plane < start)
}

// The way from a to b.
fn way(a: &Place, b: &Place) -> [i64; 3]
    requires a { IsWithin (2 ^ 58) a.now.0 }
    requires b { IsWithin (2 ^ 58) b.now.0 }
    ensures value { EachAxis (λ axis. on_axis result axis ≡ on_axis b.now.0 axis -ℤ on_axis a.now.0 axis) }
    ensures size { IsWithin (2 ^ 59) result }
{
    [b.0[0] - a.0[0], b.0[1] - a.0[1], b.0[2] - a.0[2]]
}

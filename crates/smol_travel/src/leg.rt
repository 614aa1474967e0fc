ghost use Rattle.std.specs.Prelude.{◌≡◌, ◌↔◌, ◌<◌, ◌≤◌, ◌^◌, IsTrue, pos, unsigned_abs};
ghost use Rattle.smol_geom.specs.Axes.{EachAxis, on_axis};
ghost use Rattle.smol_geom.specs.Moments.{IsMoment};
ghost use Rattle.smol_meaning.specs.Plates.{goes_up};
ghost use Rattle.smol_meaning.specs.Way.{end_place};
ghost use Rattle.smol_travel.specs.Legs.{IsLeg, IsSpan, plane_on};

use crate::coordinates::{coordinate_from, end_on, ends_on, folded, is_up};
use smol_geom::{Cuboid, Fold, Moment, Place, Step3};

// A leg of a way: a move from a place by a displacement, folded so as the panels and walls met so far leave it.
#[derive(Clone, Copy)]
pub struct Leg {
    pub from: Place,
    pub by: Step3,
    pub fold: Fold,
}

// Whether the displacement is 0 on every axis. Such a move has no moments: no coordinate changes.
pub fn is_still(by: &Step3) -> bool
    ensures { IsTrue result ↔ EachAxis (λ axis. on_axis by.now.0 axis ≡ pos 0) }
{
    by.0[0] == 0 && by.0[1] == 0 && by.0[2] == 0
}

// The span of a leg: the least cuboid that has where the fold carries the move's ends to, and so the leg. It is found once for all
// panels and walls.
pub fn span_of(leg: &Leg) -> Cuboid
    requires { IsLeg leg.now }
    ensures { IsSpan leg.now result }
{
    let Leg { from, by, fold } = leg;
    let x = ends_on(fold.sign[0], from.0[0], by.0[0], fold.shift[0]);
    let y = ends_on(fold.sign[1], from.0[1], by.0[1], fold.shift[1]);
    let z = ends_on(fold.sign[2], from.0[2], by.0[2], fold.shift[2]);
    Cuboid {
        low: [x.0, y.0, z.0],
        high: [x.1, y.1, z.1],
    }
}

// The whole number that the true coordinate of the moment's axis is at the moment.
pub fn plane_at(leg: &Leg, moment: &Moment) -> i64
    requires leg { IsLeg leg.now }
    requires moment { IsMoment leg.now.from leg.now.by moment.now }
    ensures value { result ≡ plane_on leg.now moment.now }
    ensures size { unsigned_abs result ≤ 2 ^ 59 }
{
    let axis = moment.axis as usize;
    folded(
        leg.fold.sign[axis],
        coordinate_from(leg.from.0[axis], leg.by.0[axis], moment.num),
        leg.fold.shift[axis],
    )
}

// Whether the true coordinate of the moment's axis grows.
pub fn goes_up(leg: &Leg, moment: &Moment) -> bool
    requires leg { IsLeg leg.now }
    requires axis { moment.now.axis < 3 }
    ensures { result ≡ goes_up leg.now.by leg.now.fold moment.now.axis }
{
    let axis = moment.axis as usize;
    is_up(leg.fold.sign[axis], leg.by.0[axis])
}

// Where the whole move ends, folded.
pub fn end_of(leg: &Leg) -> Place
    requires { IsLeg leg.now }
    ensures { result ≡ end_place leg.now.from leg.now.by leg.now.fold }
{
    let Leg { from, by, fold } = leg;
    Place([
        end_on(fold.sign[0], from.0[0], by.0[0], fold.shift[0]),
        end_on(fold.sign[1], from.0[1], by.0[1], fold.shift[1]),
        end_on(fold.sign[2], from.0[2], by.0[2], fold.shift[2]),
    ])
}

//! When panels and walls are met.
ghost use Rattle.std.specs.Prelude.{◌≡◌, ◌↔◌, ℕ, ◌+◌, ◌<◌, ◌≤◌, ◌^◌, [], ◌∷◌, IfSome, IsTrue, List, Some, false, length, true, unsigned_abs};
ghost use Rattle.smol_geom.specs.declared.moment.Moment.{Moment};
ghost use Rattle.smol_geom.specs.Axes.{IsEven, on_axis};
ghost use Rattle.smol_geom.specs.Moments.{IsMoment, is_before};
ghost use Rattle.smol_types.specs.Sound.{IsSound};
ghost use Rattle.smol_meaning.specs.Folds.{IsSheet};
ghost use Rattle.smol_meaning.specs.Plates.{sheet_axis, sheet_plane};
ghost use Rattle.smol_sheets.specs.Sheets.{sheets_of};
ghost use Rattle.smol_travel.specs.declared.leg.Leg.{Leg};
ghost use Rattle.smol_travel.specs.Legs.{IsBetween, IsLeg, IsSpan, meets, plane_on};
ghost use Rattle.smol_travel.specs.Looked.{IsNeverMet, IsNextBut};
ghost use Rattle.smol_travel.specs.Meetings.{ComesLater, IsNext, sooner_of};

use crate::coordinates::{ticks_to, unfolded};
use crate::leg::{Leg, is_still, span_of};
use smol_geom::{Cuboid, Moment, holds_at, moment_before};
use smol_meaning::Sheet;
use smol_sheets::{Panels, Stand, across};

// The first moment after the last one at which a panel or a wall is met, where there is one.
pub fn next_meeting(panels: &Panels, leg: &Leg, last: &Moment) -> Option<Moment>
    requires { IsLeg leg.now }
    ensures next { IsNext (sheets_of panels.now) leg.now last.now result }
    ensures sound { IsSound panels.now }
{
    let first = panels.first_in_turn();
    // A molecule that stands still meets nothing, however many panels and walls there are.
    if is_still(&leg.by) {
        return None;
    }
    let span = span_of(leg);
    let mut next = next_before(panels, first, &span, leg, last);
    for number in first..panels.sheets().len() {
        if is_within(panels, number, &span) {
            next = sooner(panels, number, leg, last, next);
        }
    }
    next
}

// The first meeting with a panel before the first that is looked at in turn. Each panel that is met is near the span.
fn next_before(
    panels: &Panels,
    first: usize,
    span: &Cuboid,
    leg: &Leg,
    last: &Moment,
) -> Option<Moment>
    requires first { first ≤ length panels.now.panels }
    requires sound { IsSound panels.now }
    requires span { IsSpan leg.now span.now }
    requires leg { IsLeg leg.now }
    ensures { IsNextBut panels.now leg.now last.now first [] result }
{
    if first == 0 {
        return None;
    }
    let mut next = None;
    for number in panels.touching(span) {
        if is_within(panels, number, span) {
            next = sooner(panels, number, leg, last, next);
        }
    }
    next
}

// Whether the panel or wall of a number stands within a span. Of one outside, which is never met, nothing but the axis and the plane is
// looked at.
fn is_within(panels: &Panels, number: usize, span: &Cuboid) -> bool
    requires number { number < length panels.now.panels + length panels.now.walls }
    requires sound { IsSound panels.now }
    ensures { (leg : Leg) → IsLeg leg → IsSpan leg span.now → result ≡ false → IsNeverMet panels.now leg number }
{
    is_in_span(span, &panels.stands()[number])
}

// The next meeting so far, or that with the panel or wall of a number, where it comes before.
fn sooner(
    panels: &Panels,
    number: usize,
    leg: &Leg,
    last: &Moment,
    next: Option<Moment>,
) -> Option<Moment>
    requires number { number < length panels.now.panels + length panels.now.walls }
    requires leg { IsLeg leg.now }
    ensures { (bound : ℕ) (left : List ℕ)
        → IsNextBut panels.now leg.now last.now bound (number ∷ left) next → IsNextBut panels.now leg.now last.now bound left result }
{
    let sheets = panels.sheets();
    if let Some(met) = meeting(&sheets[number], leg, last) {
        Some(earlier(next, met))
    } else {
        next
    }
}

// The earlier of two moments.
fn earlier(one: Option<Moment>, other: Moment) -> Moment
    ensures { result ≡ sooner_of one other }
{
    match one {
        Some(moment) => {
            if comes_before(&other, &moment) {
                other
            } else {
                moment
            }
        }
        None => other,
    }
}

// Whether a comes before b.
fn comes_before(a: &Moment, b: &Moment) -> bool
    ensures { result ≡ is_before a.now b.now }
{
    moment_before(a, b)
}

// Whether a plane across an axis is within the span.
fn is_in_span(span: &Cuboid, stand: &Stand) -> bool
    requires { stand.now.axis < 3 }
    ensures { IsTrue result ↔ IsBetween (on_axis span.now.low stand.now.axis) (on_axis span.now.high stand.now.axis) stand.now.plane }
{
    let low = span.low[stand.axis as usize];
    let high = span.high[stand.axis as usize];
    low < stand.plane && stand.plane < high
}

// The one moment after the last one at which the panel or wall is met, as long as the fold stays.
fn meeting(sheet: &Sheet, leg: &Leg, last: &Moment) -> Option<Moment>
    requires sheet { IsSheet sheet.now }
    requires leg { IsLeg leg.now }
    ensures later { IfSome result (λ m. ComesLater leg.now last.now m) }
    ensures only { (m : Moment) → ComesLater leg.now last.now m → meets leg.now m sheet.now ≡ true → result ≡ Some m }
{
    let (axis, plane) = across(sheet);
    let moment = moment_at(axis, plane, leg)?;
    if comes_before(last, &moment) && is_within_edges(sheet, leg, &moment) {
        Some(moment)
    } else {
        None
    }
}

// The moment at which the true coordinate of an axis is an even plane, where the move has one.
fn moment_at(axis: u8, plane: i64, leg: &Leg) -> Option<Moment>
    requires axis { axis < 3 }
    requires plane { unsigned_abs plane ≤ 2 ^ 42 }
    requires even { IsEven plane }
    requires leg { IsLeg leg.now }
    ensures moment { IfSome result (λ m. IsMoment leg.now.from leg.now.by m) }
    ensures across { IfSome result (λ m. m.axis ≡ axis) }
    ensures there { IfSome result (λ m. plane_on leg.now m ≡ plane) }
    ensures only { (m : Moment) → IsMoment leg.now.from leg.now.by m → m.axis ≡ axis → plane_on leg.now m ≡ plane → result ≡ Some m }
{
    let i = axis as usize;
    let goal = unfolded(leg.fold.sign[i], leg.fold.shift[i], plane);
    let num = ticks_to(leg.from.0[i], leg.by.0[i], goal)?;
    Some(Moment {
        num,
        den: leg.by.0[i].unsigned_abs(),
        axis,
    })
}

// Whether a panel or a wall is met at a moment at which the true coordinate is this plane.
pub fn is_met(sheet: &Sheet, plane: i64, leg: &Leg, moment: &Moment) -> bool
    requires sheet { IsSheet sheet.now }
    requires plane { plane ≡ plane_on leg.now moment.now }
    requires leg { IsLeg leg.now }
    requires moment { IsMoment leg.now.from leg.now.by moment.now }
    ensures { result ≡ meets leg.now moment.now sheet.now }
{
    if is_at(sheet, moment.axis, plane) {
        is_within_edges(sheet, leg, moment)
    } else {
        false
    }
}

// Whether a panel or a wall lies across this axis at this plane.
fn is_at(sheet: &Sheet, axis: u8, plane: i64) -> bool
    requires { IsSheet sheet.now }
    ensures { IsTrue result ↔ ((axis ≡ sheet_axis sheet.now) × (plane ≡ sheet_plane sheet.now)) }
{
    let own = across(sheet);
    own.0 == axis && own.1 == plane
}

// Whether the edges of a panel hold the true point of a moment at which it is on the panel's plane. A wall has no edges.
fn is_within_edges(sheet: &Sheet, leg: &Leg, moment: &Moment) -> bool
    requires sheet { IsSheet sheet.now }
    requires leg { IsLeg leg.now }
    requires moment { IsMoment leg.now.from leg.now.by moment.now }
    requires across { moment.now.axis ≡ sheet_axis sheet.now }
    requires there { plane_on leg.now moment.now ≡ sheet_plane sheet.now }
    ensures { result ≡ meets leg.now moment.now sheet.now }
{
    match sheet {
        Sheet::Rectangle { rect } => holds_at(rect, &leg.from, &leg.by, moment, &leg.fold),
        Sheet::Plane { .. } => true,
    }
}

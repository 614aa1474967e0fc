//! Where a panel or a wall stands.
ghost use Rattle.std.specs.Prelude.{◌≡◌, ◌<◌, ◌≤◌, ◌^◌, unsigned_abs};
ghost use Rattle.smol_geom.specs.Axes.{IsEven};
ghost use Rattle.smol_types.specs.Limits.{farthest};
ghost use Rattle.smol_meaning.specs.Folds.{IsSheet};
ghost use Rattle.smol_meaning.specs.Plates.{sheet_axis, sheet_plane};
ghost use Rattle.smol_meaning.specs.Sight.{line_meets};
ghost use Rattle.smol_meaning.specs.Sighted.{IsPlaceWithin};
ghost use Rattle.smol_sheets.specs.Sheets.{stand_of};

use smol_geom::Place;
use smol_meaning::{Sheet, meets_panel, meets_wall};

/// The axis that a panel or a wall lies across, and its one coordinate there, in ticks. Of most panels and walls a molecule that
/// moves looks at no more.
#[derive(Clone, Copy)]
pub struct Stand {
    pub axis: u8,
    pub plane: i64,
}

/// The axis that a panel or a wall lies across, and its one coordinate there, in ticks.
pub fn across(sheet: &Sheet) -> (u8, i64)
    requires { IsSheet sheet.now }
    ensures axis { result.0 ≡ sheet_axis sheet.now }
    ensures axis_below { result.0 < 3 }
    ensures plane { result.1 ≡ sheet_plane sheet.now }
    ensures size { unsigned_abs result.1 ≤ farthest }
    ensures even { IsEven result.1 }
{
    match sheet {
        Sheet::Rectangle { rect } => (rect.axis, rect.low[rect.axis as usize]),
        Sheet::Plane { axis, plane } => (*axis, *plane),
    }
}

// Across which axis a panel or a wall stands, and where.
pub(crate) fn stand_of(sheet: &Sheet) -> Stand
    requires { IsSheet sheet.now }
    ensures { result ≡ stand_of sheet.now }
{
    let (axis, plane) = across(sheet);
    Stand { axis, plane }
}

/// Whether the straight line between two places meets a panel or a wall.
pub fn line_meets(sheet: &Sheet, a: &Place, b: &Place) -> bool
    requires sheet { IsSheet sheet.now }
    requires a { IsPlaceWithin (2 ^ 58) a.now }
    requires b { IsPlaceWithin (2 ^ 58) b.now }
    ensures { result ≡ line_meets sheet.now a.now b.now }
{
    match sheet {
        Sheet::Rectangle { rect } => meets_panel(rect, a, b),
        Sheet::Plane { axis, plane } => meets_wall(*axis, *plane, a, b),
    }
}

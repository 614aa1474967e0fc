//! Words that are coordinates of molecules.
ghost use Rattle.std.specs.Prelude.{◌≡◌, ◌≤◌, ◌+◌, unsigned_abs};
ghost use Rattle.smol_line.specs.Length.{most_micros};
ghost use Rattle.smol_line.specs.Coordinate.{coordinate_in, inside, ticks_within};

use crate::axes::Bounds;
use crate::length::micros_in;
use smol_types::Kind;

/// Where a molecule stands whose coordinate is x micros, in ticks: half a micro above, and on the high wall half a micro below.
pub fn ticks_within(bounds: &Bounds, x: i64) -> i64
    requires { unsigned_abs x ≤ most_micros }
    ensures { result ≡ ticks_within bounds.now x }
{
    if x == bounds.high.0 {
        2 * x - 1
    } else {
        2 * x + 1
    }
}

// The coordinate of a molecule that is x micros from 0, where that lies between two walls.
fn inside(bounds: &Bounds, x: i64) -> Result<i64, Kind>
    requires { unsigned_abs x ≤ most_micros }
    ensures { result ≡ inside bounds.now x }
{
    if bounds.low.0 <= x && x <= bounds.high.0 {
        Ok(ticks_within(bounds, x))
    } else {
        Err(Kind::OutsideWalls)
    }
}

/// The coordinate of a molecule between two walls, in ticks.
pub fn coordinate_in(bounds: &Bounds, word: &[u8]) -> Result<i64, Kind>
    ensures { result ≡ coordinate_in bounds.now word.now }
{
    let x = micros_in(word)?;
    inside(bounds, x)
}

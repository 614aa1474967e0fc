//! What the lines before a line give of the axes.
ghost use Rattle.std.specs.Prelude.{◌≡◌};
ghost use Rattle.smol_line.specs.Axes.{are_walled, is_walled, needs_dim, needs_walls};

use smol_num::Micro;
use smol_types::{Kind, Letter};

/// The two walls of an axis, and what they do.
#[derive(Clone, Copy, Debug, PartialEq, Eq)]
pub struct Bounds {
    pub low: Micro,
    pub high: Micro,
    pub letter: Letter,
}

/// How many axes are in use, and the walls of each, as far as they are given.
#[derive(Clone, Copy, Debug, PartialEq, Eq)]
pub struct Axes {
    pub dims: Option<u8>,
    pub x: Option<Bounds>,
    pub y: Option<Bounds>,
    pub z: Option<Bounds>,
}

/// Whether an axis has walls, where it is one of this many in use.
pub fn is_walled(dims: u8, axis: u8, bounds: &Option<Bounds>) -> bool
    ensures { result ≡ is_walled dims axis bounds.now }
{
    dims <= axis || bounds.is_some()
}

// Whether each of this many axes in use has its walls.
fn are_walled(dims: u8, axes: &Axes) -> bool
    ensures { result ≡ are_walled dims axes.now }
{
    is_walled(dims, 0, &axes.x) && is_walled(dims, 1, &axes.y) && is_walled(dims, 2, &axes.z)
}

/// A statement that needs the number of axes before it.
pub fn needs_dim(axes: &Axes) -> Result<u8, Kind>
    ensures { result ≡ needs_dim axes.now }
{
    axes.dims.ok_or(Kind::BadOrder)
}

/// A statement that needs the number of axes and the walls of each before it.
pub fn needs_walls(axes: &Axes) -> Result<u8, Kind>
    ensures { result ≡ needs_walls axes.now }
{
    let dims = needs_dim(axes)?;
    if are_walled(dims, axes) {
        Ok(dims)
    } else {
        Err(Kind::BadOrder)
    }
}

//! What the lines before a block give, as a caller of this crate hands it over.
ghost use Rattle.std.specs.Prelude.{◌≡◌};
ghost use Rattle.std.specs.List.{find};
ghost use Rattle.smol_blocks.specs.Names.{axes_of, bounds_among, is_wall_of};

use smol_line::{Axes, Bounds, NameSet};
use smol_num::Micro;
use smol_types::{Items, Wall};

/// What the lines before a block give.
#[derive(Drop)]
pub struct Names {
    /// How many axes are in use.
    pub dims: u8,
    /// The walls given so far, a low and a high one for each axis that has some.
    pub walls: Items<Wall>,
    pub species: NameSet,
    pub surfaces: NameSet,
    pub compartments: NameSet,
    /// How many panels there are.
    pub panels: u32,
}

// Whether a wall stands on this side of this axis.
fn is_wall_of(wall: &Wall, axis: u8, upper: bool) -> bool
    ensures { result ≡ is_wall_of axis upper wall.now }
{
    wall.axis == axis && wall.upper == upper
}

// The first wall on this side of this axis.
fn wall_of(walls: &[Wall], axis: u8, upper: bool) -> Option<Wall>
    ensures { result ≡ find (is_wall_of axis upper) walls.now }
{
    walls
        .iter()
        .copied()
        .find(|wall| is_wall_of(wall, axis, upper))
}

// The bounds of an axis.
fn bounds_among(walls: &[Wall], axis: u8) -> Option<Bounds>
    ensures { result ≡ bounds_among walls.now axis }
{
    let low = wall_of(walls, axis, false)?;
    let high = wall_of(walls, axis, true)?;
    Some(Bounds {
        low: Micro(low.plane / 2),
        high: Micro(high.plane / 2),
        letter: low.letter,
    })
}

impl Names {
    /// The axes with their walls.
    pub fn axes(&self) -> Axes
        ensures { result ≡ axes_of self.now }
    {
        let walls = self.walls.as_slice();
        Axes {
            dims: Some(self.dims),
            x: bounds_among(walls, 0),
            y: bounds_among(walls, 1),
            z: bounds_among(walls, 2),
        }
    }
}

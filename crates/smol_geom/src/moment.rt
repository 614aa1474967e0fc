ghost use Rattle.std.specs.Prelude.{◌↔◌, IsTrue};
ghost use Rattle.smol_geom.specs.Moment.{IsBefore};

/// A moment of a move: the part `num / den` of it is made, and the coordinate on `axis` is an even number
/// of ticks.
#[derive(Clone, Copy, Debug, PartialEq, Eq)]
pub struct Moment {
    pub num: u64,
    pub den: u64,
    pub axis: u8,
}

/// Whether a comes before b: by the part of the move, and at one part by the axis.
pub fn moment_before(a: &Moment, b: &Moment) -> bool
    ensures { IsTrue result ↔ IsBefore a.now b.now }
{
    let a_part = u128::from(a.num) * u128::from(b.den);
    let b_part = u128::from(b.num) * u128::from(a.den);
    a_part < b_part || (a_part == b_part && a.axis < b.axis)
}

/// What a wall does to a molecule that comes from within.
#[derive(Clone, Copy, Debug, PartialEq, Eq)]
pub enum Letter {
    /// It reflects.
    R,
    /// It lets molecules through to the opposite wall (periodic).
    P,
    /// It absorbs.
    A,
    /// It lets molecules through (transparent).
    T,
}

/// One of the two walls of an axis: a plane without edges.
#[derive(Clone, Copy, Debug, PartialEq, Eq)]
pub struct Wall {
    /// 0 is x, 1 is y, 2 is z.
    pub axis: u8,
    /// Where it stands on its axis, in ticks. It is even.
    pub plane: i64,
    /// Whether it is the wall of the greater coordinate.
    pub upper: bool,
    pub letter: Letter,
}

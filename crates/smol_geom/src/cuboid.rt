/// A closed cuboid along the axes, in ticks.
#[derive(Clone, Copy, Debug, PartialEq, Eq)]
pub struct Cuboid {
    pub low: [i64; 3],
    pub high: [i64; 3],
}

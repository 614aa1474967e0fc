/// A closed rectangle that lies across one axis, in ticks: its low and its high end on each axis.
/// Both ends are one on `axis`, where they are the rectangle's plane.
#[derive(Clone, Copy, Debug, PartialEq, Eq)]
pub struct Rect {
    pub axis: u8,
    pub low: [i64; 3],
    pub high: [i64; 3],
}

/// Boxes side by side: on each axis those from the first number to the last one.
#[derive(Clone, Copy, Debug, PartialEq, Eq)]
pub struct Boxes {
    pub first: [usize; 3],
    pub last: [usize; 3],
}

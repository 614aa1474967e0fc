/// An opening, a read or a write failed. The count of faults of the source or the outlets rose.
#[derive(Clone, Copy, Debug, PartialEq, Eq)]
pub struct Failed;

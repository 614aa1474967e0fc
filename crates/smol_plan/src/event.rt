//! What a worker does to the plan, one step at a time.
use crate::pair::Side;

/// One step of one worker. Workers, slices and pairs are numbered from 0.
#[derive(Clone, Copy, Debug, PartialEq, Eq)]
pub enum Event {
    /// The worker takes a slice, and holds those of its pairs that wait for no other.
    Take {
        worker: u32,
        slice: usize,
    },
    /// The worker decides a pair that it holds, and owes the links that come from it.
    Decide {
        worker: u32,
        pair: usize,
    },
    /// The worker tells a link that it owes: that of the pair that waits, on the side on which the earlier pair has
    /// its molecule. It holds the pair where this was its last link.
    Tell {
        worker: u32,
        pair: usize,
        side: Side,
    },
}

//! What the seat of a worker knows. No value of these types is made: they stand in proofs alone.
use smol_plan::{Pair, Side};
use std::collections::LinkedList;

/// A link: the pair that waits, and the side on which an earlier pair has its molecule.
#[derive(Clone, Copy)]
pub struct Link {
    pub pair: u64,
    pub side: Side,
}

/// A look at a pair, and the word that it found.
#[derive(Clone, Copy)]
pub struct Look {
    pub pair: u64,
    pub word: u64,
}

/// What a seat knows. A seat with share 0 is spent: another one has taken over what it knew.
pub struct View {
    /// The pairs of the plan.
    pub pairs: LinkedList<Pair>,
    /// The number of workers.
    pub workers: u64,
    /// The pairs that it holds.
    pub held: LinkedList<u64>,
    /// The links that it owes.
    pub owed: LinkedList<Link>,
    /// The pairs that it has decided, or a seat that was joined into it.
    pub mine: LinkedList<u64>,
    /// The number of slices, from 0 on, that it has seen taken.
    pub seen: u64,
    /// Its share of the number of workers.
    pub share: u64,
    /// Its last look.
    pub last: Option<Look>,
    /// The number of its looks.
    pub looks: u64,
}

/// A coordinate of a molecule that is placed.
#[derive(Clone, Copy, Debug, PartialEq, Eq)]
pub enum Given {
    /// Drawn between the walls.
    Any,
    /// This coordinate, in ticks. It is odd.
    At(i64),
}

/// Molecules that are placed before the run begins.
#[derive(Clone, Copy, Debug, PartialEq, Eq)]
pub enum Placing {
    /// `n` molecules of a species, each at these coordinates.
    Mol {
        n: u32,
        species: u16,
        at: [Given; 3],
    },
    /// `n` molecules of a species inside a compartment, by the statement in this line.
    InCompartment {
        line: u32,
        n: u32,
        species: u16,
        compartment: u16,
    },
}

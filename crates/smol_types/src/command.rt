use crate::Items;
use smol_geom::Place;
use smol_num::Threshold;

/// A moment of a run at which commands may be due.
#[derive(Clone, Copy, Debug, PartialEq, Eq)]
pub enum Phase {
    /// Before the first step.
    Before,
    /// At the state after this step, counted from 0.
    At(u32),
    /// After the last step.
    After,
}

/// When a command is due.
#[derive(Clone, Copy, Debug, PartialEq, Eq)]
pub enum When {
    /// Before the first step.
    Before,
    /// After the last step.
    After,
    /// At every step.
    Every,
    /// At every step that `m` divides.
    Each { m: u32 },
    /// At the first step whose time is at least this one, in nanos.
    AtTime { t: i64 },
    /// At the first step whose time is at least each of the times from `on` to `off` that are `dt` apart, in nanos.
    Times { on: i64, off: i64, dt: i64 },
    /// At each step from `on` to `off` that is a multiple of `m` away from `on`.
    Steps { on: u32, off: u32, m: u32 },
}

/// A condition under which a command is performed. `who` has the numbers of the species meant, ascending.
#[derive(Debug, Drop)]
pub enum Test {
    /// There is no such molecule.
    IfNo { who: Items<u16> },
    /// There are fewer than `n`.
    IfLess { who: Items<u16>, n: u32 },
    /// There are more than `n`.
    IfMore { who: Items<u16>, n: u32 },
}

/// What a command does. `out` is the outlet that it prints to, and `who` has the numbers of the species meant, ascending.
#[derive(Debug, Drop)]
pub enum Act {
    /// Prints a header for the lines of counts.
    CountHeader {
        out: u32,
    },
    /// Prints the time and the count of each species.
    Count {
        out: u32,
    },
    /// Prints the time and the count of each species inside a compartment.
    CountIn {
        compartment: u16,
        out: u32,
    },
    /// Prints the species, the place and the serial of each molecule.
    List {
        out: u32,
    },
    /// Prints the time and the coordinates of the molecules meant.
    Positions {
        who: Items<u16>,
        out: u32,
    },
    /// Prints the time and how many of the molecules meant are in each of the `bins` equal parts of a range of an axis, from `low` to
    /// `high` in ticks.
    CountSpace {
        who: Items<u16>,
        axis: u8,
        low: i64,
        high: i64,
        bins: u32,
        out: u32,
    },
    /// Prints the time, the number of the molecules meant, and the sums of their coordinates and of the squares of these.
    Moments {
        who: Items<u16>,
        out: u32,
    },
    /// Prints the time, the number of the molecules meant, and the mean square of how far they are from a place in micros.
    MeanSquare {
        who: Items<u16>,
        at: [i64; 3],
        out: u32,
    },
    /// Prints the time and how many pairs of two species are in each of the `bins` shells of one thickness within a radius in micros.
    Radial {
        first: u16,
        second: u16,
        radius: u64,
        bins: u32,
        out: u32,
    },
    /// Prints a text.
    Echo {
        out: u32,
        text: Items<u8>,
    },
    /// Removes the molecules meant.
    Kill {
        who: Items<u16>,
    },
    /// Removes each of the molecules meant whose random word is below the threshold.
    KillProb {
        who: Items<u16>,
        p: Threshold,
    },
    /// Turns each of the molecules meant whose random word is below the threshold into the species `to`.
    Replace {
        who: Items<u16>,
        to: u16,
        p: Threshold,
    },
    /// Adds `n` molecules of a species at a place.
    PointSource {
        species: u16,
        n: u32,
        place: Place,
    },
    /// Ends the phase of the run.
    Stop,
}

/// A command, the tests before it, and when it is due.
#[derive(Debug, Drop)]
pub struct Command {
    pub when: When,
    /// The conditions under which it is performed, in the order in which they are tested.
    pub tests: Items<Test>,
    pub act: Act,
}

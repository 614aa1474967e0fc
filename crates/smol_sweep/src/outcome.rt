ghost use Rattle.std.specs.Prelude.{◌≡◌};

use std::marker::Model;

/// How many molecules there are of each species, in order. Contracts see it as the list of these numbers.
#[derive(Debug, Drop)]
pub struct Counts {
    values: Vec<u64>,
}

impl Model for Counts {
    ghost use Rattle.std.specs.Prelude.{List, ℕ};

    ghost Value = { List ℕ };

    ghost view = { λ counts. counts.values.items };
}

impl Counts {
    /// These numbers. Takes no memory.
    pub fn of(values: Vec<u64>) -> Counts
        ensures { result ≡ values.items }
    {
        Counts { values }
    }

    /// The numbers in order.
    pub fn as_slice(&self) -> &[u64]
        ensures { result.now ≡ self.now }
    {
        self.values.as_slice()
    }
}

/// What becomes of the run of a seed.
#[derive(Debug, Drop)]
pub enum Outcome {
    /// It came to its end, where there were so many molecules of each species.
    Ended(Counts),
    /// A molecule found no place before the first step.
    NoPlace,
    /// There were more molecules than there may be.
    Over,
}

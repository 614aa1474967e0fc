//! Two molecules that may react, and the two places that they have in a pair.
ghost use Rattle.std.specs.Prelude.{◌≡◌};

/// Two molecules, by their numbers, and the reaction that they may take part in. In a plan `a` is below `b`.
#[derive(Clone, Copy, Debug, PartialEq, Eq)]
pub struct Pair {
    pub a: u64,
    pub b: u64,
    pub reaction: u16,
}

/// Which of the two molecules of a pair: `Low` is `a` and `High` is `b`.
#[derive(Clone, Copy, Debug, PartialEq, Eq, PartialOrd, Ord)]
pub enum Side {
    Low,
    High,
}

impl Pair {
    ghost use Rattle.smol_plan.specs.Pair.{molecule_of};

    /// The molecule on a side.
    pub fn molecule(&self, side: Side) -> u64
        ensures { result ≡ molecule_of self.now side }
    {
        match side {
            Side::Low => self.a,
            Side::High => self.b,
        }
    }
}

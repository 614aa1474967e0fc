//! What is decided of a pair.
ghost use Rattle.std.specs.Prelude.{◌≡◌};

use crate::pair::Side;

/// Whether a pair fired, and whether each of its molecules is taken by it or by a pair before it.
#[derive(Clone, Copy, Debug)]
pub struct Decision {
    pub fired: bool,
    pub low_taken: bool,
    pub high_taken: bool,
}

impl Decision {
    ghost use Rattle.smol_plan.specs.Decision.{decision_after, is_taken_on};

    /// Of a pair of whose molecules these are taken before it.
    pub fn after(low: bool, high: bool) -> Self
        ensures { result ≡ decision_after low high }
    {
        let fired = !(low || high);
        Decision {
            fired,
            low_taken: low || fired,
            high_taken: high || fired,
        }
    }

    /// Whether the molecule on a side is taken after the pair.
    pub fn is_taken(&self, side: Side) -> bool
        ensures { result ≡ is_taken_on self.now side }
    {
        match side {
            Side::Low => self.low_taken,
            Side::High => self.high_taken,
        }
    }
}

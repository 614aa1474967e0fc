//! How it stands with one pair of the machine.
ghost use Rattle.std.specs.Prelude.{◌≡◌};

use crate::decision::Decision;
use crate::pair::Side;

/// How it stands with a pair: what is decided, which of its links are told, and who holds it and owes its links.
#[derive(Clone, Copy, Debug)]
pub(crate) struct PairState {
    pub(crate) decision: Option<Decision>,
    pub(crate) holder: Option<u32>,
    told_low: bool,
    told_high: bool,
    ower_low: Option<u32>,
    ower_high: Option<u32>,
}

impl PairState {
    ghost use Rattle.smol_plan.specs.PairState.{fresh, fired_of, told_of, ower_of, set_told, set_ower};

    /// Of a pair of which nothing has happened.
    pub(crate) fn fresh() -> Self
        ensures { result ≡ fresh }
    {
        PairState {
            decision: None,
            holder: None,
            told_low: false,
            told_high: false,
            ower_low: None,
            ower_high: None,
        }
    }

    /// Whether the pair fired, where it is decided.
    pub(crate) fn fired(&self) -> Option<bool>
        ensures { result ≡ fired_of self.now.decision }
    {
        match self.decision {
            Some(decision) => Some(decision.fired),
            None => None,
        }
    }

    pub(crate) fn told(&self, side: Side) -> bool
        ensures { result ≡ told_of self.now side }
    {
        match side {
            Side::Low => self.told_low,
            Side::High => self.told_high,
        }
    }

    pub(crate) fn ower(&self, side: Side) -> Option<u32>
        ensures { result ≡ ower_of self.now side }
    {
        match side {
            Side::Low => self.ower_low,
            Side::High => self.ower_high,
        }
    }

    pub(crate) fn tell(&mut self, side: Side)
        ensures { self.new ≡ set_told self.old side }
    {
        match side {
            Side::Low => self.told_low = true,
            Side::High => self.told_high = true,
        }
    }

    pub(crate) fn set_ower(&mut self, side: Side, ower: Option<u32>)
        ensures { self.new ≡ set_ower self.old side ower }
    {
        match side {
            Side::Low => self.ower_low = ower,
            Side::High => self.ower_high = ower,
        }
    }
}

//! The share of the random words that a rate is in a step.
ghost use Rattle.std.specs.Prelude.{◌≡◌, ℕ, ◌≤◌, ◌^◌, ◌<ℤ◌, pos, unsigned_abs};
ghost use Rattle.smol_rates.specs.Series.{unit};
ghost use Rattle.smol_rates.specs.Rates.{all_words, longest_step, most_rate, no_words, threshold_of};

use crate::series::{ONE, exponential};
use smol_num::Threshold;

/// How many random words there are.
const WORDS: u128 = 4_294_967_296;

/// 32, as a rate in billionths times a time in nanos.
const CERTAIN_FROM: u128 = 32_000_000_000_000_000_000;

// Of all words, those that are a no where e has this power.
#[tactic(auto, using(crate::proofs::RatesLemmas::few_no_words))]
fn no_words(power: u128) -> u128
    requires some { unit ≤ power }
    requires fits { power ≤ 2 ^ 96 }
    ensures value { result ≡ no_words power }
    ensures few { result ≤ all_words }
{
    (WORDS * ONE + (power - 1)) / power
}

/// The share of the random words that a rate in billionths per unit of time is in a step of so many nanos: as near to
/// `1 - exp(-rate * step)` as a series in whole numbers comes. It is 0 at rate 0, and a greater rate has no smaller share.
/// Takes no memory.
pub fn threshold_of(rate: u64, step: i64) -> Threshold
    requires rate { rate ≤ most_rate }
    requires step { unsigned_abs step ≤ longest_step }
    requires step_above { pos 0 <ℤ step }
    ensures value { result ≡ threshold_of rate (unsigned_abs step) }
    ensures most { result.0 ≤ all_words }
    ensures never { rate ≡ 0 → result.0 ≡ 0 }
    ensures grows { (less more time : ℕ) → less ≤ more → (threshold_of less time).0 ≤ (threshold_of more time).0 }
{
    let product = u128::from(rate) * u128::from(step.unsigned_abs());
    if product >= CERTAIN_FROM {
        return Threshold(WORDS as u64);
    }
    let power = exponential(product * ONE / CERTAIN_FROM);
    Threshold((WORDS - no_words(power)) as u64)
}

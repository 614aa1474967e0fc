//! The shares of several reactions in the words of their species.
ghost use Rattle.std.specs.Prelude.{◌≡◌, ◌≤◌};
ghost use Rattle.smol_rates.specs.Rates.{all_words, most_rate, share};

use smol_num::Threshold;

/// The share of a reaction in the words of its species, where the rates of the species' reactions add up to `all`, those before
/// this reaction to `before`, and with it to `upto`. So the shares of all of them add up to `total`. It is 0 where `all` is 0.
/// Takes no memory.
#[tactic(auto, unfolding(crate::specs::Rates::share))]
pub fn share(total: Threshold, before: u64, upto: u64, all: u64) -> Threshold
    requires total { total.0 ≤ all_words }
    requires before { before ≤ upto }
    requires upto { upto ≤ all }
    requires all { all ≤ most_rate }
    ensures value { result ≡ share total before upto all }
    ensures most { result.0 ≤ total.0 }
{
    if all == 0 {
        return Threshold(0);
    }
    let words = u128::from(total.0);
    let with = words * u128::from(upto) / u128::from(all);
    let without = words * u128::from(before) / u128::from(all);
    Threshold((with - without) as u64)
}

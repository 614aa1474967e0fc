//! A law of shares. The function does nothing: the law is its contract.
ghost use Rattle.std.specs.Prelude.{◌≡◌, ◌≤◌, ◌<◌, ◌+◌, ℕ};
ghost use Rattle.smol_num.specs.declared.quantities.Threshold.{Threshold};
ghost use Rattle.smol_rates.specs.Rates.{share};

/// Shares that follow each other add up to the share of both, and the share of all rates is the whole total. So the shares of the
/// reactions of a species add up to the threshold of its rates together, however each of them is rounded.
pub fn shares_add_up()
    ensures joined { (total : Threshold) (first middle last all : ℕ) → first ≤ middle → middle ≤ last
        → (share total first middle all).0 + (share total middle last all).0 ≡ (share total first last all).0 }
    ensures whole { (total : Threshold) (all : ℕ) → 0 < all → (share total 0 all all).0 ≡ total.0 }
{}

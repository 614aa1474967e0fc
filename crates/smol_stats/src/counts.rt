//! Counts that are raised by one.
ghost use Rattle.std.specs.Prelude.{◌≡◌, ◌<◌, All, IfSome, length};
ghost use Rattle.smol_stats.specs.Tally.{raised};

// Raises the count at a position by one, where there is such a position.
pub(crate) fn raise(counts: &mut [u64], at: Option<usize>)
    requires inside { IfSome at (λ k. k < length counts.old) }
    requires small { All (λ count. count < u64.MAX) counts.old }
    ensures { counts.new ≡ raised counts.old at }
{
    if let Some(k) = at {
        counts[k] += 1;
    }
}

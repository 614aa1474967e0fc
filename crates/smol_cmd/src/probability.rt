//! A word that is a probability, as the share of the random words that are a yes.
ghost use Rattle.std.specs.Prelude.{◌≡◌};
ghost use Rattle.smol_cmd.specs.Probability.{probability_in};

use smol_line::{chance_in, threshold_of};
use smol_num::Threshold;
use smol_types::Kind;

/// The threshold of a probability from 0 to 1, rounded down.
pub fn probability_in(word: &[u8]) -> Result<Threshold, Kind>
    ensures { result ≡ probability_in word.now }
{
    Ok(threshold_of(chance_in(word)?))
}

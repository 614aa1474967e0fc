//! Words that are probabilities, and the shares of the random words that these are.
ghost use Rattle.std.specs.Prelude.{◌≡◌};
ghost use Rattle.smol_line.specs.Probability.{chance_in, threshold_of};

use crate::numbers::unsigned_in;
use smol_num::Threshold;
use smol_types::Kind;

// One whole, in billionths.
const WHOLE: u32 = 1_000_000_000;

// How many random words there are.
const WORDS: u64 = 4_294_967_296;

/// A probability from 0 to 1, in billionths.
pub fn chance_in(word: &[u8]) -> Result<u32, Kind>
    ensures { result ≡ chance_in word.now }
{
    let chance = unsigned_in(9, i64::from(WHOLE), word)?;
    Ok(chance as u32)
}

/// The share of the random words that a probability in billionths is, rounded down.
pub fn threshold_of(chance: u32) -> Threshold
    ensures { result ≡ threshold_of chance }
{
    Threshold(u64::from(chance) * WORDS / u64::from(WHOLE))
}

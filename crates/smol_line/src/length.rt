//! Words that are lengths.
ghost use Rattle.std.specs.Prelude.{◌≡◌, ◌≤◌, IfOk, unsigned_abs};
ghost use Rattle.smol_line.specs.Length.{micros_in, most_micros};

use crate::numbers::decimal_in;
use smol_types::Kind;

/// How far a coordinate may be from 0, in micros.
const MOST_MICROS: i64 = 1_000_000_000_000;

/// A length in micros.
pub fn micros_in(word: &[u8]) -> Result<i64, Kind>
    ensures value { result ≡ micros_in word.now }
    ensures size { IfOk result (λ length. unsigned_abs length ≤ most_micros) }
{
    decimal_in(6, -MOST_MICROS, MOST_MICROS, word)
}

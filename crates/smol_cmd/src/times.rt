//! Words that are times, or the time from one moment to the next.
ghost use Rattle.std.specs.Prelude.{◌≡◌};
ghost use Rattle.smol_cmd.specs.Times.{interval_in, time_in};

use smol_line::{decimal_in, unless};
use smol_types::Kind;

/// How far a time may be from 0, in nanos.
const MOST_NANOS: i64 = 1_000_000_000_000_000_000;

/// A time in nanos.
pub fn time_in(word: &[u8]) -> Result<i64, Kind>
    ensures { result ≡ time_in word.now }
{
    decimal_in(9, -MOST_NANOS, MOST_NANOS, word)
}

/// The time from one moment to the next, in nanos.
pub fn interval_in(word: &[u8]) -> Result<i64, Kind>
    ensures { result ≡ interval_in word.now }
{
    let time = time_in(word)?;
    unless(time > 0, Kind::BadTiming)?;
    Ok(time)
}

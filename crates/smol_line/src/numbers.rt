//! Words that are numbers.
ghost use Rattle.std.specs.Prelude.{◌≡◌, ◌≤◌, ◌≤ℤ◌, pos, IfOk, unsigned_abs};
ghost use Rattle.smol_line.specs.Numbers.{count_in, decimal_in, kind_of, unsigned_in};

use smol_num::{NumFault, read_decimal, read_digits};
use smol_types::Kind;

// A number that is too large is out of range.
fn kind_of(fault: NumFault) -> Kind
    ensures { result ≡ kind_of fault }
{
    match fault {
        NumFault::NotNumber => Kind::NotNumber,
        NumFault::TooFine => Kind::TooFine,
        NumFault::TooLarge => Kind::OutOfRange,
    }
}

/// A count from the least to the most.
pub fn count_in(least: u64, most: u64, word: &[u8]) -> Result<u64, Kind>
    ensures value { result ≡ count_in least most word.now }
    ensures least { IfOk result (λ n. least ≤ n) }
    ensures most { IfOk result (λ n. n ≤ most) }
{
    match read_digits(word, most) {
        Ok(n) if n >= least => Ok(n),
        Ok(_) => Err(Kind::OutOfRange),
        Err(fault) => Err(kind_of(fault)),
    }
}

/// A decimal in units of 10^-places, from the least to the most.
pub fn decimal_in(places: u8, least: i64, most: i64, word: &[u8]) -> Result<i64, Kind>
    requires { places ≤ 9 }
    ensures value { result ≡ decimal_in places least most word.now }
    ensures least { IfOk result (λ x. least ≤ℤ x) }
    ensures most { IfOk result (λ x. x ≤ℤ most) }
{
    match read_decimal(word, places) {
        Ok(x) if least <= x && x <= most => Ok(x),
        Ok(_) => Err(Kind::OutOfRange),
        Err(fault) => Err(kind_of(fault)),
    }
}

/// A decimal in units of 10^-places, from 0 to the most.
pub fn unsigned_in(places: u8, most: i64, word: &[u8]) -> Result<u64, Kind>
    requires places { places ≤ 9 }
    requires most { pos 0 ≤ℤ most }
    ensures value { result ≡ unsigned_in places (unsigned_abs most) word.now }
    ensures most { IfOk result (λ n. n ≤ unsigned_abs most) }
{
    Ok(decimal_in(places, 0, most, word)?.unsigned_abs())
}

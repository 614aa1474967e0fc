//! Numbers that are written with digits alone.
ghost use Rattle.std.specs.Prelude.{◌≡◌, ◌≤◌, length, if◌then◌else◌};
ghost use Rattle.std.specs.List.{list_all};
ghost use Rattle.smol_num.specs.Digits.{is_digit, digits_value, count_of};

use crate::NumFault;

/// The most digits that a count may have.
const MOST_DIGITS: usize = 20;

/// The number that 1 to 20 decimal digits spell, leading zeros or not. `NotNumber` for any other bytes,
/// `TooLarge` where the number is more than `max`.
pub fn read_digits(bytes: &[u8], max: u64) -> Result<u64, NumFault>
    ensures { result ≡ count_of bytes.now max }
{
    if bytes.is_empty() || bytes.len() > MOST_DIGITS {
        return Err(NumFault::NotNumber);
    }
    let Some(value) = value_of(bytes) else {
        return Err(NumFault::NotNumber);
    };
    if value > u128::from(max) {
        return Err(NumFault::TooLarge);
    }
    Ok(value as u64)
}

/// The number that the digits spell, or nothing where a byte is no digit.
pub(crate) fn value_of(digits: &[u8]) -> Option<u128>
    requires { length digits.now ≤ 38 }
    ensures { result ≡ (if list_all is_digit digits.now then Some (digits_value digits.now) else None) }
{
    let mut value = 0u128;
    for digit in digits {
        if !digit.is_ascii_digit() {
            return None;
        }
        value = value * 10 + u128::from(*digit - b'0');
    }
    Some(value)
}

#[cfg(test)]
mod tests {
    use super::*;

    #[test]
    fn reads_counts(rt: HostRuntime) {
        assert_eq!(rt; read_digits(b"00007", 7), Ok(7));
        assert_eq!(rt;
            read_digits(b"18446744073709551615", u64::MAX),
            Ok(u64::MAX)
        );
        assert_eq!(rt;
            read_digits(b"18446744073709551616", u64::MAX),
            Err(NumFault::TooLarge)
        );
        assert_eq!(rt; read_digits(b"8", 7), Err(NumFault::TooLarge));
        assert_eq!(rt;
            read_digits(b"000000000000000000007", 7),
            Err(NumFault::NotNumber)
        );
        assert_eq!(rt; read_digits(b"+7", 7), Err(NumFault::NotNumber));
        assert_eq!(rt; read_digits(b"", 7), Err(NumFault::NotNumber));
    }
}

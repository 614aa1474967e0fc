//! Numbers that are written as decimals.
ghost use Rattle.std.specs.Prelude.{◌≡◌, ◌≤◌};
ghost use Rattle.smol_num.specs.Decimal.{signed, decimal_of};

use crate::NumFault;
use crate::parts::parts_of;
use crate::scale::{LARGEST, scaled};

/// The number that a decimal spells, counted in units of 10^-places, so that `1.5` is 1500000 at 6 places.
/// It is exact, however many digits there are. `NotNumber` for a word that is no decimal, then `TooFine`
/// for one that is no whole number of units, then `TooLarge` for one of more than 10^18 units.
pub fn read_decimal(bytes: &[u8], places: u8) -> Result<i64, NumFault>
    requires { places ≤ 9 }
    ensures { result ≡ decimal_of bytes.now places }
{
    let Some(decimal) = parts_of(bytes) else {
        return Err(NumFault::NotNumber);
    };
    let raised = usize::from(places) + decimal.exponent.raised;
    let lowered = decimal.fraction.len() + decimal.exponent.lowered;
    match scaled(decimal.whole, decimal.fraction, raised, lowered) {
        Ok(size) => Ok(with_sign(decimal.negative, size)),
        Err(fault) => Err(fault),
    }
}

fn with_sign(negative: bool, size: u64) -> i64
    requires { size ≤ LARGEST }
    ensures { result ≡ signed negative size }
{
    if negative {
        -(size as i64)
    } else {
        size as i64
    }
}

#[cfg(test)]
mod tests {
    use super::*;

    #[test]
    fn reads_exactly(rt: HostRuntime) {
        assert_eq!(rt; read_decimal(b"+5", 6), Ok(5_000_000));
        assert_eq!(rt; read_decimal(b"-.5", 6), Ok(-500_000));
        assert_eq!(rt; read_decimal(b"5.", 6), Ok(5_000_000));
        assert_eq!(rt; read_decimal(b"-0", 6), Ok(0));
        assert_eq!(rt; read_decimal(b"1E+05", 9), Ok(100_000_000_000_000));
        assert_eq!(rt; read_decimal(b"1e-06", 6), Ok(1));
        assert_eq!(rt; read_decimal(b"10e-7", 6), Ok(1));
        assert_eq!(rt; read_decimal(b"0e-999", 6), Ok(0));
        assert_eq!(rt; read_decimal(b"1000000000000000000000e-21", 0), Ok(1));
    }

    #[test]
    fn refuses_in_order(rt: HostRuntime) {
        assert_eq!(rt; read_decimal(b"1e-999", 6), Err(NumFault::TooFine));
        assert_eq!(rt; read_decimal(b"1e999", 6), Err(NumFault::TooLarge));
        assert_eq!(rt;
            read_decimal(b"99999999999999.00000000001", 6),
            Err(NumFault::TooFine)
        );
        assert_eq!(rt;
            read_decimal(b"1000000000000000001", 0),
            Err(NumFault::TooLarge)
        );
        assert_eq!(rt; read_decimal(b".", 6), Err(NumFault::NotNumber));
        assert_eq!(rt; read_decimal(b"1e0005", 6), Err(NumFault::NotNumber));
    }
}

//! Runs of digits are scaled by powers of ten.
ghost use Rattle.std.specs.Prelude.{◌≡◌, ◌+◌, ◌*◌, ◌^◌, ◌++◌, ◌<◌, ◌≤◌, ◌==◌, true, length, min};
ghost use Rattle.std.specs.List.{list_all};
ghost use Rattle.smol_num.specs.Digits.{is_digit, digits_value};
ghost use Rattle.smol_num.specs.Decimal.{whole_number};

use crate::NumFault;

/// The largest size that is answered, 10^18.
pub(crate) const LARGEST: u64 = 1_000_000_000_000_000_000;

/// What every larger size is counted as.
const TOO_LARGE: u64 = LARGEST + 1;

/// The number that the digits of both slices spell, one after the other, multiplied by ten `raised` times
/// and divided by ten `lowered` times.
pub(crate) fn scaled(
    whole: &[u8],
    fraction: &[u8],
    raised: usize,
    lowered: usize,
) -> Result<u64, NumFault>
    requires digits { list_all is_digit (whole.now ++ fraction.now) ≡ true }
    requires raised_is_small { raised < 2000 }
    ensures { result ≡ whole_number (digits_value (whole.now ++ fraction.now) * 10 ^ raised) (10 ^ lowered) }
{
    let kept = (whole.len() + fraction.len()).saturating_sub(lowered.saturating_sub(raised));
    let (kept_whole, cut_whole) = whole.split_at(kept.min(whole.len()));
    let (kept_fraction, cut_fraction) = fraction.split_at(kept - kept_whole.len());
    if !are_zero(cut_whole, cut_fraction) {
        return Err(NumFault::TooFine);
    }
    let size = with_digits(0, kept_whole);
    let size = with_digits(size, kept_fraction);
    let size = times_ten(size, raised.saturating_sub(lowered));
    if size > LARGEST {
        return Err(NumFault::TooLarge);
    }
    Ok(size)
}

/// Whether each digit of both slices is `0`.
fn are_zero(front: &[u8], back: &[u8]) -> bool
    ensures { result ≡ list_all (λ b. b == 48) (front.now ++ back.now) }
{
    front.iter().chain(back.iter()).all(|b| *b == b'0')
}

/// The size whose digits go on with these, or `TOO_LARGE` where it is larger.
fn with_digits(size: u64, digits: &[u8]) -> u64
    requires digits { list_all is_digit digits.now ≡ true }
    requires size { size ≤ TOO_LARGE }
    ensures { result ≡ min (size * 10 ^ length digits.now + digits_value digits.now) TOO_LARGE }
{
    let mut size = size;
    for digit in digits {
        size = (size * 10 + u64::from(*digit - b'0')).min(TOO_LARGE);
    }
    size
}

/// The size times 10^power, or `TOO_LARGE` where it is larger.
fn times_ten(size: u64, power: usize) -> u64
    requires { size ≤ TOO_LARGE }
    ensures { result ≡ min (size * 10 ^ power) TOO_LARGE }
{
    let mut size = size;
    for _turn in 0..power {
        size = (size * 10).min(TOO_LARGE);
    }
    size
}

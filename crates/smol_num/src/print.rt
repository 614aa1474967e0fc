//! Numbers are written as decimals.
ghost use Rattle.std.specs.Prelude.{◌≡◌, ◌+◌, ◌^◌, ◌++◌, ◌<◌, ◌≤◌, length, take, decimal, unsigned_abs};
ghost use Rattle.smol_num.specs.Decimal.{decimal_of};
ghost use Rattle.smol_num.specs.Print.{sign_text, places_text, fraction_text, decimal_text};

use itoa::Buffer;

/// Writes a number of millionths as a decimal without trailing zeros, at the front of `out`, and answers
/// how many bytes it has.
pub fn write_micro(v: i64, out: &mut [u8; 24]) -> usize
    ensures within { result ≤ 24 }
    ensures text { take result out.new ≡ decimal_text 6 v }
    ensures read_back { unsigned_abs v ≤ 10 ^ 18 → decimal_of (take result out.new) 6 ≡ Ok v }
{
    write_decimal(v, 6, out)
}

/// Writes a number of billionths as a decimal without trailing zeros, at the front of `out`, and answers
/// how many bytes it has.
pub fn write_nano(v: i64, out: &mut [u8; 24]) -> usize
    ensures within { result ≤ 24 }
    ensures text { take result out.new ≡ decimal_text 9 v }
    ensures read_back { unsigned_abs v ≤ 10 ^ 18 → decimal_of (take result out.new) 9 ≡ Ok v }
{
    write_decimal(v, 9, out)
}

/// Writes a number of units of 10^-places at the front of `out`, and answers how many bytes it has.
fn write_decimal(v: i64, places: u32, out: &mut [u8]) -> usize
    requires least { 6 ≤ places }
    requires most { places ≤ 9 }
    requires room { length out.old ≡ 24 }
    ensures within { result ≤ 24 }
    ensures text { take result out.new ≡ decimal_text places v }
{
    let unit = 10u64.pow(places);
    let size = v.unsigned_abs();
    let at = put_sign(v, out);
    let at = put_digits(size / unit, out, at);
    put_fraction(size % unit, places, out, at)
}

/// Writes `-` at the front of `out` where the number is negative, and answers where to go on.
fn put_sign(v: i64, out: &mut [u8]) -> usize
    requires { 1 ≤ length out.old }
    ensures end { result ≤ 1 }
    ensures text { take result out.new ≡ sign_text v }
{
    if v < 0 {
        out[0] = b'-';
        return 1;
    }
    0
}

/// Writes a number at a place, and answers where to go on.
fn put_digits(n: u64, out: &mut [u8], at: usize) -> usize
    requires { at + length (decimal n) ≤ length out.old }
    ensures end { result ≡ at + length (decimal n) }
    ensures text { take result out.new ≡ take at out.old ++ decimal n }
{
    let mut buffer = Buffer::new();
    let digits = buffer.format(n).as_bytes();
    let end = at + digits.len();
    out[at..end].copy_from_slice(digits);
    end
}

/// Writes a point and the digits of the rest at a place, or nothing where there is no rest, and answers
/// where to go on.
fn put_fraction(rest: u64, places: u32, out: &mut [u8], at: usize) -> usize
    requires places { places ≤ 9 }
    requires rest { rest < 10 ^ places }
    requires room { at + 1 + places ≤ length out.old }
    ensures end { result ≤ at + 1 + places }
    ensures text { take result out.new ≡ take at out.old ++ fraction_text places rest }
{
    if rest == 0 {
        return at;
    }
    out[at] = b'.';
    put_places(rest, places, out, at + 1)
}

/// Writes the digits of the rest, place by place until nothing is left, and answers where to go on.
fn put_places(rest: u64, places: u32, out: &mut [u8], at: usize) -> usize
    requires places { places ≤ 9 }
    requires rest { rest < 10 ^ places }
    requires room { at + places ≤ length out.old }
    ensures end { result ≤ at + places }
    ensures text { take result out.new ≡ take at out.old ++ places_text places rest }
{
    let mut left = rest;
    let mut unit = 10u64.pow(places);
    let mut place = places;
    let mut end = at;
    while left > 0 {
        unit /= 10;
        place -= 1;
        out[end] = b'0' + (left / unit) as u8;
        end += 1;
        left %= unit;
    }
    end
}

#[cfg(test)]
mod tests {
    use super::*;

    fn micro_is(rt: &impl std::process::Abort, v: i64, text: &[u8]) {
        let mut out = [0; 24];
        let end = write_micro(v, &mut out);
        assert!(rt; &out[..end] == text);
    }

    #[test]
    fn cuts_trailing_zeros(rt: HostRuntime) {
        micro_is(&rt, 0, b"0");
        micro_is(&rt, -1, b"-0.000001");
        micro_is(&rt, 1_500_000, b"1.5");
        micro_is(&rt, -20_000_000, b"-20");
        micro_is(&rt, i64::MIN, b"-9223372036854.775808");
    }

    #[test]
    fn writes_billionths(rt: HostRuntime) {
        let mut out = [0; 24];
        let end = write_nano(10_000_000, &mut out);
        assert!(rt; &out[..end] == b"0.01".as_slice());
    }
}

//! e to the power of x in whole numbers, of which 2^40 are one.
ghost use Rattle.std.specs.Prelude.{◌≡◌, ◌≤◌, ◌^◌};
ghost use Rattle.smol_rates.specs.Series.{exponential, series, squared_times, unit};

/// One, in the units of the series.
pub const ONE: u128 = 1_099_511_627_776;

/// The last power of the series.
const LAST: u64 = 16;

/// How often e to the power of x is squared, so that x is multiplied by 32.
const SQUARINGS: u64 = 5;

// The series of x up to its 16th power.
fn series(x: u128) -> u128
    requires { x ≤ unit }
    ensures { result ≡ series x }
{
    let mut term = ONE;
    let mut sum = ONE;
    for number in 0..LAST {
        term = term * x / (u128::from(number + 1) * ONE);
        sum += term;
    }
    sum
}

// What comes of a number squared five times.
fn squared_five_times(e: u128) -> u128
    requires { e ≤ series unit }
    ensures { result ≡ squared_times 5 e }
{
    let mut power = e;
    for _turn in 0..SQUARINGS {
        power = power * power / ONE;
    }
    power
}

/// e to the power of 32 times x.
#[tactic(auto, unfolding(crate::specs::Series::exponential), using(crate::proofs::SeriesLemmas::series_grows))]
pub fn exponential(x: u128) -> u128
    requires { x ≤ unit }
    ensures value { result ≡ exponential x }
    ensures some { unit ≤ result }
    ensures fits { result ≤ 2 ^ 96 }
{
    squared_five_times(series(x))
}

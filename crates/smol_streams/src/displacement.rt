ghost use Rattle.std.specs.Prelude.{◌≡◌, ◌+◌, ◌*◌, ◌^◌, ◌≤◌, ◌+ℤ◌, ◌*ℤ◌, pos, unsigned_abs};
ghost use Rattle.smol_geom.specs.Axes.{IsEven};
ghost use Rattle.smol_streams.specs.Displacement.{floor_of, scaled};

// The standard deviation of a sum of twelve 16-bit draws.
const DEVIATION: i64 = 65_536;

/// The displacement in ticks of a centred sum g of twelve draws, for a difstep of s micros.
pub fn scale(g: i64, s: u32) -> i64
    requires { unsigned_abs g ≤ 393210 }
    ensures value { result ≡ scaled g s }
    ensures even { IsEven result }
    ensures size { unsigned_abs result ≤ 12 * s + 2 }
{
    2 * rounded(weighed(g, s))
}

// The centred sum times the difstep.
fn weighed(g: i64, s: u32) -> i64
    requires { unsigned_abs g ≤ 393210 }
    ensures { result ≡ pos s *ℤ g }
{
    i64::from(s) * g
}

// The number over the deviation, rounded to the nearest whole number, and a half up.
fn rounded(number: i64) -> i64
    requires { unsigned_abs number ≤ 2 ^ 60 }
    ensures { result ≡ floor_of (number +ℤ pos 32768) 65536 }
{
    (number + DEVIATION / 2).div_euclid(DEVIATION)
}

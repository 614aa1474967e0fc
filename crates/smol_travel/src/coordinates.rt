//! Coordinates on one axis.
ghost use Rattle.std.specs.Prelude.{◌≡◌, ◌↔◌, ℕ, ◌<◌, ◌≤◌, ◌+◌, ◌^◌, IfSome, IsTrue, int_lt, neg_ℤ, ◌*ℤ◌, ◌-ℤ◌, ◌+ℤ◌, pos, unsigned_abs};
ghost use Rattle.smol_geom.specs.Fold.{IsSign};
ghost use Rattle.smol_geom.specs.Moments.{coordinate_from};
ghost use Rattle.smol_travel.specs.Legs.{IsBetween, IsFromTo};
ghost use Rattle.smol_travel.specs.Meetings.{IsSameWay};

// How many ticks of a way lead from its start to a coordinate strictly within it.
pub fn ticks_to(start: i64, way: i64, goal: i64) -> Option<u64>
    requires start { unsigned_abs start ≤ 2 ^ 57 }
    requires way { unsigned_abs way ≤ 2 ^ 34 }
    requires goal { unsigned_abs goal ≤ 2 ^ 59 }
    ensures begun { IfSome result (λ n. 0 < n) }
    ensures unfinished { IfSome result (λ n. n < unsigned_abs way) }
    ensures there { IfSome result (λ n. coordinate_from start way n ≡ goal) }
    ensures only { (n : ℕ) → 0 < n → n < unsigned_abs way → coordinate_from start way n ≡ goal → result ≡ Some n }
{
    let gap = goal - start;
    let num = gap.unsigned_abs();
    if is_same_way(gap, way) && num < way.unsigned_abs() {
        Some(num)
    } else {
        None
    }
}

// Whether the gap isn't 0 and leads the way that the other leads.
fn is_same_way(gap: i64, way: i64) -> bool
    ensures { IsTrue result ↔ IsSameWay gap way }
{
    if way > 0 { gap > 0 } else { gap < 0 }
}

// The coordinate that some ticks of a way lead to.
pub fn coordinate_from(start: i64, way: i64, num: u64) -> i64
    requires start { unsigned_abs start ≤ 2 ^ 57 }
    requires num { num ≤ 2 ^ 34 }
    ensures value { result ≡ coordinate_from start way num }
    ensures size { unsigned_abs result ≤ 2 ^ 57 + 2 ^ 34 }
{
    if way > 0 {
        start + num as i64
    } else {
        start - num as i64
    }
}

// The coordinate that a sign and a shift carry to this one.
pub fn unfolded(sign: i8, shift: i64, coordinate: i64) -> i64
    requires sign { IsSign sign }
    requires shift { unsigned_abs shift ≤ 2 ^ 58 }
    requires coordinate { unsigned_abs coordinate ≤ 2 ^ 42 }
    ensures value { result ≡ sign *ℤ (coordinate -ℤ shift) }
    ensures size { unsigned_abs result ≤ 2 ^ 59 }
{
    let way = coordinate - shift;
    if sign < 0 { -way } else { way }
}

// The coordinate that a sign and a shift carry a coordinate to.
pub fn folded(sign: i8, own: i64, shift: i64) -> i64
    requires sign { IsSign sign }
    requires own { unsigned_abs own ≤ 2 ^ 57 + 2 ^ 34 }
    requires shift { unsigned_abs shift ≤ 2 ^ 58 }
    ensures value { result ≡ sign *ℤ own +ℤ shift }
    ensures size { unsigned_abs result ≤ 2 ^ 59 }
{
    if sign < 0 { shift - own } else { shift + own }
}

// Whether a way grows under a sign.
pub fn is_up(sign: i8, way: i64) -> bool
    requires { IsSign sign }
    ensures { result ≡ int_lt (pos 0) (sign *ℤ way) }
{
    if sign < 0 { way < 0 } else { way > 0 }
}

// The other sign.
pub fn opposite(sign: i8) -> i8
    requires { IsSign sign }
    ensures { result ≡ neg_ℤ sign }
{
    -sign
}

// The shift after a mirror at a plane.
pub fn mirrored_shift(plane: i64, shift: i64) -> i64
    requires plane { unsigned_abs plane ≤ 2 ^ 60 }
    requires shift { unsigned_abs shift ≤ 2 ^ 59 }
    ensures { result ≡ pos 2 *ℤ plane -ℤ shift }
{
    2 * plane - shift
}

pub fn sum(a: i64, b: i64) -> i64
    requires a { unsigned_abs a ≤ 2 ^ 59 }
    requires b { unsigned_abs b ≤ 2 ^ 58 }
    ensures value { result ≡ a +ℤ b }
    ensures size { unsigned_abs result ≤ 2 ^ 60 }
{
    a + b
}

// Where a fold carries the end of a whole way.
pub fn end_on(sign: i8, start: i64, way: i64, shift: i64) -> i64
    requires sign { IsSign sign }
    requires start { unsigned_abs start ≤ 2 ^ 57 }
    requires way { unsigned_abs way ≤ 2 ^ 34 }
    requires shift { unsigned_abs shift ≤ 2 ^ 58 }
    ensures value { result ≡ sign *ℤ (start +ℤ way) +ℤ shift }
    ensures size { unsigned_abs result ≤ 2 ^ 59 }
{
    folded(sign, way_end(start, way), shift)
}

// The lower and the higher end of what a fold carries a way to.
pub fn ends_on(sign: i8, start: i64, way: i64, shift: i64) -> (i64, i64)
    requires sign { IsSign sign }
    requires start { unsigned_abs start ≤ 2 ^ 57 }
    requires way { unsigned_abs way ≤ 2 ^ 34 }
    requires shift { unsigned_abs shift ≤ 2 ^ 58 }
    ensures between { (n : ℕ) → 0 < n → n < unsigned_abs way
        → IsBetween result.0 result.1 (sign *ℤ coordinate_from start way n +ℤ shift) }
    ensures first { IsFromTo result.0 result.1 (sign *ℤ start +ℤ shift) }
    ensures last { IsFromTo result.0 result.1 (sign *ℤ (start +ℤ way) +ℤ shift) }
    ensures low { unsigned_abs result.0 ≤ 2 ^ 59 }
    ensures high { unsigned_abs result.1 ≤ 2 ^ 59 }
{
    let first = folded(sign, start, shift);
    let last = end_on(sign, start, way, shift);
    if first < last {
        (first, last)
    } else {
        (last, first)
    }
}

// Where a whole way ends.
fn way_end(start: i64, way: i64) -> i64
    requires start { unsigned_abs start ≤ 2 ^ 57 }
    requires way { unsigned_abs way ≤ 2 ^ 34 }
    ensures value { result ≡ start +ℤ way }
    ensures size { unsigned_abs result ≤ 2 ^ 57 + 2 ^ 34 }
{
    start + way
}

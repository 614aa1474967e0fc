//! Sums of coordinates and of their squares.
ghost use Rattle.std.specs.Prelude.{◌≡◌, ◌+◌, ◌*◌, ◌^◌, ◌<◌, ◌≤◌, pos, All, count_by, length, slice_index_or, unsigned_abs};
ghost use Rattle.smol_geom.specs.Axes.{EachAxis, IsWithin, on_axis};
ghost use Rattle.smol_types.specs.declared.state.Mol.{Mol as TheMol};
ghost use Rattle.smol_stats.specs.Sums.{micros_at, share_of, spread_of, squares_on, sum_on, thousandths};
ghost use Rattle.smol_stats.specs.Tally.{is_counted};

use smol_types::Mol;

/// How many molecules count, and per axis the sum of their coordinates in thousandths of a length unit, and that of the squares of these.
#[derive(Clone, Copy, Debug, PartialEq, Eq)]
pub struct Moments {
    pub count: u64,
    pub sum: [i128; 3],
    pub square: [u128; 3],
}

/// The moments of the molecules of the species that count. Each coordinate is rounded downwards to a thousandth of a length unit.
pub fn moments_of(mols: &[Mol], who: &[bool]) -> Moments
    requires species { All (λ (mol : TheMol). mol.species < length who.now) mols.now }
    requires few { length mols.now ≤ 1000000 }
    requires places { All (λ (mol : TheMol). IsWithin (2 ^ 58) mol.place.0) mols.now }
    ensures count { result.count ≡ count_by (is_counted who.now) mols.now }
    ensures sum { EachAxis (λ axis. on_axis result.sum axis ≡ sum_on who.now (pos 0) axis mols.now) }
    ensures square { EachAxis (λ axis. slice_index_or result.square axis 0 ≡ squares_on who.now (pos 0) axis mols.now) }
    ensures small { EachAxis (λ axis. slice_index_or result.square axis 0 ≤ 2 ^ 98 * 1000000) }
{
    Moments {
        count: count_of(mols, who),
        sum: [
            sum_along(mols, who, 0),
            sum_along(mols, who, 1),
            sum_along(mols, who, 2),
        ],
        square: [
            squares_along(mols, who, 0, 0),
            squares_along(mols, who, 1, 0),
            squares_along(mols, who, 2, 0),
        ],
    }
}

/// The sum of the squares of how far the molecules of the species that count are from a place in micros, on each of the first axes,
/// in thousandths of a length unit that are rounded downwards.
pub fn spread(mols: &[Mol], who: &[bool], dims: usize, at: &[i64; 3]) -> u128
    requires species { All (λ (mol : TheMol). mol.species < length who.now) mols.now }
    requires few { length mols.now ≤ 1000000 }
    requires places { All (λ (mol : TheMol). IsWithin (2 ^ 58) mol.place.0) mols.now }
    requires some { 0 < dims }
    requires dims { dims ≤ 3 }
    requires at { IsWithin (10 ^ 12) at.now }
    ensures value { result ≡ spread_of who.now dims at.now mols.now }
    ensures small { result ≤ 2 ^ 98 * 3000000 }
{
    let x = squares_along(mols, who, 0, at[0]);
    if dims == 1 {
        return x;
    }
    let y = squares_along(mols, who, 1, at[1]);
    if dims == 2 {
        return x + y;
    }
    let z = squares_along(mols, who, 2, at[2]);
    x + y + z
}

/// How many molecules are of the species that count.
pub fn count_of(mols: &[Mol], who: &[bool]) -> u64
    requires species { All (λ (mol : TheMol). mol.species < length who.now) mols.now }
    requires few { length mols.now ≤ 1000000 }
    ensures { result ≡ count_by (is_counted who.now) mols.now }
{
    let mut count = 0;
    for mol in mols {
        count += u64::from(who[mol.species as usize]);
    }
    count
}

// The sum of the coordinates on an axis.
fn sum_along(mols: &[Mol], who: &[bool], axis: usize) -> i128
    requires species { All (λ (mol : TheMol). mol.species < length who.now) mols.now }
    requires few { length mols.now ≤ 1000000 }
    requires places { All (λ (mol : TheMol). IsWithin (2 ^ 58) mol.place.0) mols.now }
    requires axis { axis < 3 }
    ensures { result ≡ sum_on who.now (pos 0) axis mols.now }
{
    let mut sum = 0;
    for mol in mols {
        let share = share(mol, who, axis, 0);
        sum += i128::from(share);
    }
    sum
}

// The sum of the squares of how far they are from a coordinate in micros on an axis.
fn squares_along(mols: &[Mol], who: &[bool], axis: usize, from: i64) -> u128
    requires species { All (λ (mol : TheMol). mol.species < length who.now) mols.now }
    requires few { length mols.now ≤ 1000000 }
    requires places { All (λ (mol : TheMol). IsWithin (2 ^ 58) mol.place.0) mols.now }
    requires axis { axis < 3 }
    requires from { unsigned_abs from ≤ 10 ^ 12 }
    ensures value { result ≡ squares_on who.now from axis mols.now }
    ensures size { result ≤ 2 ^ 98 * 1000000 }
{
    let mut sum = 0;
    for mol in mols {
        let size = u128::from(share(mol, who, axis, from).unsigned_abs());
        sum += size * size;
    }
    sum
}

// What a molecule adds to a sum: how far it is from a coordinate in micros on an axis, in thousandths, or 0 where its species doesn't count.
fn share(mol: &Mol, who: &[bool], axis: usize, from: i64) -> i64
    requires species { mol.now.species < length who.now }
    requires place { IsWithin (2 ^ 58) mol.now.place.0 }
    requires axis { axis < 3 }
    requires from { unsigned_abs from ≤ 10 ^ 12 }
    ensures value { result ≡ share_of who.now from axis mol.now }
    ensures size { unsigned_abs result ≤ 2 ^ 49 }
{
    if who[mol.species as usize] {
        thousandths(micros_at(mol.place.0[axis]) - from)
    } else {
        0
    }
}

// The coordinate in micros of a molecule that stands half a micro above it, at x ticks.
fn micros_at(x: i64) -> i64
    requires { unsigned_abs x ≤ 2 ^ 58 }
    ensures value { result ≡ micros_at x }
    ensures size { unsigned_abs result ≤ 2 ^ 57 + 1 }
{
    (x - 1).div_euclid(2)
}

// A length in micros in thousandths of a length unit, rounded downwards.
fn thousandths(micros: i64) -> i64
    requires { unsigned_abs micros ≤ 2 ^ 58 }
    ensures value { result ≡ thousandths micros }
    ensures size { unsigned_abs result ≤ 2 ^ 49 }
{
    micros.div_euclid(1000)
}

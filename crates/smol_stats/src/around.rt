//! How far molecules of two species are from one another.
ghost use Rattle.std.specs.Prelude.{◌≡◌, ℕ, ◌+◌, ◌*◌, ◌^◌, ◌<◌, ◌≤◌, ◌≤ℤ◌, All, IfOk, IsPermutation, count_by, drop, get_or, length, map, unsigned_abs};
ghost use Rattle.smol_cells.specs.Kept.{AreOf};
ghost use Rattle.smol_cells.specs.Meeting.{MeetsBetween};
ghost use Rattle.smol_cells.specs.Numbered.{IsFilled, boxes_of_place};
ghost use Rattle.smol_geom.specs.Axes.{IsWithin};
ghost use Rattle.smol_geom.specs.Place.{square_of_distance};
ghost use Rattle.smol_geom.specs.declared.place.Place.{Place as ThePlace};
ghost use Rattle.smol_types.specs.declared.state.Mol.{Mol as TheMol};
ghost use Rattle.smol_stats.specs.Radial.{are_in_shell, mol_at, radial_of};

use crate::counts::raise;
use crate::shells::Shells;
use smol_cells::{Cells, Grid, in_box_order};
use smol_geom::{Cuboid, Place};
use smol_types::Mol;
use std::alloc::{AllocError, Global};

/// How many unordered pairs of different molecules, one of the first and one of the second species, are in each of the `n` shells of one
/// thickness within a radius, in micros. A pair at the radius or farther apart is in no shell. The error says that memory ran out.
pub fn radial(
    alloc: Global,
    mols: &[Mol],
    first: u16,
    second: u16,
    radius: u64,
    n: u32,
) -> Result<Vec<u64>, AllocError>
    requires few { length mols.now ≤ 1000000 }
    requires places { All (λ (mol : TheMol). IsWithin (2 ^ 57) mol.place.0) mols.now }
    requires positive { 0 < radius }
    requires short { radius ≤ 10 ^ 9 }
    requires some { 0 < n }
    requires n { n ≤ 1000 }
    ensures { IfOk result (λ counts. counts.items ≡ radial_of first second (2 * radius) n mols.now) }
{
    let shells = Shells {
        first,
        second,
        reach: 2 * radius,
        n,
    };
    let sorted = sorted_of(alloc, mols, shells.reach)?;
    let mut counts = vec![in alloc; 0u64; n as usize]?;
    for i in 0..sorted.mols.len() {
        count_around(&mut counts, &sorted.mols, &sorted.cells, &shells, i);
    }
    Ok(counts)
}

// Raises the counts by the pairs of a molecule with those behind it.
fn count_around(counts: &mut [u64], mols: &[Mol], cells: &Cells, shells: &Shells, i: usize)
    requires few { length mols.now ≤ 1000000 }
    requires places { All (λ (mol : TheMol). IsWithin (2 ^ 57) mol.place.0) mols.now }
    requires of { AreOf (map (λ (mol : TheMol). boxes_of_place cells.now.grid mol.place) mols.now) cells.now }
    requires i { i < length mols.now }
    requires long { length counts.old ≡ shells.now.n }
    requires small { All (λ count. count ≤ 2 ^ 62) counts.old }
    ensures long { length counts.new ≡ shells.now.n }
    ensures counted { (k : ℕ) → k < shells.now.n → get_or counts.new k 0
        ≡ get_or counts.old k 0 + count_by (are_in_shell shells.now.first shells.now.second shells.now.reach shells.now.n k (mol_at mols.now i)) (drop (i + 1) mols.now) }
{
    let mut near = cells.near(&around(&mols[i].place, shells.reach));
    while let Some(j) = near.next() {
        let shell = shells.of_pair(mols, i, j);
        raise(counts, shell);
    }
}

// Molecules in the order of their boxes, and the cells of their places.
#[derive(Drop)]
struct Sorted {
    mols: Vec<Mol>,
    cells: Cells,
}

// The molecules in the order of their boxes, whose edge is the reach or longer.
fn sorted_of(alloc: Global, mols: &[Mol], reach: u64) -> Result<Sorted, AllocError>
    requires places { All (λ (mol : TheMol). IsWithin (2 ^ 57) mol.place.0) mols.now }
    requires positive { 0 < reach }
    requires short { reach ≤ 2 * 10 ^ 9 }
    ensures order { IfOk result (λ sorted. IsPermutation mols.now sorted.mols.items) }
    ensures cells { IfOk result (λ sorted. AreOf (map (λ (mol : TheMol). boxes_of_place sorted.cells.grid mol.place) sorted.mols.items) sorted.cells) }
{
    let places = places_of(alloc, mols)?;
    let grid = grid_of(mols, reach);
    let made = in_box_order(alloc, &grid, &places)?;
    let mols = mols_in(alloc, mols, &made.order)?;
    Ok(Sorted {
        mols,
        cells: made.cells,
    })
}

// The molecules at these indexes, in order.
fn mols_in(alloc: Global, mols: &[Mol], order: &[usize]) -> Result<Vec<Mol>, AllocError>
    requires { All (λ index. index < length mols.now) order.now }
    ensures { IfOk result (λ found. found.items ≡ map (mol_at mols.now) order.now) }
{
    let mut found = Vec::with_capacity(alloc, order.len())?;
    for index in order {
        found.push(mols[*index])?;
    }
    Ok(found)
}

// The grid of where the molecules stand, with boxes whose edge is the reach or longer.
fn grid_of(mols: &[Mol], reach: u64) -> Grid
    requires places { All (λ (mol : TheMol). IsWithin (2 ^ 57) mol.place.0) mols.now }
    requires positive { 0 < reach }
    requires short { reach ≤ 2 * 10 ^ 9 }
{
    let x = span_on(mols, 0);
    let y = span_on(mols, 1);
    let z = span_on(mols, 2);
    let bounds = Cuboid {
        low: [x.low, y.low, z.low],
        high: [x.high, y.high, z.high],
    };
    Grid::of(&bounds, reach)
}

// Where the molecules stand.
fn places_of(alloc: Global, mols: &[Mol]) -> Result<Vec<Place>, AllocError>
    ensures { IfOk result (λ places. places.items ≡ map (λ (mol : TheMol). mol.place) mols.now) }
{
    let mut places = Vec::with_capacity(alloc, mols.len())?;
    for mol in mols {
        places.push(mol.place)?;
    }
    Ok(places)
}

// Coordinates from a low one to a high one.
#[derive(Clone, Copy)]
struct Span {
    low: i64,
    high: i64,
    ghost low_size: { unsigned_abs low ≤ 2 ^ 57 },
    ghost high_size: { unsigned_abs high ≤ 2 ^ 57 },
    ghost ordered: { low ≤ℤ high },
}

// From where to where the molecules stand on an axis.
fn span_on(mols: &[Mol], axis: usize) -> Span
    requires places { All (λ (mol : TheMol). IsWithin (2 ^ 57) mol.place.0) mols.now }
    requires axis { axis < 3 }
{
    let Some(first) = mols.first() else {
        return Span { low: 0, high: 0 };
    };
    let mut low = first.place.0[axis];
    let mut high = low;
    for mol in mols {
        let x = coordinate(mol, axis);
        low = low.min(x);
        high = high.max(x);
    }
    Span { low, high }
}

// The coordinate of a molecule on an axis.
fn coordinate(mol: &Mol, axis: usize) -> i64
    requires place { IsWithin (2 ^ 57) mol.now.place.0 }
    requires axis { axis < 3 }
    ensures { unsigned_abs result ≤ 2 ^ 57 }
{
    mol.place.0[axis]
}

// The cuboid that reaches so far from a place on each axis.
fn around(place: &Place, reach: u64) -> Cuboid
    requires place { IsWithin (2 ^ 57) place.now.0 }
    requires short { reach ≤ 2 * 10 ^ 9 }
    ensures low { IsWithin (2 ^ 58) result.low }
    ensures high { IsWithin (2 ^ 58) result.high }
    ensures filled { IsFilled result }
    ensures reaches { (other : ThePlace) → square_of_distance place.now other < reach * reach → MeetsBetween result other.0 other.0 }
{
    let far = reach as i64;
    Cuboid {
        low: [place.0[0] - far, place.0[1] - far, place.0[2] - far],
        high: [place.0[0] + far, place.0[1] + far, place.0[2] + far],
    }
}

//! Entries: what is in which box, in the order of the boxes.
ghost use Rattle.std.specs.Prelude.{◌≡◌, ℕ, ◌+◌, ◌^◌, ◌<◌, ◌≤◌, ◌++◌, All, IfOk, OnOk, IsPermutation, length, map};
ghost use Rattle.std.specs.List.Sorted.{IsNonDecreasingBy};
ghost use Rattle.smol_geom.specs.declared.place.Place.{Place};
ghost use Rattle.smol_geom.specs.Axes.{IsWithin};
ghost use Rattle.smol_cells.specs.Bounds.{most_boxes};
ghost use Rattle.smol_cells.specs.declared.entries.Entry.{Entry};
ghost use Rattle.smol_cells.specs.Entries.{IsOfPlace, boxes_entries, entries_from, layer_entries, number_at, row_entries};
ghost use Rattle.smol_cells.specs.Numbers.{count_on};
ghost use Rattle.smol_cells.specs.Placed.{indexes};
ghost use Rattle.smol_cells.specs.Ranges.{AreAmong};
ghost use Rattle.smol_cells.specs.Starts.{AreStarts, IsStart};

use crate::boxes::Boxes;
use crate::grid::Grid;
use smol_geom::Place;
use std::alloc::{AllocError, Global};

// The thing at an index is in the box of a number.
#[derive(Clone, Copy)]
pub struct Entry {
    pub number: usize,
    pub index: usize,
}

// The entries of places, in the order of their boxes.
pub fn ordered_entries_of_places(
    alloc: Global,
    grid: &Grid,
    places: &[Place],
) -> Result<Vec<Entry>, AllocError>
    requires { All (λ (place : Place). IsWithin (2 ^ 58) place.0) places.now }
    ensures places { IfOk result (λ entries. All (IsOfPlace grid.now places.now) entries.items) }
    ensures order { IfOk result (λ entries. IsPermutation (indexes (length places.now)) (map (λ (entry : Entry). entry.index) entries.items)) }
    ensures rising { IfOk result (λ entries. IsNonDecreasingBy (λ (entry : Entry). entry.number) entries.items) }
{
    let mut entries = entries_of_places(alloc, grid, places)?;
    sort_entries(&mut entries);
    Ok(entries)
}

// The entries of places.
fn entries_of_places(alloc: Global, grid: &Grid, places: &[Place]) -> Result<Vec<Entry>, AllocError>
    requires { All (λ (place : Place). IsWithin (2 ^ 58) place.0) places.now }
    ensures places { IfOk result (λ entries. All (IsOfPlace grid.now places.now) entries.items) }
    ensures indexes { IfOk result (λ entries. map (λ (entry : Entry). entry.index) entries.items ≡ indexes (length places.now)) }
{
    let mut entries = Vec::with_capacity(alloc, places.len())?;
    for (index, place) in places.iter().enumerate() {
        entries.push(Entry {
            number: grid.box_of(place),
            index,
        })?;
    }
    Ok(entries)
}

// The entries of things in boxes, in the order of the boxes.
pub fn ordered_entries_of_ranges(
    alloc: Global,
    grid: &Grid,
    ranges: &[Boxes],
) -> Result<Vec<Entry>, AllocError>
    requires { All (AreAmong grid.now.counts) ranges.now }
    ensures entries { IfOk result (λ entries. IsPermutation (entries_from grid.now.counts 0 ranges.now) entries.items) }
    ensures rising { IfOk result (λ entries. IsNonDecreasingBy (λ (entry : Entry). entry.number) entries.items) }
{
    let mut entries = entries_of_ranges(alloc, grid, ranges)?;
    sort_entries(&mut entries);
    Ok(entries)
}

// The entries of things in boxes.
fn entries_of_ranges(alloc: Global, grid: &Grid, ranges: &[Boxes]) -> Result<Vec<Entry>, AllocError>
    requires { All (AreAmong grid.now.counts) ranges.now }
    ensures { IfOk result (λ entries. entries.items ≡ entries_from grid.now.counts 0 ranges.now) }
{
    let mut entries = Vec::with_capacity(alloc, ranges.len())?;
    for (index, boxes) in ranges.iter().enumerate() {
        add_boxes(&mut entries, grid, *boxes, index)?;
    }
    Ok(entries)
}

// Adds the entries of a thing.
fn add_boxes(
    entries: &mut Vec<Entry>,
    grid: &Grid,
    boxes: Boxes,
    index: usize,
) -> Result<(), AllocError>
    requires { AreAmong grid.now.counts boxes }
    ensures { OnOk result (entries.new.items ≡ entries.old.items ++ boxes_entries grid.now.counts index boxes) }
{
    for z in boxes.first[2]..boxes.last[2] + 1 {
        add_layer(entries, grid, boxes, index, z)?;
    }
    Ok(())
}

// Adds the entries of a thing for those of its boxes that are in a layer.
fn add_layer(
    entries: &mut Vec<Entry>,
    grid: &Grid,
    boxes: Boxes,
    index: usize,
    z: usize,
) -> Result<(), AllocError>
    requires among { AreAmong grid.now.counts boxes }
    requires z { z < count_on grid.now.counts 2 }
    ensures { OnOk result (entries.new.items ≡ entries.old.items ++ layer_entries grid.now.counts boxes index z) }
{
    for y in boxes.first[1]..boxes.last[1] + 1 {
        add_row(entries, grid, boxes, index, z, y)?;
    }
    Ok(())
}

// Adds the entries of a thing for those of its boxes that are in a row.
fn add_row(
    entries: &mut Vec<Entry>,
    grid: &Grid,
    boxes: Boxes,
    index: usize,
    z: usize,
    y: usize,
) -> Result<(), AllocError>
    requires among { AreAmong grid.now.counts boxes }
    requires z { z < count_on grid.now.counts 2 }
    requires y { y < count_on grid.now.counts 1 }
    ensures { OnOk result (entries.new.items ≡ entries.old.items ++ row_entries grid.now.counts boxes index z y) }
{
    for x in boxes.first[0]..boxes.last[0] + 1 {
        let number = grid.number_at(x, y, z);
        entries.push(Entry { number, index })?;
    }
    Ok(())
}

// Sorts entries by the numbers of their boxes.
fn sort_entries(entries: &mut Vec<Entry>)
    ensures permutation { IsPermutation entries.old.items entries.new.items }
    ensures rising { IsNonDecreasingBy (λ (entry : Entry). entry.number) entries.new.items }
{
    entries.sort_unstable_by_key(|entry| entry.number);
}

// The start of a box, where the entries before a place are of lower boxes.
fn start_from(entries: &[Entry], place: usize, number: usize) -> usize
    requires rising { IsNonDecreasingBy (λ (entry : Entry). entry.number) entries.now }
    requires inside { place ≤ length entries.now }
    requires lower { (q : ℕ) → q < place → number_at entries.now q < number }
    ensures start { IsStart (length entries.now) (number_at entries.now) number result }
    ensures lower { (q : ℕ) → q < result → number_at entries.now q < number }
{
    let mut next = place;
    while next < entries.len() && entries[next].number < number {
        next += 1;
    }
    next
}

// The starts of this many boxes, and the end behind them.
pub fn starts_of(alloc: Global, entries: &[Entry], count: usize) -> Result<Vec<usize>, AllocError>
    requires rising { IsNonDecreasingBy (λ (entry : Entry). entry.number) entries.now }
    requires few { count ≤ most_boxes }
    ensures len { IfOk result (λ starts. length starts.items ≡ count + 1) }
    ensures starts { IfOk result (λ starts. AreStarts (length entries.now) (number_at entries.now) starts.items) }
{
    let mut starts = Vec::with_capacity(alloc, count + 1)?;
    let mut next = 0;
    for number in 0..count + 1 {
        next = start_from(entries, next, number);
        starts.push(next)?;
    }
    Ok(starts)
}

// The indexes of entries.
pub fn indexes_of(alloc: Global, entries: &[Entry]) -> Result<Vec<usize>, AllocError>
    ensures { IfOk result (λ order. order.items ≡ map (λ (entry : Entry). entry.index) entries.now) }
{
    entries.iter().map(|entry| entry.index).collect(alloc)
}

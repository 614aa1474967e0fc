//! The search row by row of boxes.
ghost use Rattle.std.specs.Prelude.{◌≡◌, ℕ, ◌+◌, ◌<◌, ◌≤◌, ◌^◌, length, OnOk, ℤ, ◌-ℤ◌, ◌≤ℤ◌, unsigned_abs};
ghost use Rattle.smol_geom.specs.Axes.{EachAxis, IsWithin, on_axis};
ghost use Rattle.smol_geom.specs.declared.place.Place.{Place};
ghost use Rattle.smol_cells.specs.Numbers.{count_on};
ghost use Rattle.smol_pairs.specs.Searching.{HaveMetAt, HaveMetFrom, AreBoxesIn, IsGrownIn, IsIn, IsInBoxes, IsInLayer, place_in};

use crate::keys::Keys;
use crate::looking::look_along;
use crate::search::Search;
use smol_cells::Boxes;
use smol_geom::{Cuboid, Place};
use smol_streams::Streams;
use std::alloc::AllocError;
use std::ops::Range;

// How far from the origin a molecule may stand on an axis, in ticks.
const FARTHEST: i64 = 1 << 57;

/// Looks from each of these places in box order at all that are near it and behind it.
pub fn look_from(
    search: &Search,
    streams: &mut Streams,
    places: Range<usize>,
    keys: &mut Keys,
) -> Result<(), AllocError>
    requires places { places.end ≤ length search.now.seekers.now }
    requires seed { streams.old ≡ search.now.seed }
    ensures grown { OnOk result (IsGrownIn search.now keys.old keys.new) }
    ensures met { OnOk result (HaveMetFrom search.now keys.new places.start places.end) }
    ensures seed { streams.new ≡ streams.old }
{
    for place in places.start..places.end {
        look_near(search, streams, place, keys)?;
    }
    Ok(())
}

// Looks at those near a place and behind it.
fn look_near(
    search: &Search,
    streams: &mut Streams,
    place: usize,
    keys: &mut Keys,
) -> Result<(), AllocError>
    requires place { place < length search.now.seekers.now }
    requires seed { streams.old ≡ search.now.seed }
    ensures grown { OnOk result (IsGrownIn search.now keys.old keys.new) }
    ensures met { OnOk result ((q : ℕ) → place < q → q < length search.now.seekers.now → HaveMetAt search.now keys.new place q) }
    ensures seed { streams.new ≡ streams.old }
{
    let boxes = boxes_around(search, place);
    look_in_layers(search, streams, place, &boxes, keys)
}

// Looks at those behind a place in these boxes.
fn look_in_layers(
    search: &Search,
    streams: &mut Streams,
    place: usize,
    boxes: &Boxes,
    keys: &mut Keys,
) -> Result<(), AllocError>
    requires place { place < length search.now.seekers.now }
    requires boxes { AreBoxesIn search.now.cells.now.grid boxes.now }
    requires seed { streams.old ≡ search.now.seed }
    ensures grown { OnOk result (IsGrownIn search.now keys.old keys.new) }
    ensures met { OnOk result ((q : ℕ) → place < q → q < length search.now.seekers.now → IsInBoxes search.now boxes.now q → HaveMetAt search.now keys.new place q) }
    ensures seed { streams.new ≡ streams.old }
{
    for layer in boxes.first[2]..boxes.last[2] + 1 {
        look_in_layer(search, streams, place, boxes, layer, keys)?;
    }
    Ok(())
}

// Looks at those behind a place in the boxes of a layer.
fn look_in_layer(
    search: &Search,
    streams: &mut Streams,
    place: usize,
    boxes: &Boxes,
    layer: usize,
    keys: &mut Keys,
) -> Result<(), AllocError>
    requires place { place < length search.now.seekers.now }
    requires boxes { AreBoxesIn search.now.cells.now.grid boxes.now }
    requires layer { layer < count_on search.now.cells.now.grid.counts 2 }
    requires seed { streams.old ≡ search.now.seed }
    ensures grown { OnOk result (IsGrownIn search.now keys.old keys.new) }
    ensures met { OnOk result ((q : ℕ) → place < q → q < length search.now.seekers.now → IsInLayer search.now boxes.now layer q → HaveMetAt search.now keys.new place q) }
    ensures seed { streams.new ≡ streams.old }
{
    for row in boxes.first[1]..boxes.last[1] + 1 {
        let run = search.cells.run(boxes.first[0], boxes.last[0], row, layer);
        look_along(search, streams, place, run, keys)?;
    }
    Ok(())
}

// The boxes of all that are within reach of a place on each axis.
fn boxes_around(search: &Search, place: usize) -> Boxes
    requires { place < length search.now.seekers.now }
    ensures inside { AreBoxesIn search.now.cells.now.grid result }
    ensures has { (q : ℕ) → q < length search.now.seekers.now
        → EachAxis (λ axis. unsigned_abs (on_axis (place_in search.now place).0 axis -ℤ on_axis (place_in search.now q).0 axis) ≤ search.now.reach)
        → IsInBoxes search.now result q }
{
    let around = around(&search.seekers[place].place, search.reach);
    search.cells.grid().boxes(&around)
}

// What is within reach of a place on each axis, as far as molecules may stand.
fn around(place: &Place, reach: u64) -> Cuboid
    requires { IsWithin (2 ^ 57) place.now.0 }
    ensures low { IsWithin (2 ^ 57) result.low }
    ensures high { IsWithin (2 ^ 57) result.high }
    ensures has { (other : Place) → IsWithin (2 ^ 57) other.0
        → EachAxis (λ axis. unsigned_abs (on_axis place.now.0 axis -ℤ on_axis other.0 axis) ≤ reach) → IsIn result other }
{
    let [x, y, z] = place.0;
    Cuboid {
        low: [below(x, reach), below(y, reach), below(z, reach)],
        high: [above(x, reach), above(y, reach), above(z, reach)],
    }
}

// The least coordinate within reach.
fn below(x: i64, reach: u64) -> i64
    requires { unsigned_abs x ≤ 2 ^ 57 }
    ensures size { unsigned_abs result ≤ 2 ^ 57 }
    ensures least { (y : ℤ) → unsigned_abs y ≤ 2 ^ 57 → unsigned_abs (x -ℤ y) ≤ reach → result ≤ℤ y }
{
    if x.abs_diff(-FARTHEST) <= reach {
        -FARTHEST
    } else {
        x - reach as i64
    }
}

// The greatest coordinate within reach.
fn above(x: i64, reach: u64) -> i64
    requires { unsigned_abs x ≤ 2 ^ 57 }
    ensures size { unsigned_abs result ≤ 2 ^ 57 }
    ensures greatest { (y : ℤ) → unsigned_abs y ≤ 2 ^ 57 → unsigned_abs (x -ℤ y) ≤ reach → y ≤ℤ result }
{
    if x.abs_diff(FARTHEST) <= reach {
        FARTHEST
    } else {
        x + reach as i64
    }
}

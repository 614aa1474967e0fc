ghost use Rattle.std.specs.Prelude.{◌≡◌, ℕ, ◌+◌, ◌^◌, ◌<◌, ◌≤◌, All, vec_len};
ghost use Rattle.smol_cells.specs.Numbers.{product};
ghost use Rattle.smol_cells.specs.Starts.{size_of};

use crate::grid::Grid;
use std::ops::Range;

/// Which things are in which boxes of a grid: those of a box stand side by side.
#[derive(Drop)]
pub struct Cells {
    pub(crate) grid: Grid,
    pub(crate) starts: Vec<usize>,
    pub(crate) items: Vec<usize>,
    pub(crate) in_order: bool,
    pub(crate) count: usize,
    ghost boxed: { vec_len starts ≡ product grid.counts + 1 },
    ghost small: { size_of in_order items.items count < 2 ^ 64 },
    ghost inside: { All (λ (start : ℕ). start ≤ size_of in_order items.items count) starts.items },
    ghost known: { All (λ (item : ℕ). item < count) items.items },
}

impl Cells {
    ghost use Rattle.std.specs.Prelude.{◌↔◌, length, List};
    ghost use Rattle.smol_geom.specs.declared.place.Place.{Place};
    ghost use Rattle.smol_cells.specs.Numbers.{box_at, count_on};
    ghost use Rattle.smol_cells.specs.Placed.{AreInOrder, IsInRow, place_at, start_at};

    /// The grid of the boxes.
    pub fn grid(&self) -> &Grid
        ensures { result.now ≡ self.now.grid }
    {
        &self.grid
    }

    /// The positions of what is in the boxes from the first to the last one along x, in the row on y and the layer on z.
    pub fn run(&self, first: usize, last: usize, row: usize, layer: usize) -> Range<usize>
        requires ordered { first ≤ last }
        requires last { last < count_on self.now.grid.counts 0 }
        requires row { row < count_on self.now.grid.counts 1 }
        requires layer { layer < count_on self.now.grid.counts 2 }
        ensures start { result.start ≡ start_at self.now (box_at self.now.grid.counts first row layer) }
        ensures end { result.end ≡ start_at self.now (box_at self.now.grid.counts last row layer + 1) }
        ensures inside { result.end ≤ size_of self.now.in_order self.now.items.items self.now.count }

        // Of places in order the positions are exactly those at which the place's box is one of these.
        ensures holds { (places : List Place) → AreInOrder places self.now → (q : ℕ)
            → ((result.start ≤ q) × (q < result.end)) ↔ ((q < length places) × IsInRow self.now.grid first last row layer (place_at places q)) }
        ensures within { (places : List Place) → AreInOrder places self.now → (result.start ≤ result.end) × (result.end ≤ length places) }
    {
        let first = self.grid.number_at(first, row, layer);
        let last = self.grid.number_at(last, row, layer);
        self.start(first)..self.start(last + 1)
    }

    // The position at which a box starts.
    fn start(&self, number: usize) -> usize
        requires { number ≤ product self.now.grid.counts }
        ensures value { result ≡ start_at self.now number }
        ensures inside { result ≤ size_of self.now.in_order self.now.items.items self.now.count }
    {
        self.starts[number]
    }
}

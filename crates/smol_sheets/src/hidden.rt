//! Whether molecules are hidden from each other by panels and walls.
ghost use Rattle.std.specs.Prelude.{◌≡◌, ◌^◌, int_lt};
ghost use Rattle.smol_meaning.specs.Folds.{IsSheet};
ghost use Rattle.smol_meaning.specs.Sight.{is_below, passes};
ghost use Rattle.smol_meaning.specs.Sighted.{IsPlaceWithin};

use crate::Panels;
use crate::boxes::stretch;
use crate::sheet::{across, line_meets};
use smol_geom::Place;
use smol_meaning::{Response, Sheet};
use smol_types::Mol;

impl<'a> Panels<'a> {
    ghost use Rattle.std.specs.Prelude.{◌≡◌, ◌<◌, ◌≤◌, ◌+◌, ◌^◌, Some, true, false, length, slice_get};
    ghost use Rattle.smol_meaning.specs.Plates.{Plate};
    ghost use Rattle.smol_meaning.specs.Seen.{plates_of};
    ghost use Rattle.smol_meaning.specs.Sight.{are_hidden, bars, is_barred};
    ghost use Rattle.smol_meaning.specs.Folds.{IsSheet};
    ghost use Rattle.smol_meaning.specs.Sighted.{IsPlaceWithin};
    ghost use Rattle.smol_sheets.specs.Sheets.{NoneBars};

    /// Whether two molecules are hidden from each other: one of them is barred from the other.
    #[tactic(auto, unfolding(smol_meaning::specs::Sight::are_hidden))]
    pub fn are_hidden(&self, a: &Mol, b: &Mol) -> bool
        requires a { IsPlaceWithin (2 ^ 57) a.now.place }
        requires b { IsPlaceWithin (2 ^ 57) b.now.place }
        requires a_species { a.now.species < length self.now.species }
        requires b_species { b.now.species < length self.now.species }
        ensures { result ≡ are_hidden self.now a.now b.now }
    {
        self.is_barred(a.species, &a.place, &b.place)
            || self.is_barred(b.species, &b.place, &a.place)
    }

    /// Whether some panel or wall doesn't let a molecule of this species through on its straight way from a to b.
    pub fn is_barred(&self, species: u16, a: &Place, b: &Place) -> bool
        requires species { species < length self.now.species }
        requires a { IsPlaceWithin (2 ^ 58) a.now }
        requires b { IsPlaceWithin (2 ^ 58) b.now }
        ensures { result ≡ is_barred self.now species a.now b.now }
    {
        let first = self.first_in_turn();
        if self.is_barred_before(first, species, a, b) {
            return true;
        }
        self.is_barred_from(first, species, a, b)
    }

    // Whether some panel doesn't let it through, or else none before the first that is looked at in turn. Those that the line meets are
    // near it.
    fn is_barred_before(&self, first: usize, species: u16, a: &Place, b: &Place) -> bool
        requires first { first ≤ length self.now.panels }
        requires species { species < length self.now.species }
        requires a { IsPlaceWithin (2 ^ 58) a.now }
        requires b { IsPlaceWithin (2 ^ 58) b.now }
        ensures barred { result ≡ true → is_barred self.now species a.now b.now ≡ true }
        ensures free { result ≡ false → NoneBars self.now species a.now b.now 0 first }
    {
        if first == 0 {
            return false;
        }
        for number in self.touching(&stretch(a, b)) {
            if self.bars_at(number, species, a, b) {
                return true;
            }
        }
        false
    }

    // Whether some panel or wall from this number on doesn't let it through.
    fn is_barred_from(&self, first: usize, species: u16, a: &Place, b: &Place) -> bool
        requires species { species < length self.now.species }
        requires a { IsPlaceWithin (2 ^ 58) a.now }
        requires b { IsPlaceWithin (2 ^ 58) b.now }
        ensures barred { result ≡ true → is_barred self.now species a.now b.now ≡ true }
        ensures free { result ≡ false → NoneBars self.now species a.now b.now first (length self.now.panels + length self.now.walls) }
    {
        for number in first..self.sheets().len() {
            if self.bars_at(number, species, a, b) {
                return true;
            }
        }
        false
    }

    // Whether the panel or wall of this number doesn't let it through.
    fn bars_at(&self, number: usize, species: u16, a: &Place, b: &Place) -> bool
        requires number { number < length self.now.panels + length self.now.walls }
        requires species { species < length self.now.species }
        requires a { IsPlaceWithin (2 ^ 58) a.now }
        requires b { IsPlaceWithin (2 ^ 58) b.now }
        ensures { (plate : Plate) → slice_get (plates_of self.now) number ≡ Some plate → result ≡ bars species a.now b.now plate }
    {
        let sheets = self.sheets();
        self.bars(number as u16, &sheets[number], species, a, b)
    }

    // Whether the panel or wall of this number stands on the line from a to b and doesn't let through what comes from a.
    fn bars(&self, number: u16, sheet: &Sheet, species: u16, a: &Place, b: &Place) -> bool
        requires number { number < length self.now.panels + length self.now.walls }
        requires sheet { IsSheet sheet.now }
        requires species { species < length self.now.species }
        requires a { IsPlaceWithin (2 ^ 58) a.now }
        requires b { IsPlaceWithin (2 ^ 58) b.now }
        ensures { (plate : Plate) → slice_get (plates_of self.now) number ≡ Some plate → plate.sheet ≡ sheet.now
            → result ≡ bars species a.now b.now plate }
    {
        line_meets(sheet, a, b)
            && !passes(&self.effect(number, is_below(sheet, a), species).response)
    }
}

// Whether what a face does lets through.
fn passes(response: &Response) -> bool
    ensures { result ≡ passes response.now }
{
    match response {
        Response::Reflect => false,
        Response::Absorb { .. } => false,
        Response::Jump { .. } => false,
        Response::Pass => true,
    }
}

// Whether a place is on the lesser side of a panel or a wall.
fn is_below(sheet: &Sheet, place: &Place) -> bool
    requires sheet { IsSheet sheet.now }
    requires place { IsPlaceWithin (2 ^ 58) place.now }
    ensures { result ≡ is_below sheet.now place.now }
{
    let (axis, plane) = across(sheet);
    place.0[axis as usize] < plane
}

//! Laws of ways and of runs, whatever the configuration, the seed and the move. These functions do nothing: the laws are their contracts.
ghost use Rattle.std.specs.Prelude.{◌≡◌, ℕ, ◌<◌, All, Bool, Ok, length, true};
ghost use Rattle.smol_geom.specs.declared.cuboid.Cuboid.{Cuboid};
ghost use Rattle.smol_geom.specs.declared.place.Place.{Place};
ghost use Rattle.smol_geom.specs.declared.place.Step3.{Step3};
ghost use Rattle.smol_types.specs.declared.draft.Draft.{Draft};
ghost use Rattle.smol_types.specs.Sound.{IsSound};
ghost use Rattle.smol_types.specs.State.{Fits};
ghost use Rattle.smol_meaning.specs.Box.{Confines, IsClosed, IsInside};
ghost use Rattle.smol_meaning.specs.Crossing.{CrossesNone};
ghost use Rattle.smol_meaning.specs.Motion.{Move};
ghost use Rattle.smol_meaning.specs.Moves.{EndsAmong, EndsWithin, IsMove};
ghost use Rattle.smol_meaning.specs.Run.{run_of};
ghost use Rattle.smol_meaning.specs.Seen.{plates_of, way};
ghost use Rattle.smol_meaning.specs.Stretch.{Stretch};

/// No way crosses a face that reflects what its molecule is then.
pub fn no_way_crosses()
    ensures { (draft : Draft) (species : ℕ) (from : Place) (by : Step3) → CrossesNone (plates_of draft) species from by }
{}

/// A way that starts inside a box that is closed and reflecting for some species, among them its molecule's, has each of its true
/// points in the box's closed region, and ends inside unless it is absorbed.
pub fn ways_are_confined()
    ensures { (draft : Draft) (species : ℕ) (from : Place) (by : Step3) (among : ℕ → Bool) (box : Cuboid) → IsSound draft
        → IsMove draft.dims from by → among species ≡ true → IsClosed draft.dims (plates_of draft) among box → IsInside box from
        → Confines (plates_of draft) species from by box }
{}

/// A way ends on an odd place, no farther out than its start or the farthest plane and its displacement, and where an
/// axis isn't in use it ends where it starts. It ends as a species that there is.
pub fn ways_end_near()
    ensures species { (draft : Draft) (species : ℕ) (from : Place) (by : Step3) → IsSound draft → species < length draft.species
        → EndsAmong (length draft.species) (way draft species from by) }
    ensures place { (draft : Draft) (species : ℕ) (from : Place) (by : Step3) → IsSound draft → IsMove draft.dims from by
        → EndsWithin draft.dims from by (way draft species from by) }
{}

/// Each state of a run fits its configuration: serials ascend, coordinates are odd and no farther out than the steps made can
/// lead, and so on.
pub fn each_state_fits()
    ensures { (draft : Draft) (seed : ℕ) (run : Stretch) → IsSound draft → run_of draft seed ≡ Ok run → All (Fits draft) run.states }
{}

/// No way of a run crosses a face that reflects what its molecule is then, be it a molecule's motion or the way of a product.
pub fn no_way_of_a_run_crosses()
    ensures { (draft : Draft) (seed : ℕ) (run : Stretch) → run_of draft seed ≡ Ok run
        → All (λ (move : Move). CrossesNone (plates_of draft) move.species move.from move.by) run.moves }
{}

/// Each way of a run that starts inside a closed reflecting box stays in its closed region, and ends inside unless it is absorbed.
pub fn ways_of_a_run_are_confined()
    ensures { (draft : Draft) (seed : ℕ) (run : Stretch) → IsSound draft → run_of draft seed ≡ Ok run
        → All (λ (move : Move). (among : ℕ → Bool) (box : Cuboid) → among move.species ≡ true
        → IsClosed draft.dims (plates_of draft) among box → IsInside box move.from
        → Confines (plates_of draft) move.species move.from move.by box) run.moves }
{}

//! Laws that closed reflecting boxes exist: what makes one. These functions do nothing: the laws are their contracts.
ghost use Rattle.std.specs.Prelude.{◌≡◌, ℕ, ◌<◌, All, Bool, length, true};
ghost use Rattle.smol_geom.specs.declared.cuboid.Cuboid.{Cuboid};
ghost use Rattle.smol_types.specs.declared.draft.Draft.{Draft};
ghost use Rattle.smol_types.specs.declared.wall.Letter.TheVariants.{R};
ghost use Rattle.smol_types.specs.declared.wall.Wall.{Wall};
ghost use Rattle.smol_types.specs.Sound.{IsSound};
ghost use Rattle.smol_meaning.specs.Box.{IsClosed};
ghost use Rattle.smol_meaning.specs.Seen.{IsClosedBox, plates_of};
ghost use Rattle.smol_confined.specs.Example.{HasBoxAndDoors, small_box};
ghost use Rattle.smol_confined.specs.Built.{IsBuilt, IsNoChangeIn, IsNoJumpIn, box_of_walls};

/// Panels that reflect on the side of the box, or walls of the letter r, at each face on the axes in use make a closed reflecting
/// box, where no panel that jumps and no periodic wall meets it: for some species, be it one alone, where they do so for each of
/// these and no panel that meets the box makes another species of one of these, and for every species where they do so for each.
/// What stands apart from the box doesn't matter, be it periodic walls around it or a jump between two panels elsewhere.
pub fn faces_that_reflect_make_a_box()
    ensures some { (draft : Draft) (among : ℕ → Bool) (box : Cuboid) → IsSound draft
        → ((species : ℕ) → among species ≡ true → IsBuilt draft species box) → All (IsNoChangeIn draft among box) draft.panels
        → IsClosed draft.dims (plates_of draft) among box }
    ensures every { (draft : Draft) (box : Cuboid) → IsSound draft → ((species : ℕ) → species < length draft.species → IsBuilt draft species box)
        → IsClosedBox draft box }
{}

/// Walls that all have the letter r make a closed reflecting box: for some species, be it one alone, where no panel meets it that
/// jumps for one of these or makes another species of one, and for every species where none does that jumps for one.
pub fn walls_that_reflect_make_a_box()
    ensures some { (draft : Draft) (among : ℕ → Bool) → IsSound draft → All (λ (wall : Wall). wall.letter ≡ R) draft.walls
        → ((species : ℕ) → among species ≡ true → All (IsNoJumpIn draft species (box_of_walls draft.walls)) draft.panels)
        → All (IsNoChangeIn draft among (box_of_walls draft.walls)) draft.panels
        → IsClosed draft.dims (plates_of draft) among (box_of_walls draft.walls) }
    ensures every { (draft : Draft) → IsSound draft → All (λ (wall : Wall). wall.letter ≡ R) draft.walls
        → ((species : ℕ) → species < length draft.species → All (IsNoJumpIn draft species (box_of_walls draft.walls)) draft.panels)
        → IsClosedBox draft (box_of_walls draft.walls) }
{}

/// So six panels that reflect inwards make a box for both species of a configuration, within periodic walls and with a jump between
/// two panels elsewhere.
pub fn six_panels_within_periodic_walls_make_a_box()
    ensures { (draft : Draft) → IsSound draft → HasBoxAndDoors draft → IsClosedBox draft small_box }
{}

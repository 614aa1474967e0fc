ghost use Rattle.std.specs.Prelude.{◌≡◌, ℕ, ◌<◌, Bool, length, true};
ghost use Rattle.smol_geom.specs.declared.cuboid.Cuboid.{Cuboid};
ghost use Rattle.smol_geom.specs.Moments.{IsMoment};
ghost use Rattle.smol_meaning.specs.declared.way.Standing.TheVariants.{Goes};
ghost use Rattle.smol_meaning.specs.Box.{Confines, EndsInside, IsClosed, IsInside};
ghost use Rattle.smol_meaning.specs.Crossing.{CrossesNone};
ghost use Rattle.smol_meaning.specs.Folds.{FoldFits, StandingFits};
ghost use Rattle.smol_meaning.specs.Moves.{EndsAmong, EndsWithin, IsMove};
ghost use Rattle.smol_meaning.specs.Seen.{plates_of, way};
ghost use Rattle.smol_meaning.specs.Way.{after_moment};
ghost use Rattle.smol_travel.specs.Meetings.{IsOfSpecies};

use crate::decision::decision;
use crate::folding::done;
use crate::leg::{Leg, end_of};
use crate::meeting::next_meeting;
use crate::{Panels, Travelled};
use smol_geom::{Fold, Moment, Place, Step3};
use smol_meaning::Standing;

const STRAIGHT: Fold = Fold {
    sign: [1, 1, 1],
    shift: [0, 0, 0],
};

const BEGINNING: Moment = Moment {
    num: 0,
    den: 1,
    axis: 0,
};

/// Where a molecule of a species ends that moves from a place by a displacement, and as which species. Takes no memory.
pub fn travel(panels: &Panels, species: u16, from: Place, by: Step3) -> Travelled
    requires species { species < length panels.now.species }
    requires moving { IsMove panels.now.dims from by }
    ensures way { result ≡ way panels.now species from by }
    ensures crosses_none { CrossesNone (plates_of panels.now) species from by }
    ensures end { EndsWithin panels.now.dims from by result }
    ensures known { EndsAmong (length panels.now.species) result }
    ensures confined { (among : ℕ → Bool) (box : Cuboid) → among species ≡ true
        → IsClosed panels.now.dims (plates_of panels.now) among box → IsInside box from
        → Confines (plates_of panels.now) species from by box }
    ensures inside { (among : ℕ → Bool) (box : Cuboid) → among species ≡ true
        → IsClosed panels.now.dims (plates_of panels.now) among box → IsInside box from
        → EndsInside box result }
{
    let mut fold = STRAIGHT;
    let mut present = species;
    let mut last = BEGINNING;
    while let Some(next) = next_meeting(panels, &Leg { from, by, fold }, &last) {
        match outcome(panels, &Leg { from, by, fold }, &next, present) {
            Standing::Goes {
                fold: changed,
                species: made,
            } => {
                fold = changed;
                present = made;
                last = next;
            }
            Standing::Gone { number } => return Travelled::Absorbed(number),
        }
    }
    Travelled::At {
        place: end_of(&Leg { from, by, fold }),
        species: present,
    }
}

// What the moment makes of the fold and of the species.
fn outcome(panels: &Panels, leg: &Leg, moment: &Moment, species: u16) -> Standing
    requires moving { IsMove panels.now.dims leg.now.from leg.now.by }
    requires fold { FoldFits panels.now.dims leg.now.from leg.now.by leg.now.fold }
    requires moment { IsMoment leg.now.from leg.now.by moment.now }
    requires species { species < length panels.now.species }
    ensures value { result ≡ after_moment (plates_of panels.now) leg.now.from leg.now.by (Goes leg.now.fold species) moment.now }
    ensures fits { StandingFits panels.now.dims leg.now.from leg.now.by result }
    ensures known { IsOfSpecies panels.now result }
{
    let effect = decision(panels, leg, moment, species);
    done(leg, moment, effect)
}

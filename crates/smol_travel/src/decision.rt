//! What decides where panels and walls are met.
ghost use Rattle.std.specs.Prelude.{◌≡◌, ℕ, ◌+◌, ◌<◌, ◌≤◌, ◌⊎◌, [], ◌∷◌, List, length};
ghost use Rattle.smol_geom.specs.Moments.{IsMoment};
ghost use Rattle.smol_types.specs.Sound.{IsSound};
ghost use Rattle.smol_meaning.specs.Plates.{precedence};
ghost use Rattle.smol_meaning.specs.Seen.{plates_of};
ghost use Rattle.smol_meaning.specs.Way.{deciding_at};
ghost use Rattle.smol_travel.specs.Legs.{IsLeg};
ghost use Rattle.smol_travel.specs.Looked.{ComesFirst, IsBestBut};

use crate::leg::{Leg, goes_up, plane_at, span_of};
use crate::meeting::is_met;
use smol_geom::Moment;
use smol_meaning::{Effect, Response};
use smol_sheets::Panels;

// The best of the effects looked at so far, and the number of its panel or wall. Where none is met, the number is behind all.
#[derive(Clone, Copy)]
pub struct Best {
    pub number: usize,
    pub effect: Effect,
}

// The effect that decides at a moment, for a molecule of this species.
pub fn decision(panels: &Panels, leg: &Leg, moment: &Moment, species: u16) -> Effect
    requires leg { IsLeg leg.now }
    requires moment { IsMoment leg.now.from leg.now.by moment.now }
    requires species { species < length panels.now.species }
    ensures value { result ≡ deciding_at (plates_of panels.now) leg.now.from leg.now.by leg.now.fold moment.now species }
    ensures known { result.species < length panels.now.species }
    ensures sound { IsSound panels.now }
{
    let first = panels.first_in_turn();
    let mut best = best_before(panels, first, leg, moment, species);
    for number in first..panels.sheets().len() {
        best = better(panels, number, leg, moment, species, best);
    }
    best.effect
}

// The best effect of panels before the first that is looked at in turn. Each panel that is met is near the leg's span.
fn best_before(panels: &Panels, first: usize, leg: &Leg, moment: &Moment, species: u16) -> Best
    requires first { first ≤ length panels.now.panels }
    requires leg { IsLeg leg.now }
    requires moment { IsMoment leg.now.from leg.now.by moment.now }
    requires species { species < length panels.now.species }
    ensures { IsBestBut panels.now leg.now moment.now species first [] result }
{
    let mut best = Best {
        number: panels.sheets().len(),
        effect: Effect {
            response: Response::Pass,
            species,
        },
    };
    if first == 0 {
        return best;
    }
    for number in panels.touching(&span_of(leg)) {
        best = better(panels, number, leg, moment, species, best);
    }
    best
}

// The best so far, or what the panel or wall of a number does, where it is met and comes first.
fn better(
    panels: &Panels,
    number: usize,
    leg: &Leg,
    moment: &Moment,
    species: u16,
    best: Best,
) -> Best
    requires number { number < length panels.now.panels + length panels.now.walls }
    requires leg { IsLeg leg.now }
    requires moment { IsMoment leg.now.from leg.now.by moment.now }
    requires species { species < length panels.now.species }
    ensures { (bound : ℕ) (left : List ℕ)
        → IsBestBut panels.now leg.now moment.now species bound (number ∷ left) best
        → IsBestBut panels.now leg.now moment.now species bound left result }
{
    let sheets = panels.sheets();
    if !is_met(&sheets[number], plane_at(leg, moment), leg, moment) {
        return best;
    }
    let effect = panels.effect(number as u16, goes_up(leg, moment), species);
    first_of(Best { number, effect }, best)
}

// The one of two that comes first: by precedence, and then by number.
fn first_of(one: Best, other: Best) -> Best
    ensures one { ComesFirst result one }
    ensures other { ComesFirst result other }
    ensures either { (result ≡ one) ⊎ (result ≡ other) }
{
    let first = precedence(&one.effect.response);
    let second = precedence(&other.effect.response);
    if first < second || (first == second && one.number <= other.number) {
        one
    } else {
        other
    }
}

fn precedence(response: &Response) -> u8
    ensures { result ≡ precedence response.now }
{
    match response {
        Response::Reflect => 0,
        Response::Absorb { .. } => 1,
        Response::Jump { .. } => 2,
        Response::Pass => 3,
    }
}

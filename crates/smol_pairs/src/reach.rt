//! How far a molecule reaches on an axis. What is farther away than that reacts with it by no reaction.
ghost use Rattle.std.specs.Prelude.{◌≡◌, ◌^◌, ◌≤◌, ◌==◌, ℕ, IfSome, unsigned_abs};
ghost use Rattle.std.specs.List.{list_any};
ghost use Rattle.smol_num.specs.declared.quantities.Micro.{Micro};
ghost use Rattle.smol_meaning.specs.Sighted.{IsPlaceWithin};
ghost use Rattle.smol_pairs.specs.Reach.{in_ticks, is_out_of_reach, longer, reach_by, reach_of};

use crate::near::are_within_on_each;
use smol_geom::Place;
use smol_num::Micro;
use smol_types::{Config, Reaction};

/// How far a molecule of this species reaches, in ticks: the longest radius of its reactions. Without one it meets nobody.
#[tactic(auto, using(crate::proofs::Reaching::longer_in_turn, crate::proofs::Reaching::longer_none))]
pub fn reach_of(config: &Config, species: u16) -> Option<u64>
    ensures { result ≡ reach_of species config.now.reactions }
{
    let mut reach = None;
    for reaction in config.reactions().iter() {
        reach = longer(reach, reach_by(reaction, species));
    }
    reach
}

// How far a molecule of this species reaches by a reaction.
fn reach_by(reaction: &Reaction, species: u16) -> Option<u64>
    requires radius { IfSome reaction.now.radius (λ (radius : Micro). unsigned_abs radius.0 ≤ 2 ^ 59) }
    ensures { result ≡ reach_by species reaction.now }
{
    if has_reactant(reaction.reactants.as_slice(), species) {
        in_ticks(reaction.radius)
    } else {
        None
    }
}

// Whether a species is among the reactants.
fn has_reactant(reactants: &[u16], species: u16) -> bool
    ensures { result ≡ list_any (λ (reactant : ℕ). reactant == species) reactants.now }
{
    reactants.iter().any(|reactant| *reactant == species)
}

// A radius in ticks. A micro is two of them.
fn in_ticks(radius: Option<Micro>) -> Option<u64>
    requires { IfSome radius (λ (radius : Micro). unsigned_abs radius.0 ≤ 2 ^ 59) }
    ensures { result ≡ in_ticks radius }
{
    match radius {
        Some(radius) => Some(2 * radius.0.unsigned_abs()),
        None => None,
    }
}

/// The longer of two reaches.
pub fn longer(one: Option<u64>, other: Option<u64>) -> Option<u64>
    ensures { result ≡ longer one other }
{
    match (one, other) {
        (Some(one), Some(other)) => Some(one.max(other)),
        (Some(one), None) => Some(one),
        (None, other) => other,
    }
}

/// Whether two places are farther apart on some axis than a molecule reaches.
pub fn is_out_of_reach(reach: u64, a: &Place, b: &Place) -> bool
    requires a { IsPlaceWithin (2 ^ 57) a.now }
    requires b { IsPlaceWithin (2 ^ 57) b.now }
    ensures { result ≡ is_out_of_reach reach a.now b.now }
{
    !are_within_on_each(reach, a, b)
}

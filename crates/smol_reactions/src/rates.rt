//! Reactions of a rate: their thresholds, which need the time of a step.
ghost use Rattle.std.specs.Prelude.{◌≡◌, ◌≤◌, ◌<◌, ◌*◌, ◌<ℤ◌, pos, nat_le, unsigned_abs, length, take, slice_index_or, sum_by, All};
ghost use Rattle.smol_types.specs.declared.reaction.Reaction.{Reaction as TheReaction};
ghost use Rattle.smol_types.specs.Limits.{certain, fastest, latest, most_reactions};
ghost use Rattle.smol_types.specs.Reactions.{share_of};
ghost use Rattle.smol_reactions.specs.Reaction.{HasSmallRate};
ghost use Rattle.smol_reactions.specs.Numbered.{changed};
ghost use Rattle.smol_reactions.specs.Rates.{all_rated, are_enough, rate_alone, rate_sum, rated_species, share_at, threshold_at, with_threshold};

use crate::reactions::reacts_alone;
use smol_num::Threshold;
use smol_rates::{share, threshold_of};
use smol_types::Reaction;

/// How many random words there are.
const CERTAIN: u128 = 4_294_967_296;

// The rate of a reaction where the species is its one reactant.
fn rate_alone(species: u16, reaction: &Reaction) -> u64
    requires { HasSmallRate reaction.now }
    ensures value { result ≡ rate_alone species reaction.now }
    ensures most { result ≤ fastest }
{
    if reacts_alone(species, reaction.reactants.as_slice()) {
        reaction.rate.unwrap_or(0)
    } else {
        0
    }
}

// The rates of the first so many reactions of a species, added up.
fn rate_sum(species: u16, list: &[Reaction], count: usize) -> u64
    requires within { count ≤ length list.now }
    requires few { length list.now ≤ most_reactions }
    requires small { All HasSmallRate list.now }
    ensures value { result ≡ rate_sum species (take count list.now) }
    ensures most { result ≤ count * fastest }
{
    let mut sum = 0;
    for i in 0..count {
        sum += rate_alone(species, &list[i]);
    }
    sum
}

// The share of the reaction of a number in the words of a species.
fn share_at(step: i64, list: &[Reaction], number: usize, species: u16) -> Threshold
    requires within { number < length list.now }
    requires few { length list.now ≤ most_reactions }
    requires small { All HasSmallRate list.now }
    requires step { unsigned_abs step ≤ latest }
    requires step_above { pos 0 <ℤ step }
    ensures { result ≡ share_at (unsigned_abs step) list.now number species }
{
    let before = rate_sum(species, list, number);
    let upto = rate_sum(species, list, number + 1);
    let all = rate_sum(species, list, list.len());
    share(threshold_of(all, step), before, upto, all)
}

// The species of a reaction that has a rate.
fn rated_species(reaction: &Reaction) -> Option<u16>
    ensures { result ≡ rated_species reaction.now.rate reaction.now.reactants }
{
    match (reaction.rate, reaction.reactants.as_slice()) {
        (Some(_), [species]) => Some(*species),
        _ => None,
    }
}

// The threshold of the reaction of a number.
fn threshold_at(step: i64, list: &[Reaction], number: usize) -> Threshold
    requires within { number < length list.now }
    requires few { length list.now ≤ most_reactions }
    requires small { All HasSmallRate list.now }
    requires step { unsigned_abs step ≤ latest }
    requires step_above { pos 0 <ℤ step }
    ensures { (reaction : TheReaction) → result ≡ threshold_at (unsigned_abs step) list.now number (slice_index_or list.now number reaction) }
{
    let reaction = &list[number];
    match rated_species(reaction) {
        Some(species) => share_at(step, list, number, species),
        None => reaction.threshold,
    }
}

// Gives the reaction of this number, if there is one, a threshold.
#[tactic(auto, using(crate::proofs::Lists::changed_past))]
fn set_threshold(list: &mut Vec<Reaction>, number: usize, threshold: Threshold)
    ensures { list.new.items ≡ changed (with_threshold threshold) number list.old.items }
{
    if number < list.len() {
        list[number].threshold = threshold;
    }
}

/// Gives the reactions of a rate their thresholds, where a step takes so many nanos. Takes no memory.
pub fn give_thresholds(list: &mut Vec<Reaction>, step: i64)
    requires few { length list.old.items ≤ most_reactions }
    requires small { All HasSmallRate list.old.items }
    requires step { unsigned_abs step ≤ latest }
    requires step_above { pos 0 <ℤ step }
    ensures { list.new.items ≡ all_rated (unsigned_abs step) list.old.items }
{
    for number in 0..list.len() {
        let threshold = threshold_at(step, list.as_slice(), number);
        set_threshold(list, number, threshold);
    }
}

// How many of the random words are a reaction's in which a molecule of the species reacts alone.
fn share_of(species: u16, reaction: &Reaction) -> u64
    ensures { result ≡ share_of species reaction.now }
{
    if reacts_alone(species, reaction.reactants.as_slice()) {
        reaction.threshold.0
    } else {
        0
    }
}

// Whether the random words are enough for the first-order reactions of a species.
fn has_enough(species: u16, reactions: &[Reaction]) -> bool
    ensures { result ≡ nat_le (sum_by (share_of species) reactions.now) certain }
{
    let mut sum: u128 = 0;
    for reaction in reactions {
        sum += u128::from(share_of(species, reaction));
        if sum > CERTAIN {
            return false;
        }
    }
    true
}

/// Whether the random words are enough for the first-order reactions of each of so many species.
pub fn are_enough(species_count: u16, reactions: &[Reaction]) -> bool
    ensures { result ≡ are_enough species_count reactions.now }
{
    for species in 0..species_count {
        if !has_enough(species, reactions) {
            return false;
        }
    }
    true
}

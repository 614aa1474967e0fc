//! Which reaction a molecule makes alone.
ghost use Rattle.std.specs.Prelude.{◌≡◌, ◌<◌, ◌≤◌, length, sum_by};
ghost use Rattle.smol_types.specs.Limits.{certain};
ghost use Rattle.smol_types.specs.Reactions.{reacts_alone, share_of};
ghost use Rattle.smol_meaning.specs.Events.{lone_reaction, reaction_drawn};
ghost use Rattle.smol_births.specs.Chances.{chance_of};

use smol_streams::Streams;
use smol_types::{Config, Mol, Reaction};

// Whether the species is the one reactant.
fn reacts_alone(species: u16, reactants: &[u16]) -> bool
    ensures { result ≡ reacts_alone species reactants.now }
{
    match reactants {
        [one] => *one == species,
        _ => false,
    }
}

// How many of the random words are a reaction's in which a molecule of the species reacts alone.
fn share_of(species: u16, reaction: &Reaction) -> u64
    ensures { result ≡ share_of species reaction.now }
{
    if reacts_alone(species, reaction.reactants.as_slice()) {
        reaction.threshold.0
    } else {
        0
    }
}

// How many of the random words make a molecule of the species react alone.
pub fn chance_of(species: u16, reactions: &[Reaction]) -> u64
    requires { sum_by (share_of species) reactions.now ≤ certain }
    ensures { result ≡ chance_of reactions.now species }
{
    let mut chance = 0;
    for reaction in reactions {
        chance += share_of(species, reaction);
    }
    chance
}

// The reaction whose words hold this one.
pub fn reaction_drawn(species: u16, reactions: &[Reaction], word: u32) -> Option<u16>
    requires count { length reactions.now ≤ 1024 }
    requires shares { sum_by (share_of species) reactions.now ≤ certain }
    ensures { result ≡ reaction_drawn species 0 0 reactions.now word }
{
    let mut passed = 0;
    for (number, reaction) in reactions.iter().enumerate() {
        passed += share_of(species, reaction);
        if u64::from(word) < passed {
            return Some(number as u16);
        }
    }
    None
}

/// The reaction that a molecule makes alone in step k, if it makes one. Its word lies behind those of
/// its displacement; it is drawn only where some word is a reaction's.
pub fn first_order(config: &Config, m: &Mol, streams: &mut Streams, k: u32) -> Option<u16>
    requires { m.now.species < length config.now.species }
    ensures reaction { result ≡ lone_reaction config.now streams.old k m.now }
    ensures seed { streams.new ≡ streams.old }
{
    let reactions = config.reactions();
    if chance_of(m.species, reactions) == 0 {
        return None;
    }
    let word = streams.first_order_word(m.serial, k);
    reaction_drawn(m.species, reactions, word)
}

//! The motion of molecules in a step, and the word of each that comes with it.
ghost use Rattle.std.specs.Prelude.{◌≡◌, ◌^◌, ◌<◌, All, length};
ghost use Rattle.smol_streams.specs.Displacement.{displacement};
ghost use Rattle.smol_meaning.specs.Events.{lone_reaction, reaction_drawn};
ghost use Rattle.smol_meaning.specs.Motion.{difstep_of, diffusion};
ghost use Rattle.smol_meaning.specs.Moves.{IsMove};
ghost use Rattle.smol_meaning.specs.Placed.{IsPlaced};
ghost use Rattle.smol_step.specs.Diffused.{AreDiffused};

use crate::arrival::arrived;
use crate::setup::Setup;
use smol_geom::Step3;
use smol_streams::{Drawn, Streams};
use smol_types::{Config, Mol};

// The difstep of a molecule's species.
fn difstep_of(config: &Config, m: &Mol) -> u32
    requires { m.now.species < length config.now.species }
    ensures { result ≡ difstep_of config.now m.now.species }
{
    config.species()[m.species as usize].step
}

// How far a molecule of this difstep goes in step k, where nothing is in its way. One that doesn't move draws nothing.
fn displacement(streams: &mut Streams, m: &Mol, k: u32, difstep: u32, dims: u8) -> Step3
    ensures value { result ≡ displacement streams.old m.now.serial k difstep dims }
    ensures seed { streams.new ≡ streams.old }
{
    if difstep == 0 {
        return Step3([0, 0, 0]);
    }
    streams.displace(m.serial, k, difstep, dims)
}

// What a molecule draws in step k: how far it goes, where nothing is in its way, and the word of the reaction that it makes alone.
// What would tell nothing isn't drawn.
fn drawn(setup: &Setup, streams: &mut Streams, k: u32, m: &Mol) -> Drawn
    requires { IsPlaced setup.now (2 ^ 57) m.now }
    ensures by { result.by ≡ (diffusion setup.now streams.old k m.now).by }
    ensures goes { IsMove setup.now.dims m.now.place result.by }
    ensures word { reaction_drawn m.now.species 0 0 setup.now.reactions result.word ≡ lone_reaction setup.now streams.old k m.now }
    ensures seed { streams.new ≡ streams.old }
{
    let config = setup.config();
    let difstep = difstep_of(config, m);
    let reacts = setup.alone().may_react(m.species);
    if difstep > 0 && reacts {
        return streams.draw(m.serial, k, difstep, config.dims());
    }
    let by = displacement(streams, m, k, difstep, config.dims());
    let word = if reacts {
        streams.first_order_word(m.serial, k)
    } else {
        0
    };
    Drawn { by, word }
}

// The reaction that a molecule makes alone in step k at the end of its way, on which it set out as this species and with this word.
// The word tells it while the species is the same. Where the molecule has become one that may react, its word is drawn now.
fn lone_reaction(
    setup: &Setup,
    streams: &mut Streams,
    k: u32,
    began: u16,
    word: u32,
    after: &Mol,
) -> Option<u16>
    requires species { after.now.species < length setup.now.species }
    requires word { after.now.species ≡ began
        → reaction_drawn after.now.species 0 0 setup.now.reactions word ≡ lone_reaction setup.now streams.old k after.now }
    ensures value { result ≡ lone_reaction setup.now streams.old k after.now }
    ensures seed { streams.new ≡ streams.old }
{
    let alone = setup.alone();
    if after.species == began {
        return alone.reaction(after.species, word);
    }
    if !alone.may_react(after.species) {
        return None;
    }
    alone.reaction(after.species, streams.first_order_word(after.serial, k))
}

/// Moves molecules one after the other, and tells of each that is left which reaction it makes alone then: the word of that lies
/// behind those of its displacement. Those that are left come to the front in their order, and beside each its reaction. How many
/// they are.
pub(crate) fn diffuse_in_turn(
    setup: &Setup,
    seed: u64,
    k: u32,
    mols: &mut [Mol],
    reactions: &mut [Option<u16>],
) -> usize
    requires placed { All (IsPlaced setup.now (2 ^ 57)) mols.old }
    requires beside { length reactions.old ≡ length mols.old }
    ensures { AreDiffused setup.now seed k mols.old mols.new reactions.new result }
{
    let mut streams = Streams::of_seed(seed);
    let mut left = 0;
    for i in 0..mols.len() {
        let m = mols[i];
        let Drawn { by, word } = drawn(setup, &mut streams, k, &m);
        if let Some(after) = arrived(setup.panels(), &m, by) {
            reactions[left] = lone_reaction(setup, &mut streams, k, m.species, word, &after);
            mols[left] = after;
            left += 1;
        }
    }
    left
}

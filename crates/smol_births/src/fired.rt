//! Reactions that take place.
ghost use Rattle.std.specs.Prelude.{◌≡◌, ◌^◌, ◌<◌, length};
ghost use Rattle.smol_meaning.specs.Encounters.{Encounter, event_of_two, start_of_two};
ghost use Rattle.smol_meaning.specs.Events.{lone_event};
ghost use Rattle.smol_meaning.specs.Motion.{difstep_of};

use smol_geom::Place;
use smol_meaning::Fired;
use smol_streams::Streams;
use smol_types::{Config, Mol};

// The difstep of a molecule's species.
fn difstep_of(config: &Config, m: &Mol) -> u32
    requires { m.now.species < length config.now.species }
    ensures { result ≡ difstep_of config.now m.now.species }
{
    config.species()[m.species as usize].step
}

// Where the products of two molecules start: at the one that moves less, and on a tie at the first.
fn start_of_two(config: &Config, a: &Mol, b: &Mol) -> Place
    requires first { a.now.species < length config.now.species }
    requires second { b.now.species < length config.now.species }
    ensures { result ≡ start_of_two config.now a.now b.now }
{
    if difstep_of(config, a) <= difstep_of(config, b) {
        a.place
    } else {
        b.place
    }
}

/// The event of a molecule that makes this reaction alone in step k.
pub fn fired_of_one(config: &Config, m: &Mol, r: u16, streams: &mut Streams, k: u32) -> Fired
    ensures event { result ≡ lone_event config.now streams.old k m.now r }
    ensures in_use { result.axis < config.now.dims }
    ensures seed { streams.new ≡ streams.old }
{
    Fired {
        reaction: r,
        start: m.place,
        axis: streams.lone_axis(config.dims(), m.serial, k),
    }
}

/// The event of two molecules that make this reaction in step k. Their ranks are their places in the
/// list after motion, from 0.
pub fn fired_of_two(
    config: &Config,
    a: &Mol,
    b: &Mol,
    ranks: (u32, u32),
    r: u16,
    streams: &mut Streams,
    k: u32,
) -> Fired
    requires first { a.now.species < length config.now.species }
    requires second { b.now.species < length config.now.species }
    requires first_rank { ranks.0 < 2 ^ 20 }
    requires second_rank { ranks.1 < 2 ^ 20 }
    ensures event { let e : Encounter = record { a = a.now; b = b.now; rank_a = ranks.0; rank_b = ranks.1; reaction = r } in
        result ≡ event_of_two config.now streams.old k e }
    ensures in_use { result.axis < config.now.dims }
    ensures seed { streams.new ≡ streams.old }
{
    Fired {
        reaction: r,
        start: start_of_two(config, a, b),
        axis: streams.pair_axis(config.dims(), ranks, k, r),
    }
}

//! The molecules of a run before its first step.
ghost use Rattle.std.specs.Prelude.{◌≡◌, ◌+◌, ◌^◌, ◌<◌, ◌≤◌, length, Ok, OnOk, IfErr, IfOk, IsErrOf};
ghost use Rattle.smol_types.specs.Placings.{IsPlacing, placed_by};
ghost use Rattle.smol_types.specs.State.{Fits};
ghost use Rattle.smol_meaning.specs.Placement.{opening_state, placed_many, placed_one, placed_together};
ghost use Rattle.smol_compart.specs.Fault.{IsFaultOf};

use crate::PlaceFault;
use crate::draw::{first_inside, place_at_try};
use smol_streams::Streams;
use smol_types::{Config, Items, Mol, Placing, State};
use std::alloc::Global;

// The serial of the first molecule.
const FIRST_SERIAL: u64 = 1;

/// The state before the first step, or the first molecule for which no place is found.
#[tactic(auto, unfolding(smol_meaning::specs::Placement::opening_state))]
pub fn place_all(alloc: Global, config: &Config, streams: &mut Streams) -> Result<State, PlaceFault>
    ensures opened { IfOk result (λ state. opening_state config.now streams.old ≡ Ok state) }
    ensures told { IfErr result (IsFaultOf (opening_state config.now streams.old)) }
    ensures fits { IfOk result (Fits config.now) }
    ensures next { IfOk result (λ state. state.next ≤ 1000001) }
    ensures seed { streams.new ≡ streams.old }
{
    let mut mols = Vec::new(alloc);
    let mut next = FIRST_SERIAL;
    for placing in config.placings() {
        place_many(config, streams, &mut mols, placing, next)?;
        next += u64::from(placed_by(placing));
    }
    Ok(State {
        step: 0,
        mols: Items::from_vec(mols),
        next,
    })
}

// How many molecules a statement places.
fn placed_by(placing: &Placing) -> u32
    ensures { result ≡ placed_by placing.now }
{
    match *placing {
        Placing::Mol { n, .. } | Placing::InCompartment { n, .. } => n,
    }
}

// Adds the molecules that a statement places, with serials from this one on.
fn place_many(
    config: &Config,
    streams: &mut Streams,
    mols: &mut Vec<Mol>,
    placing: &Placing,
    serial: u64,
) -> Result<(), PlaceFault>
    requires placing { IsPlacing (length config.now.species) (length config.now.compartments) config.now.walls placing.now }
    requires serial { serial + placed_by placing.now < 2 ^ 62 }
    ensures placed { OnOk result
        (placed_together (Ok mols.old.items) (placed_many config.now streams.old placing.now serial (placed_by placing.now))
        ≡ Ok mols.new.items) }
    ensures told { IfErr result
        (IsFaultOf (placed_many config.now streams.old placing.now serial (placed_by placing.now))) }
    ensures seed { streams.new ≡ streams.old }
{
    for i in 0..placed_by(placing) {
        mols.push(place_one(config, streams, placing, serial + u64::from(i))?)?;
    }
    Ok(())
}

// The molecule of this serial that a statement places. Takes no memory, and tells no want of it.
fn place_one(
    config: &Config,
    streams: &mut Streams,
    placing: &Placing,
    serial: u64,
) -> Result<Mol, PlaceFault>
    requires placing { IsPlacing (length config.now.species) (length config.now.compartments) config.now.walls placing.now }
    requires serial { serial < 2 ^ 62 }
    ensures placed { IfOk result (λ mol. placed_one config.now streams.old placing.now serial ≡ Ok mol) }
    ensures told { IfErr result (IsFaultOf (placed_one config.now streams.old placing.now serial)) }
    ensures takes_none { IsErrOf result PlaceFault.OutOfMemory → ⊥ }
    ensures seed { streams.new ≡ streams.old }
{
    match *placing {
        Placing::Mol { species, at, .. } => Ok(Mol {
            serial,
            species,
            place: place_at_try(config, streams, serial, 0, at),
        }),
        Placing::InCompartment {
            line,
            species,
            compartment,
            ..
        } => {
            match first_inside(config, streams, serial, compartment) {
                Some(place) => Ok(Mol {
                    serial,
                    species,
                    place,
                }),
                None => Err(PlaceFault::NoPlace { line, serial }),
            }
        }
    }
}

//! What commands do to the molecules of a state.
ghost use Rattle.std.specs.Prelude.{◌≡◌, ◌+◌, ◌^◌, ◌≤◌, ◌<◌, ◌++◌, [], IsErrOf, IsOk, OnOk, filter, if◌then◌else◌, length, not};
ghost use Rattle.smol_types.specs.Limits.{most_molecules};
ghost use Rattle.smol_meaning.specs.Commands.{filter_ranked, is_hit, is_meant, map_ranked, molecules_at, turned_into, with_mols, with_more};

use crate::command_fault::CommandFault;
use crate::hits::Chance;
use crate::meant::is_meant;
use smol_geom::Place;
use smol_streams::Streams;
use smol_types::{Config, Items, Mol, State};
use std::alloc::{AllocError, Global};
use std::mem;

// The molecules of a state, which is left without any. Takes no memory.
fn take_mols(alloc: Global, state: &mut State) -> Vec<Mol>
    ensures mols { result.items ≡ state.old.mols }
    ensures left { state.new ≡ with_mols state.old [] }
{
    mem::replace(&mut state.mols, Items::new(alloc)).into_vec()
}

/// Removes the molecules meant.
pub fn kill(alloc: Global, who: &[u16], state: &mut State)
    ensures { state.new ≡ with_mols state.old (filter (λ mol. not (is_meant who.now mol)) state.old.mols) }
{
    let mut mols = take_mols(alloc, state);
    leave_others(who, &mut mols);
    state.mols = Items::from_vec(mols);
}

// Leaves the molecules that aren't meant.
fn leave_others(who: &[u16], mols: &mut Vec<Mol>)
    ensures { mols.new.items ≡ filter (λ mol. not (is_meant who.now mol)) mols.old.items }
{
    mols.retain(|mol| !is_meant(who, mol));
}

/// Removes the molecules that are hit.
pub fn kill_hit(alloc: Global, chance: &Chance, streams: &mut Streams, state: &mut State)
    requires few { length state.old.mols ≤ most_molecules }
    ensures left { state.new
        ≡ with_mols state.old (filter_ranked (λ rank mol.
        not (is_hit streams.old chance.now.command chance.now.step chance.now.who.now chance.now.p rank mol)) 0 state.old.mols) }
    ensures seed { streams.new ≡ streams.old }
{
    let mut mols = take_mols(alloc, state);
    chance.kill(streams, &mut mols);
    state.mols = Items::from_vec(mols);
}

/// Turns the molecules that are hit into another species.
pub fn replace_hit(
    alloc: Global,
    chance: &Chance,
    streams: &mut Streams,
    to: u16,
    state: &mut State,
)
    requires few { length state.old.mols ≤ most_molecules }
    ensures turned { state.new
        ≡ with_mols state.old (map_ranked (λ rank mol.
        if is_hit streams.old chance.now.command chance.now.step chance.now.who.now chance.now.p rank mol
        then turned_into to mol else mol) 0 state.old.mols) }
    ensures seed { streams.new ≡ streams.old }
{
    let mut mols = take_mols(alloc, state);
    chance.replace(streams, to, &mut mols);
    state.mols = Items::from_vec(mols);
}

/// Adds molecules of a species at a place.
pub fn add_molecules(
    alloc: Global,
    config: &Config,
    species: u16,
    n: u32,
    place: &Place,
    state: &mut State,
) -> Result<(), CommandFault>
    requires few { length state.old.mols ≤ most_molecules }
    requires next { state.old.next + n < 2 ^ 64 }
    ensures room { IsOk result → length state.old.mols + n ≤ config.now.max_mol }
    ensures more { OnOk result (state.new ≡ with_more state.old species place.now n) }
    ensures too_many { IsErrOf result CommandFault.TooManyMolecules → config.now.max_mol < length state.old.mols + n }
    ensures unchanged { IsErrOf result CommandFault.TooManyMolecules → state.new ≡ state.old }
{
    if state.mols.len() as u64 + u64::from(n) > u64::from(config.max_mol()) {
        return Err(CommandFault::TooManyMolecules);
    }
    let mut mols = take_mols(alloc, state);
    add_at(&mut mols, state.next, species, n, place)?;
    state.mols = Items::from_vec(mols);
    state.next += u64::from(n);
    Ok(())
}

// Adds so many molecules with serials from this one on.
fn add_at(
    mols: &mut Vec<Mol>,
    first: u64,
    species: u16,
    n: u32,
    place: &Place,
) -> Result<(), AllocError>
    requires { first + n < 2 ^ 64 }
    ensures { OnOk result (mols.new.items ≡ mols.old.items ++ molecules_at first species place.now n) }
{
    mols.reserve(n as usize)?;
    for i in 0..n {
        mols.push(Mol {
            serial: first + u64::from(i),
            species,
            place: *place,
        })?;
    }
    Ok(())
}

//! Reactions of two molecules.
ghost use Rattle.std.specs.Prelude.{◌≡◌, ◌++◌, ◌∷◌, [], ◌<◌, ◌≤◌, All, OnOk, length, map, false, slice_set};
ghost use Rattle.smol_plan.specs.Matching.{serial};
ghost use Rattle.smol_types.specs.declared.state.Mol.{Mol as TheMol};
ghost use Rattle.smol_types.specs.Limits.{last_serial};
ghost use Rattle.smol_types.specs.State.{Ascend};
ghost use Rattle.smol_meaning.specs.Encounters.{Encounter as TheEncounter, candidates_of, encounters_of, event_of_two};
ghost use Rattle.smol_meaning.specs.Events.{is_free};
ghost use Rattle.smol_meaning.specs.Step.{reactions_of_two, remains};
ghost use Rattle.smol_pairs.specs.Encounters.{ranks_of};
ghost use Rattle.smol_pairs.specs.Moved.{AreMoved};
ghost use Rattle.smol_step.specs.Meeting.{IsAt};
ghost use Rattle.smol_step.specs.Turns.{IsTurn};

use crate::reacting::Reacting;
use crate::setup::Setup;
use crate::turn::Turn;
use smol_births::fired_of_two;
use smol_claims::match_pairs;
use smol_edge::Gate;
use smol_pairs::{Encounter, encounters, pairs_of};
use smol_streams::Streams;
use smol_types::{Config, Mol};
use std::alloc::{AllocError, Global};
use std::thread::Threads;

// Lets the two molecules of an encounter react: what they make is noted, and they are free no more.
fn react(
    config: &Config,
    streams: &mut Streams,
    k: u32,
    mols: &[Mol],
    met: &Encounter,
    reacting: &mut Reacting,
) -> Result<(), AllocError>
    requires count { length mols.now ≤ 1000000 }
    requires species { All (λ (mol : TheMol). mol.species < length config.now.species) mols.now }
    requires free { length reacting.old.free.items ≡ length mols.now }
    requires met { (e : TheEncounter) × IsAt config.now streams.old k mols.now met.now e }
    ensures event { OnOk result ((e : TheEncounter) → IsAt config.now streams.old k mols.now met.now e →
        reacting.new.events.items ≡ reacting.old.events.items ++ event_of_two config.now streams.old k e ∷ []) }
    ensures free { (e : TheEncounter) → IsAt config.now streams.old k mols.now met.now e →
        reacting.new.free.items ≡ slice_set (slice_set reacting.old.free.items e.rank_a false) e.rank_b false }
    ensures seed { streams.new ≡ streams.old }
{
    let (a, b) = (met.rank_a as usize, met.rank_b as usize);
    reacting.free[a] = false;
    reacting.free[b] = false;
    let ranks = (met.rank_a, met.rank_b);
    let event = fired_of_two(config, &mols[a], &mols[b], ranks, met.reaction, streams, k);
    reacting.events.push(event)?;
    Ok(())
}

// Lets the molecules of the encounters that fired react.
fn react_together(
    config: &Config,
    streams: &mut Streams,
    k: u32,
    mols: &[Mol],
    encounters: &[Encounter],
    fired: &[bool],
    reacting: &mut Reacting,
) -> Result<(), AllocError>
    requires moved { AreMoved config.now mols.now }
    requires encounters { encounters.now ≡ map ranks_of (encounters_of config.now streams.old k mols.now) }
    requires fired { fired.now ≡ serial (candidates_of config.now streams.old k mols.now) }
    requires free { reacting.old.free.items ≡ map (is_free config.now streams.old k) mols.now }
    ensures events { OnOk result (reacting.new.events.items ≡ reacting.old.events.items
        ++ map (event_of_two config.now streams.old k) (reactions_of_two config.now streams.old k mols.now)) }
    ensures free { OnOk result (reacting.new.free.items
        ≡ map (remains config.now streams.old k (reactions_of_two config.now streams.old k mols.now)) mols.now) }
    ensures seed { streams.new ≡ streams.old }
{
    for (i, met) in encounters.iter().enumerate() {
        if fired[i] {
            react(config, streams, k, mols, met, reacting)?;
        }
    }
    Ok(())
}

/// Lets each two of the free molecules that meet react, first come, first served. Where none meet, nothing is matched.
pub(crate) fn meet<R: Threads + Sync, G: Gate + Sync>(
    rt: &R,
    alloc: Global,
    setup: &Setup,
    turn: &Turn<G>,
    mols: &[Mol],
    reacting: &mut Reacting,
) -> Result<(), AllocError>
    requires turn { IsTurn turn.now.k turn.now.workers }
    requires moved { AreMoved setup.now mols.now }
    requires free { reacting.old.free.items ≡ map (is_free setup.now turn.now.seed turn.now.k) mols.now }
    ensures events { OnOk result (reacting.new.events.items ≡ reacting.old.events.items
        ++ map (event_of_two setup.now turn.now.seed turn.now.k) (reactions_of_two setup.now turn.now.seed turn.now.k mols.now)) }
    ensures free { OnOk result (reacting.new.free.items
        ≡ map (remains setup.now turn.now.seed turn.now.k (reactions_of_two setup.now turn.now.seed turn.now.k mols.now)) mols.now) }
{
    let config = setup.config();
    let (seed, k) = (turn.seed, turn.k);
    let met = encounters(
        rt,
        alloc,
        setup.panels(),
        setup.reaches(),
        mols,
        &reacting.free,
        seed,
        k,
    )?;
    if met.is_empty() {
        return Ok(());
    }
    let pairs = pairs_of(alloc, mols, &met)?;
    let fired = match_pairs(rt, alloc, pairs, turn.workers, turn.gate)?;
    let mut streams = Streams::of_seed(seed);
    react_together(config, &mut streams, k, mols, &met, &fired, reacting)?;
    Ok(())
}

//! The state after a step.
ghost use Rattle.std.specs.Prelude.{◌≡◌, ℕ, ◌+◌, ◌-◌, ◌^◌, ◌≤◌, All, IfOk, length, map};
ghost use Rattle.smol_geom.specs.declared.cuboid.Cuboid.{Cuboid};
ghost use Rattle.smol_types.specs.Limits.{last_serial};
ghost use Rattle.smol_types.specs.Sound.{IsSound};
ghost use Rattle.smol_types.specs.State.{Ascend, Fits};
ghost use Rattle.smol_types.specs.Steps.{last_step};
ghost use Rattle.smol_pairs.specs.Moved.{AreMoved};
ghost use Rattle.smol_meaning.specs.Events.{lone_reaction};
ghost use Rattle.smol_meaning.specs.Motion.{all_diffused};
ghost use Rattle.smol_meaning.specs.Placed.{IsPlaced};
ghost use Rattle.smol_meaning.specs.Seen.{IsClosedBox};
ghost use Rattle.smol_meaning.specs.Step.{events_of, moves_of, next_state, reacted, reactions_of_two, remains, within_limit};
ghost use Rattle.smol_meaning.specs.Ways.{CrossesNoFace, StaysInBoxes};
ghost use Rattle.smol_confined.specs.Boxes.{IsIn, IsInOrGone};
ghost use Rattle.smol_confined.specs.Laws.{LoneProductsAreConfined, PairsAreConfined};
ghost use Rattle.smol_step.specs.Advance.{IsAnswer, step_told};
ghost use Rattle.smol_step.specs.Turns.{IsTurn};

use crate::alone::react_alone;
use crate::newborn::add_newborn;
use crate::parts::diffuse;
use crate::reacting::Reacting;
use crate::removal::keep_free;
use crate::setup::Setup;
use crate::step_fault::StepFault;
use crate::together::meet;
use crate::turn::Turn;
use smol_births::births;
use smol_edge::Gate;
use smol_streams::Streams;
use smol_travel::Panels;
use smol_types::{Config, Items, Mol, State};
use std::alloc::{AllocError, Global};
use std::thread::Threads;

// What reacts among the molecules after motion: first each alone, then each two that meet.
fn react<R: Threads + Sync, G: Gate + Sync>(
    rt: &R,
    alloc: Global,
    setup: &Setup,
    turn: &Turn<G>,
    mols: &[Mol],
    reactions: &[Option<u16>],
) -> Result<Reacting, AllocError>
    requires turn { IsTurn turn.now.k turn.now.workers }
    requires moved { AreMoved setup.now mols.now }
    requires reactions { reactions.now ≡ map (lone_reaction setup.now turn.now.seed turn.now.k) mols.now }
    ensures events { IfOk result (λ r. r.events.items ≡ events_of setup.now turn.now.seed turn.now.k mols.now) }
    ensures free { IfOk result (λ r. r.free.items
        ≡ map (remains setup.now turn.now.seed turn.now.k (reactions_of_two setup.now turn.now.seed turn.now.k mols.now)) mols.now) }
{
    let mut streams = Streams::of_seed(turn.seed);
    let mut reacting = react_alone(alloc, setup.config(), &mut streams, turn.k, mols, reactions)?;
    meet(rt, alloc, setup, turn, mols, &mut reacting)?;
    Ok(reacting)
}

// The state after a step, whatever the limit, of these molecules after its motion.
fn reacted<R: Threads + Sync, G: Gate + Sync>(
    rt: &R,
    alloc: Global,
    setup: &Setup,
    turn: &Turn<G>,
    mols: Vec<Mol>,
    reactions: &[Option<u16>],
    next: u64,
) -> Result<State, AllocError>
    requires sound { IsSound setup.now }
    requires turn { IsTurn turn.now.k turn.now.workers }
    requires count { length mols.items ≤ 1000000 }
    requires serials { Ascend 0 last_serial mols.items }
    requires placed { All (IsPlaced setup.now (2 ^ 57)) mols.items }
    requires reactions { reactions.now ≡ map (lone_reaction setup.now turn.now.seed turn.now.k) mols.items }
    requires next { next ≤ last_serial }
    ensures { IfOk result (λ state. state ≡ reacted setup.now turn.now.seed turn.now.k mols.items next) }
{
    let mut mols = mols;
    let reacting = react(rt, alloc, setup, turn, &mols, reactions)?;
    let births = births(alloc, setup.config(), &reacting.events, next)?;
    keep_free(&mut mols, &reacting.free);
    add_newborn(setup.panels(), &births, &mut mols)?;
    Ok(State {
        step: turn.k,
        mols: Items::from_vec(mols),
        next: next + births.len() as u64,
    })
}

// The state after the step behind a state, whatever the limit.
fn stepped<R: Threads + Sync, G: Gate + Sync>(
    rt: &R,
    alloc: Global,
    setup: &Setup,
    state: State,
    seed: u64,
    workers: u32,
    gate: &G,
) -> Result<State, AllocError>
    requires sound { IsSound setup.now }
    requires fits { Fits setup.now state }
    requires further { state.step + 1 ≤ last_step setup.now.start setup.now.stop setup.now.step }
    requires room { state.next ≤ last_serial - 16000000 }
    ensures { IfOk result (λ after. after
        ≡ reacted setup.now seed (state.step + 1) (all_diffused setup.now seed (state.step + 1) state.mols) state.next) }
{
    let State { step, mols, next } = state;
    let turn = Turn {
        k: step + 1,
        seed,
        workers: workers.clamp(1, 16),
        gate,
    };
    let mut mols = mols.into_vec();
    let reactions = diffuse(rt, alloc, setup, seed, turn.k, &mut mols)?;
    reacted(rt, alloc, setup, &turn, mols, &reactions, next)
}

// The state, where it has no more than so many molecules, and otherwise how many it has. Takes no memory.
fn within_limit(most: u32, state: State) -> Result<State, u64>
    ensures { result ≡ within_limit most state }
{
    let found = state.mols.len() as u64;
    if found > u64::from(most) {
        return Err(found);
    }
    Ok(state)
}

// How the end of a step is told under the limit of molecules. Takes no memory.
fn step_told(most: u32, made: Result<State, AllocError>) -> Result<State, StepFault>
    ensures { result ≡ step_told most made }
{
    match made {
        Ok(state) => match within_limit(most, state) {
            Ok(state) => Ok(state),
            Err(found) => Err(StepFault::TooManyMolecules { found }),
        },
        Err(AllocError) => Err(StepFault::OutOfMemory),
    }
}

/// Makes the step after this state. Its pairs are matched by so many workers, where fewer than 1 count as 1
/// and more than 16 as 16. Neither their number nor the gate changes the answer.
pub fn advance_with<R: Threads + Sync, G: Gate + Sync>(
    rt: &R,
    alloc: Global,
    setup: &Setup,
    state: State,
    seed: u64,
    workers: u32,
    gate: &G,
) -> Result<State, StepFault>
    requires fits { Fits setup.now state }
    requires further { state.step + 1 ≤ last_step setup.now.start setup.now.stop setup.now.step }
    requires room { state.next ≤ last_serial - 16000000 }
    ensures answer { IsAnswer (next_state setup.now seed state) result }
    ensures fits { IfOk result (Fits setup.now) }
    ensures serials { IfOk result (λ after. after.next ≤ state.next + 16000000) }
    ensures no_way_crosses { All (CrossesNoFace setup.now) (moves_of setup.now seed state) }
    ensures ways_are_confined { All (StaysInBoxes setup.now) (moves_of setup.now seed state) }
    ensures boxes_hold { IfOk result (λ after. (box : Cuboid) (serial : ℕ) → IsClosedBox setup.now box
        → IsIn box serial state → IsInOrGone box serial after) }
    ensures products_stay { (box : Cuboid) → IsClosedBox setup.now box → LoneProductsAreConfined setup.now seed state box }
    ensures pairs_stay { (box : Cuboid) → IsClosedBox setup.now box → PairsAreConfined setup.now seed state box }
{
    let most = setup.config().max_mol();
    let made = stepped(rt, alloc, setup, state, seed, workers, gate);
    step_told(most, made)
}

/// Makes the step after this state as `advance_with` does, where what it looks up is made for this step alone.
pub fn advance<R: Threads + Sync, G: Gate + Sync>(
    rt: &R,
    alloc: Global,
    config: &Config,
    panels: &Panels,
    state: State,
    seed: u64,
    workers: u32,
    gate: &G,
) -> Result<State, StepFault>
    requires panels { panels.now ≡ config.now }
    requires fits { Fits config.now state }
    requires further { state.step + 1 ≤ last_step config.now.start config.now.stop config.now.step }
    requires room { state.next ≤ last_serial - 16000000 }
    ensures answer { IsAnswer (next_state config.now seed state) result }
    ensures fits { IfOk result (Fits config.now) }
    ensures serials { IfOk result (λ after. after.next ≤ state.next + 16000000) }
    ensures no_way_crosses { All (CrossesNoFace config.now) (moves_of config.now seed state) }
    ensures ways_are_confined { All (StaysInBoxes config.now) (moves_of config.now seed state) }
    ensures boxes_hold { IfOk result (λ after. (box : Cuboid) (serial : ℕ) → IsClosedBox config.now box
        → IsIn box serial state → IsInOrGone box serial after) }
    ensures products_stay { (box : Cuboid) → IsClosedBox config.now box → LoneProductsAreConfined config.now seed state box }
    ensures pairs_stay { (box : Cuboid) → IsClosedBox config.now box → PairsAreConfined config.now seed state box }
{
    match Setup::of(alloc, config, panels) {
        Ok(setup) => advance_with(rt, alloc, &setup, state, seed, workers, gate),
        Err(AllocError) => Err(StepFault::OutOfMemory),
    }
}

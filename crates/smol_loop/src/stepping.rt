//! The steps of a run, with the commands that are due between them.
ghost use Rattle.std.specs.Prelude.{◌≡◌, ◌+◌, ◌-◌, ◌≤◌, IsErrOf, OnOk, length};
ghost use Rattle.smol_types.specs.Limits.{last_serial, most_steps};
ghost use Rattle.smol_types.specs.Sound.{IsSound};
ghost use Rattle.smol_types.specs.State.{Fits};
ghost use Rattle.smol_types.specs.Steps.{last_step};
ghost use Rattle.smol_meaning.specs.Run.{step_of, steps_from, steps_of};
ghost use Rattle.smol_loop.specs.Parts.{EndsPart, IsReady, Leaves, StaysReady, one_step};

use crate::commands::perform_due;
use crate::faults::fault_of_step;
use crate::held::Held;
use crate::readers::Readers;
use crate::run::{Run, Team};
use crate::run_fault::RunFault;
use smol_commands::Flow;
use smol_edge::Gate;
use smol_step::advance_with;
use smol_types::{Config, Items, Phase, State, last_step};
use std::mem;
use std::thread::Threads;

// How many steps a run makes.
fn steps_of(config: &Config) -> u32
    ensures count { result ≡ steps_of config.now }
    ensures few { result ≤ most_steps }
{
    last_step(config.start(), config.stop(), config.step()) as u32
}

// Makes the step after a state.
#[tactic(auto, unfolding(smol_meaning::specs::Run::step_of))]
fn make_step<R: Threads + Sync, G: Gate + Sync>(
    team: &Team<R, G>,
    run: &Run,
    state: &mut State,
) -> Result<Flow, RunFault>
    requires sound { IsSound run.now.setup.now }
    requires fits { Fits run.now.setup.now state.old }
    requires further { state.old.step + 1 ≤ steps_of run.now.setup.now }
    requires room { state.old.next ≤ last_serial - 16000000 }

    ensures ended { EndsPart (step_of run.now.setup.now run.now.seed state.old) state.new result }
    ensures fits { OnOk result (Fits run.now.setup.now state.new) }
    ensures serials { OnOk result (state.new.next ≤ state.old.next + 16000000) }
    ensures step { OnOk result (state.new.step ≡ state.old.step + 1) }
    ensures no_output { IsErrOf result RunFault.OutputFault → ⊥ }
{
    let k = state.step + 1;
    let nobody = State {
        step: k,
        mols: Items::new(run.alloc),
        next: 0,
    };
    let before = mem::replace(state, nobody);
    match advance_with(
        team.rt,
        run.alloc,
        run.setup,
        before,
        run.seed,
        team.workers,
        team.gate,
    ) {
        Ok(next) => {
            *state = next;
            Ok(Flow::Go)
        }
        Err(fault) => Err(fault_of_step(fault, k)),
    }
}

// Performs the commands that are due at a state, and makes the step after it.
fn perform_and_step<R: Threads + Sync, W: Readers, G: Gate + Sync>(
    team: &Team<R, G>,
    run: &Run,
    held: &mut Held,
    readers: &mut W,
) -> Result<Flow, RunFault>
    requires ready { IsReady run.now.setup.now run.now.seed (W.opened readers.old) held.old }
    requires further { held.old.state.step + 1 ≤ steps_of run.now.setup.now }
    requires room { held.old.state.next + 272000000 ≤ last_serial }

    ensures left { Leaves (one_step run.now.setup.now run.now.seed held.old.state) result held.new.state
        (W.told readers.old) (W.told readers.new) (W.faults readers.old) (W.faults readers.new) }
    ensures ready { StaysReady run.now.setup.now run.now.seed (W.opened readers.new) result held.new }
    ensures serials { OnOk result (held.new.state.next ≤ held.old.state.next + 272000000) }
    ensures step { result ≡ Ok Flow.Go → held.new.state.step ≡ held.old.state.step + 1 }
{
    match perform_due(run, Phase::At(held.state.step), held, readers) {
        Ok(Flow::Go) => make_step(team, run, &mut held.state),
        Ok(Flow::Stop) => Ok(Flow::Stop),
        Err(fault) => Err(fault),
    }
}

/// Makes all steps of a run, with the commands that are due before each of them and after the last one.
pub fn make_steps<R: Threads + Sync, W: Readers, G: Gate + Sync>(
    team: &Team<R, G>,
    run: &Run,
    held: &mut Held,
    readers: &mut W,
) -> Result<Flow, RunFault>
    requires ready { IsReady run.now.setup.now run.now.seed (W.opened readers.old) held.old }
    requires first { held.old.state.step ≡ 0 }
    requires room { held.old.state.next + 1088000256000000 ≤ last_serial }

    ensures left { Leaves (steps_from run.now.setup.now run.now.seed (steps_of run.now.setup.now) held.old.state) result held.new.state
        (W.told readers.old) (W.told readers.new) (W.faults readers.old) (W.faults readers.new) }
    ensures ready { StaysReady run.now.setup.now run.now.seed (W.opened readers.new) result held.new }
    ensures serials { OnOk result (held.new.state.next ≤ held.old.state.next + 1088000256000000) }
{
    let last = steps_of(run.setup.config());
    for _step in 0..last {
        match perform_and_step(team, run, held, readers) {
            Ok(Flow::Go) => {}
            Ok(Flow::Stop) => return Ok(Flow::Stop),
            Err(fault) => return Err(fault),
        }
    }
    perform_due(run, Phase::At(last), held, readers)
}

//! A whole run, whoever reads what it prints.
ghost use Rattle.std.specs.Prelude.{◌≡◌, ◌≢◌, ◌≤◌, IfOk, IsErrOf, OnOk, length};
ghost use Rattle.smol_edge.specs.Faults.{Rose, Tells};
ghost use Rattle.smol_types.specs.State.{Fits};
ghost use Rattle.smol_meaning.specs.Run.{course, run_of};
ghost use Rattle.smol_loop.specs.Parts.{IsReady, Leaves, StaysReady, up_to_end};
ghost use Rattle.smol_loop.specs.Simulation.{EndsAs, EndsIn, Prints};

use crate::commands::{outlet_count, perform_due};
use crate::faults::fault_of_placing;
use crate::held::Held;
use crate::readers::Readers;
use crate::run::{Run, Team};
use crate::run_fault::RunFault;
use crate::stepping::make_steps;
use smol_commands::Flow;
use smol_compart::place_all;
use smol_edge::Gate;
use smol_print::Pages;
use smol_step::{Panels, Setup};
use smol_streams::Streams;
use smol_types::{Config, Phase, State};
use std::alloc::Global;
use std::thread::Threads;

// Performs the commands before the first step, and makes all steps.
fn begin_and_step<R: Threads + Sync, W: Readers, G: Gate + Sync>(
    team: &Team<R, G>,
    run: &Run,
    held: &mut Held,
    readers: &mut W,
) -> Result<Flow, RunFault>
    requires ready { IsReady run.now.setup.now run.now.seed (W.opened readers.old) held.old }
    requires first { held.old.state.step ≡ 0 }
    requires room { held.old.state.next ≤ 1000001 }

    ensures left { Leaves (up_to_end run.now.setup.now run.now.seed held.old.state) result held.new.state
        (W.told readers.old) (W.told readers.new) (W.faults readers.old) (W.faults readers.new) }
    ensures ready { StaysReady run.now.setup.now run.now.seed (W.opened readers.new) result held.new }
    ensures serials { OnOk result (held.new.state.next ≤ 1088000513000001) }
{
    match perform_due(run, Phase::Before, held, readers) {
        Ok(Flow::Go) => make_steps(team, run, held, readers),
        Ok(Flow::Stop) => Ok(Flow::Stop),
        Err(fault) => Err(fault),
    }
}

// Runs a configuration from its opening state on.
fn run_on<R: Threads + Sync, W: Readers, G: Gate + Sync>(
    team: &Team<R, G>,
    run: &Run,
    held: &mut Held,
    readers: &mut W,
) -> Result<Flow, RunFault>
    requires ready { IsReady run.now.setup.now run.now.seed (W.opened readers.old) held.old }
    requires first { held.old.state.step ≡ 0 }
    requires room { held.old.state.next ≤ 1000001 }

    ensures left { Leaves (course run.now.setup.now run.now.seed held.old.state) result held.new.state
        (W.told readers.old) (W.told readers.new) (W.faults readers.old) (W.faults readers.new) }
    ensures ready { StaysReady run.now.setup.now run.now.seed (W.opened readers.new) result held.new }
{
    match begin_and_step(team, run, held, readers) {
        Ok(_) => perform_due(run, Phase::After, held, readers),
        Err(fault) => Err(fault),
    }
}

/// Makes the run of a configuration with the random words of a seed, and gives its last state. There are readers for each of its
/// output files.
#[tactic(auto, unfolding(smol_meaning::specs::Run::run_of))]
pub fn make_run<R: Threads + Sync, W: Readers, G: Gate + Sync>(
    rt: &R,
    alloc: Global,
    config: &Config,
    seed: u64,
    workers: u32,
    readers: &mut W,
    gate: &G,
) -> Result<State, RunFault>
    requires opened { W.opened readers.old ≡ length config.now.outputs }
    requires least { 1 ≤ workers }
    requires most { workers ≤ 16 }
    ensures ended { EndsAs (run_of config.now seed) result }
    ensures last { IfOk result (EndsIn (run_of config.now seed)) }
    ensures fits { IfOk result (Fits config.now) }
    ensures printed { Tells (W.told readers.old) (W.told readers.new) (Prints (run_of config.now seed) result) }
    ensures opened { W.opened readers.new ≡ W.opened readers.old }
    ensures cause { IsErrOf result RunFault.OutputFault → Rose (W.faults readers.old) (W.faults readers.new) }
    ensures no_fault { (result ≢ Err RunFault.OutputFault) → W.faults readers.new ≡ W.faults readers.old }
{
    let mut streams = Streams::of_seed(seed);
    let state = match place_all(alloc, config, &mut streams) {
        Ok(state) => state,
        Err(fault) => return Err(fault_of_placing(fault)),
    };
    let pages = Pages::open(alloc, outlet_count(config))?;
    let panels = Panels::of(alloc, config)?;
    let setup = Setup::of(alloc, config, &panels)?;
    let run = Run {
        alloc,
        setup: &setup,
        seed,
    };
    let mut held = Held {
        state,
        streams,
        pages,
    };
    run_on(&Team { rt, workers, gate }, &run, &mut held, readers)?;
    Ok(held.state)
}

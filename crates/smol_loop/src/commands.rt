//! The commands of a phase are performed, and what each prints goes to those who read it.
ghost use Rattle.std.specs.Prelude.{◌≡◌, ◌+◌, ◌≤◌, ◌<◌, OnOk, length};
ghost use Rattle.smol_types.specs.Limits.{last_serial};
ghost use Rattle.smol_types.specs.Sound.{IsSound};
ghost use Rattle.smol_meaning.specs.Run.{phase_of};
ghost use Rattle.smol_commands.specs.Performs.{performed_at};
ghost use Rattle.smol_commands.specs.Phase.{IsPhase};
ghost use Rattle.smol_loop.specs.Due.{due_at};
ghost use Rattle.smol_loop.specs.Parts.{IsReady, Leaves, StaysReady};

use crate::faults::fault_of_command;
use crate::held::Held;
use crate::readers::Readers;
use crate::run::Run;
use crate::run_fault::RunFault;
use smol_commands::{Flow, due, perform};
use smol_types::{Config, Phase};

/// How many outlets a configuration has: standard output, standard error and its files.
pub fn outlet_count(config: &Config) -> u32
    ensures count { result ≡ 2 + length config.now.outputs }
    ensures sound { IsSound config.now }
{
    2 + config.outputs().len() as u32
}

// Performs a command, and gives what it prints to its readers.
fn perform_command<W: Readers>(
    run: &Run,
    c: u16,
    held: &mut Held,
    readers: &mut W,
) -> Result<Flow, RunFault>
    requires command { c < length run.now.setup.now.commands }
    requires ready { IsReady run.now.setup.now run.now.seed (W.opened readers.old) held.old }
    requires room { held.old.state.next + 1000000 ≤ last_serial }

    ensures left { Leaves (performed_at run.now.setup.now run.now.seed c held.old.state) result held.new.state
        (W.told readers.old) (W.told readers.new) (W.faults readers.old) (W.faults readers.new) }
    ensures ready { StaysReady run.now.setup.now run.now.seed (W.opened readers.new) result held.new }
    ensures serials { OnOk result (held.new.state.next ≤ held.old.state.next + 1000000) }
    ensures step { OnOk result (held.new.state.step ≡ held.old.state.step) }
{
    let config = run.setup.config();
    let count = outlet_count(config);
    let k = held.state.step;
    match perform(
        run.alloc,
        config,
        c,
        &mut held.state,
        &mut held.streams,
        &mut held.pages,
    ) {
        Ok(flow) => match readers.take(count, &mut held.pages) {
            Ok(()) => Ok(flow),
            Err(_) => Err(RunFault::OutputFault),
        },
        Err(fault) => Err(fault_of_command(fault, k)),
    }
}

// Performs a command, where it is due.
fn perform_if_due<W: Readers>(
    run: &Run,
    phase: Phase,
    c: u16,
    held: &mut Held,
    readers: &mut W,
) -> Result<Flow, RunFault>
    requires phase { IsPhase run.now.setup.now phase }
    requires command { c < length run.now.setup.now.commands }
    requires ready { IsReady run.now.setup.now run.now.seed (W.opened readers.old) held.old }
    requires room { held.old.state.next + 1000000 ≤ last_serial }

    ensures left { Leaves (due_at run.now.setup.now run.now.seed phase c held.old.state) result held.new.state
        (W.told readers.old) (W.told readers.new) (W.faults readers.old) (W.faults readers.new) }
    ensures ready { StaysReady run.now.setup.now run.now.seed (W.opened readers.new) result held.new }
    ensures serials { OnOk result (held.new.state.next ≤ held.old.state.next + 1000000) }
    ensures step { OnOk result (held.new.state.step ≡ held.old.state.step) }
{
    let config = run.setup.config();
    let command = &config.commands()[c as usize];
    if !due(&command.when, phase, config) {
        return Ok(Flow::Go);
    }
    perform_command(run, c, held, readers)
}

/// Performs the commands of a phase that are due, in their order, until one of them stops the phase.
#[tactic(auto, unfolding(smol_meaning::specs::Run::phase_of))]
pub fn perform_due<W: Readers>(
    run: &Run,
    phase: Phase,
    held: &mut Held,
    readers: &mut W,
) -> Result<Flow, RunFault>
    requires phase { IsPhase run.now.setup.now phase }
    requires ready { IsReady run.now.setup.now run.now.seed (W.opened readers.old) held.old }
    requires room { held.old.state.next + 256000000 ≤ last_serial }

    ensures left { Leaves (phase_of run.now.setup.now run.now.seed phase held.old.state) result held.new.state
        (W.told readers.old) (W.told readers.new) (W.faults readers.old) (W.faults readers.new) }
    ensures ready { StaysReady run.now.setup.now run.now.seed (W.opened readers.new) result held.new }
    ensures serials { OnOk result (held.new.state.next ≤ held.old.state.next + 256000000) }
    ensures step { OnOk result (held.new.state.step ≡ held.old.state.step) }
{
    let commands = run.setup.config().commands();
    for c in 0..commands.len() as u16 {
        match perform_if_due(run, phase, c, held, readers) {
            Ok(Flow::Go) => {}
            Ok(Flow::Stop) => return Ok(Flow::Stop),
            Err(fault) => return Err(fault),
        }
    }
    Ok(Flow::Go)
}

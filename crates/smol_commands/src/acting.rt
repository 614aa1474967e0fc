//! What a command does.
ghost use Rattle.std.specs.Prelude.{◌≡◌, ◌+◌, ◌≤◌, ◌<◌, IfOk, IsErrOf, OnOk, length};
ghost use Rattle.smol_types.specs.Commands.{IsAct};
ghost use Rattle.smol_types.specs.Limits.{last_serial};
ghost use Rattle.smol_types.specs.Sound.{IsSound};
ghost use Rattle.smol_types.specs.State.{Fits};
ghost use Rattle.smol_meaning.specs.Commands.{effect_of};
ghost use Rattle.smol_meaning.specs.Stretch.{Over};
ghost use Rattle.smol_commands.specs.Performs.{Performs, performed_at};

use crate::command_fault::CommandFault;
use crate::flow::Flow;
use crate::hits::Chance;
use crate::meant::all_hold;
use crate::moves::{add_molecules, kill, kill_hit, replace_hit};
use crate::printing::{
    print_counts, print_counts_inside, print_header, print_list, print_positions, print_text,
};
use crate::statistics::{
    Around, Space, print_mean_square, print_moments, print_radial, print_space,
};
use smol_print::Pages;
use smol_streams::Streams;
use smol_types::{Act, Config, State};
use std::alloc::Global;

/// Performs the command of this number at a state. Where it would make too many molecules, nothing is done: the state and the
/// pages are as they were. After want of memory nothing is said of them.
pub fn perform(
    alloc: Global,
    config: &Config,
    c: u16,
    state: &mut State,
    streams: &mut Streams,
    out: &mut Pages,
) -> Result<Flow, CommandFault>
    requires command { c < length config.now.commands }
    requires fits { Fits config.now state.old }
    requires next { state.old.next + 1000000 ≤ last_serial }
    requires pages { length out.old ≡ 2 + length config.now.outputs }

    ensures performed { IfOk result (Performs (performed_at config.now streams.old c state.old) state.new out.old out.new) }
    ensures fits { OnOk result (Fits config.now state.new) }
    ensures serials { OnOk result (state.new.next ≤ state.old.next + 1000000) }
    ensures too_many { IsErrOf result CommandFault.TooManyMolecules
        → (performed_at config.now streams.old c state.old).ending ≡ Over state.old.step }
    ensures unchanged { IsErrOf result CommandFault.TooManyMolecules → state.new ≡ state.old }
    ensures nothing_printed { IsErrOf result CommandFault.TooManyMolecules → out.new ≡ out.old }
    ensures seed { streams.new ≡ streams.old }
{
    let command = &config.commands()[c as usize];
    if !all_hold(state.mols.as_slice(), command.tests.as_slice()) {
        return Ok(Flow::Go);
    }
    act(alloc, config, c, &command.act, state, streams, out)
}

// Does what an act of command c does.
#[tactic(auto, using(crate::proofs::Effects::performs), unfolding(smol_meaning::specs::Commands::effect_of))]
fn act(
    alloc: Global,
    config: &Config,
    c: u16,
    act: &Act,
    state: &mut State,
    streams: &mut Streams,
    out: &mut Pages,
) -> Result<Flow, CommandFault>
    requires sound { IsSound config.now }
    requires does { IsAct (length config.now.species) (length config.now.compartments)
        (length config.now.outputs) config.now.walls act.now }
    requires fits { Fits config.now state.old }
    requires next { state.old.next + 1000000 ≤ last_serial }
    requires pages { length out.old ≡ 2 + length config.now.outputs }

    ensures performed { IfOk result (Performs (effect_of config.now streams.old c state.old act.now) state.new out.old out.new) }
    ensures too_many { IsErrOf result CommandFault.TooManyMolecules
        → (effect_of config.now streams.old c state.old act.now).ending ≡ Over state.old.step }
    ensures unchanged { IsErrOf result CommandFault.TooManyMolecules → state.new ≡ state.old }
    ensures nothing_printed { IsErrOf result CommandFault.TooManyMolecules → out.new ≡ out.old }
    ensures seed { streams.new ≡ streams.old }
{
    match act {
        Act::CountHeader { out: outlet } => print_header(config, *outlet, out)?,
        Act::Count { out: outlet } => print_counts(
            alloc,
            config,
            state.step,
            state.mols.as_slice(),
            *outlet,
            out,
        )?,
        Act::CountIn {
            compartment,
            out: outlet,
        } => print_counts_inside(
            alloc,
            config,
            *compartment,
            state.step,
            state.mols.as_slice(),
            *outlet,
            out,
        )?,
        Act::List { out: outlet } => print_list(config, state.mols.as_slice(), *outlet, out)?,
        Act::Positions { who, out: outlet } => print_positions(
            config,
            state.step,
            state.mols.as_slice(),
            who.as_slice(),
            *outlet,
            out,
        )?,
        Act::CountSpace {
            who,
            axis,
            low,
            high,
            bins,
            out: outlet,
        } => {
            let space = Space {
                who: who.as_slice(),
                axis: *axis,
                low: *low,
                high: *high,
                bins: *bins,
            };
            print_space(
                alloc,
                config,
                state.step,
                state.mols.as_slice(),
                &space,
                *outlet,
                out,
            )?;
        }
        Act::Moments { who, out: outlet } => print_moments(
            alloc,
            config,
            state.step,
            state.mols.as_slice(),
            who.as_slice(),
            *outlet,
            out,
        )?,
        Act::MeanSquare {
            who,
            at,
            out: outlet,
        } => print_mean_square(
            alloc,
            config,
            state.step,
            state.mols.as_slice(),
            who.as_slice(),
            at,
            *outlet,
            out,
        )?,
        Act::Radial {
            first,
            second,
            radius,
            bins,
            out: outlet,
        } => {
            let around = Around {
                first: *first,
                second: *second,
                radius: *radius,
                shells: *bins,
            };
            print_radial(
                alloc,
                config,
                state.step,
                state.mols.as_slice(),
                &around,
                *outlet,
                out,
            )?;
        }
        Act::Echo { out: outlet, text } => print_text(text.as_slice(), *outlet, out)?,
        Act::Kill { who } => kill(alloc, who.as_slice(), state),
        Act::KillProb { who, p } => {
            let chance = Chance {
                command: c,
                step: state.step,
                who: who.as_slice(),
                p: *p,
            };
            kill_hit(alloc, &chance, streams, state);
        }
        Act::Replace { who, to, p } => {
            let chance = Chance {
                command: c,
                step: state.step,
                who: who.as_slice(),
                p: *p,
            };
            replace_hit(alloc, &chance, streams, *to, state);
        }
        Act::PointSource { species, n, place } => add_molecules(
            alloc, config, *species, *n, place, state,
        )?,
        Act::Stop => return Ok(Flow::Stop),
    }
    Ok(Flow::Go)
}

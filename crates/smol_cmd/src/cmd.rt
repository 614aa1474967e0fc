//! `cmd WHEN ... COMMAND ...`: a command, the tests before it, and when it is due.
ghost use Rattle.std.specs.Prelude.{◌≡◌, ◌≤◌, length, Ok, Err, IfOk};
ghost use Rattle.smol_text.specs.Reading.{words_of};
ghost use Rattle.smol_types.specs.declared.fault.Kind.{Kind as TheKind};
ghost use Rattle.smol_types.specs.Limits.{most_compartments, most_outputs, most_species};
ghost use Rattle.smol_line.specs.declared.refusal.Refusal.TheVariants.{At};
ghost use Rattle.smol_line.specs.Answers.{Answers};
ghost use Rattle.smol_cmd.specs.Known.{AreFew, known};
ghost use Rattle.smol_cmd.specs.Cmd.{cmd_in, command_in};

use crate::act::act_in;
use crate::condition::{condition_in, condition_words, test_in};
use crate::known::Known;
use crate::timing::when_in;
use smol_line::{Axes, NameSet, Refusal, needs_walls, unless};
use smol_text::StatedLine;
use smol_types::{Act, Command, Items, Kind, Test};
use std::alloc::Global;

/// How many commands there may be.
const MOST_COMMANDS: usize = 256;

/// How many tests there may be before a command.
const MOST_TESTS: usize = 8;

// The tests and the act of the COMMAND at a place.
fn command_in(
    alloc: Global,
    known: &Known<'_>,
    line: &StatedLine<'_>,
    first: usize,
) -> Result<(Items<Test>, Act), Refusal>
    requires { AreFew known.now }
    ensures { Answers (command_in (length (words_of line.now)) known.now line.now first) result }
{
    let mut tests = Items::new(alloc);
    let mut at = first;
    for _ in 0..line.len() {
        unless(at < line.len(), Kind::WrongWordCount)?;
        match condition_in(line.word(at)) {
            None => {
                let act = act_in(alloc, known, line, at)?;
                return Ok((tests, act));
            }
            Some(condition) => {
                tests.push(test_in(alloc, condition, known.species(), line, at)?)?;
                at += condition_words(condition);
            }
        }
    }
    Err(Refusal::At(Kind::WrongWordCount))
}

// The command of a line.
#[tactic(auto, unfolding(crate::specs::Cmd::cmd_in))]
fn judge(
    alloc: Global,
    known: &Known<'_>,
    commands: usize,
    line: &StatedLine<'_>,
) -> Result<Command, Refusal>
    requires { AreFew known.now }
    ensures { Answers (cmd_in known.now commands line.now) result }
{
    needs_walls(known.axes())?;
    let (due, place) = when_in(line)?;
    let (tests, act) = command_in(alloc, known, line, place)?;
    unless(tests.len() <= MOST_TESTS, Kind::TooMany)?;
    unless(commands < MOST_COMMANDS, Kind::TooMany)?;
    Ok(Command {
        when: due,
        tests,
        act,
    })
}

/// Reads a `cmd` line, behind so many commands, beside these axes and the names of species, compartments and output files.
pub fn read_cmd(
    alloc: Global,
    axes: &Axes,
    species: &NameSet,
    compartments: &NameSet,
    outputs: &NameSet,
    commands: usize,
    line: &StatedLine<'_>,
) -> Result<Command, Refusal>
    requires species { length species.now ≤ most_species }
    requires compartments { length compartments.now ≤ most_compartments }
    requires outputs { length outputs.now ≤ most_outputs }
    ensures accepted { IfOk result
        (λ command. cmd_in (known axes.now species.now compartments.now outputs.now) commands line.now ≡ Ok command) }
    ensures refused { (kind : TheKind) → result ≡ Err (At kind)
        → cmd_in (known axes.now species.now compartments.now outputs.now) commands line.now ≡ Err kind }
{
    let known = Known::new(axes, species, compartments, outputs);
    judge(alloc, &known, commands, line)
}

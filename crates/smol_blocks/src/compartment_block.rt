//! The block of a compartment, from the line that opens it to the line that closes it.
ghost use Rattle.std.specs.Prelude.{◌≡◌, ◌+◌, ◌<◌, ◌≤◌, [], ℕ, List, Some, false, length, drop, slice_get, IfOk, IfErr};
ghost use Rattle.smol_text.specs.Reading.{Stated};
ghost use Rattle.smol_text.specs.Spans.{stated_lines};
ghost use Rattle.smol_types.specs.Limits.{most_compartments, most_surfaces};
ghost use Rattle.smol_line.specs.Fault.{TellsFault};
ghost use Rattle.smol_line.specs.Names.{is_named};
ghost use Rattle.smol_blocks.specs.BlockReads.{AnswersBlock, HoldsBlock, HoldsCompartment, ReadsIn};
ghost use Rattle.smol_blocks.specs.BlockText.{block_from, compartment_block, compartment_rules, in_compartment_block};
ghost use Rattle.smol_blocks.specs.Names.{AreNames, axes_of};

use crate::block_name::block_name_in;
use crate::block_statement::BlockStatement;
use crate::compartment::{bound_in, closes_compartment, point_in};
use crate::drafts::CompartmentDraft;
use crate::names::Names;
use crate::statement::Statement;
use crate::told::told_at;
use smol_line::{Axes, NameSet, Refusal, word_at};
use smol_text::{StatedLine, Text};
use smol_types::{Compartment, ConfigFault, Items, Kind, Name};
use std::alloc::Global;

/// How many compartments there may be.
const MOST_COMPARTMENTS: usize = 64;

// Reads a line that makes this statement. Answers whether the block stays open.
fn read_statement(
    compartment: &mut Compartment,
    statement: BlockStatement,
    axes: &Axes,
    surfaces: &NameSet,
    line: &StatedLine<'_>,
) -> Result<bool, Refusal>
    requires surfaces { length surfaces.now ≤ most_surfaces }
    ensures reads { ReadsIn HoldsCompartment (λ said. compartment_rules axes.now surfaces.now said line.now statement)
        compartment.old compartment.new result }
{
    match statement {
        BlockStatement::Surface => {
            let surface = bound_in(surfaces, compartment, line)?;
            compartment.surfaces.push(surface)?;
            Ok(true)
        }
        BlockStatement::Point => {
            let point = point_in(axes, compartment, line)?;
            compartment.points.push(point)?;
            Ok(true)
        }
        BlockStatement::EndCompartment => {
            closes_compartment(compartment, line)?;
            Ok(false)
        }
        _ => Err(Refusal::At(Kind::BadOrder)),
    }
}

// Reads a line in the block behind those read so far. Answers whether the block stays open.
fn read_line(
    compartment: &mut Compartment,
    axes: &Axes,
    surfaces: &NameSet,
    line: &StatedLine<'_>,
) -> Result<bool, Refusal>
    requires surfaces { length surfaces.now ≤ most_surfaces }
    ensures reads { ReadsIn HoldsCompartment (λ said. in_compartment_block axes.now surfaces.now said line.now)
        compartment.old compartment.new result }
{
    match Statement::of(word_at(line, 0)) {
        Statement::PassedOver => Ok(true),
        Statement::NotInProfile => Err(Refusal::At(Kind::NotInProfile)),
        Statement::Unknown => Err(Refusal::At(Kind::UnknownStatement)),
        Statement::Block(one) => read_statement(compartment, one, axes, surfaces, line),
        _ => Err(Refusal::At(Kind::BadOrder)),
    }
}

// Reads the lines of the block that the line at an index opens, which has this number. Answers what they give, and the
// index of the line behind the block.
fn read_lines(
    alloc: Global,
    text: &Text,
    opened: u32,
    at: usize,
    axes: &Axes,
    surfaces: &NameSet,
) -> Result<(Compartment, usize), ConfigFault>
    requires within { at < length (stated_lines text.now) }
    requires surfaces { length surfaces.now ≤ most_surfaces }
    ensures accepted { IfOk result (λ read. HoldsBlock HoldsCompartment
        (block_from (in_compartment_block axes.now surfaces.now) opened [] (at + 1) (drop (at + 1) (stated_lines text.now))) read.0 read.1) }
    ensures refused { IfErr result (λ fault. TellsFault fault
        (block_from (in_compartment_block axes.now surfaces.now) opened [] (at + 1) (drop (at + 1) (stated_lines text.now)))) }
    ensures next { IfOk result (λ read. (at + 1 < read.1) × (read.1 ≤ length (stated_lines text.now))) }
{
    let mut compartment = Compartment {
        surfaces: Items::new(alloc),
        points: Items::new(alloc),
    };
    let end = text.len();
    for k in at + 1..end {
        let line = text.line(k);
        match read_line(&mut compartment, axes, surfaces, &line) {
            Ok(true) => {}
            Ok(false) => return Ok((compartment, k + 1)),
            Err(refusal) => return Err(told_at(line.number(), refusal)),
        }
    }
    Err(ConfigFault::At {
        line: opened,
        kind: Kind::OpenBlock,
    })
}

/// Reads the block of a compartment that the line at an index opens, where the lines before give these axes and these
/// names of surfaces and of compartments. Answers the compartment, and the index of the line behind the block.
pub fn read_compartment_block(
    alloc: Global,
    text: &Text,
    at: usize,
    axes: &Axes,
    surfaces: &NameSet,
    compartments: &NameSet,
) -> Result<(CompartmentDraft, usize), ConfigFault>
    requires within { at < length (stated_lines text.now) }
    requires surfaces { length surfaces.now ≤ most_surfaces }
    ensures reads { (line : Stated) → slice_get (stated_lines text.now) at ≡ Some line
        → AnswersBlock (compartment_block axes.now surfaces.now compartments.now line (at + 1) (drop (at + 1) (stated_lines text.now))) result }
    ensures next { IfOk result (λ read. (at + 1 < read.1) × (read.1 ≤ length (stated_lines text.now))) }
    ensures new { IfOk result (λ read. is_named compartments.now read.0.name ≡ false) }
    ensures room { IfOk result (λ read. length compartments.now < most_compartments) }
{
    let line = text.line(at);
    match block_name_in(axes, compartments, MOST_COMPARTMENTS, &line) {
        Ok(name) => {
            let (compartment, next) = read_lines(alloc, text, line.number(), at, axes, surfaces)?;
            match Name::from_text(alloc, name) {
                Ok(name) => Ok((CompartmentDraft { name, compartment }, next)),
                Err(_) => Err(ConfigFault::OutOfMemory),
            }
        }
        Err(kind) => Err(told_at(line.number(), Refusal::At(kind))),
    }
}

/// Reads the block of a compartment that the line at an index opens, where the lines before give these names. Answers the
/// compartment, and the index of the line behind the block.
pub fn read_compartment(
    alloc: Global,
    text: &Text,
    at: usize,
    names: &Names,
) -> Result<(CompartmentDraft, usize), ConfigFault>
    requires within { at < length (stated_lines text.now) }
    requires names { AreNames names.now }
    ensures reads { (line : Stated) → slice_get (stated_lines text.now) at ≡ Some line
        → AnswersBlock (compartment_block (axes_of names.now) names.now.surfaces names.now.compartments
        line (at + 1) (drop (at + 1) (stated_lines text.now))) result }
{
    let axes = names.axes();
    read_compartment_block(alloc, text, at, &axes, &names.surfaces, &names.compartments)
}

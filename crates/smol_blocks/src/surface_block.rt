//! The block of a surface, from the line that opens it to the line that closes it.
ghost use Rattle.std.specs.Prelude.{◌≡◌, ◌+◌, ◌<◌, ◌≤◌, [], List, Some, false, length, drop, slice_get, IfOk, IfErr, IfSome, OnOk};
ghost use Rattle.smol_text.specs.Reading.{Stated};
ghost use Rattle.smol_text.specs.Spans.{stated_lines};
ghost use Rattle.smol_types.specs.Limits.{most_panels, most_species, most_surfaces};
ghost use Rattle.smol_line.specs.Axes.{most_axes};
ghost use Rattle.smol_line.specs.Fault.{TellsFault};
ghost use Rattle.smol_line.specs.Names.{is_named};
ghost use Rattle.smol_blocks.specs.BlockReads.{AnswersBlock, HoldsBlock, ReadsIn};
ghost use Rattle.smol_blocks.specs.BlockText.{block_from, in_surface_block, surface_block, surface_rules};
ghost use Rattle.smol_blocks.specs.Names.{AreNames, axes_of};
ghost use Rattle.smol_blocks.specs.Surface.{SurfaceSaid};
ghost use Rattle.smol_blocks.specs.SurfaceTable.{ArePaired, Holds, IsReady, known_of};
ghost use Rattle.smol_blocks.specs.Blocks.{panels_in};

use crate::block_name::block_name_in;
use crate::block_statement::BlockStatement;
use crate::close_surface::{panels_of, surface_of};
use crate::drafts::SurfaceDraft;
use crate::names::Names;
use crate::statement::Statement;
use crate::surface_table::SurfaceTable;
use crate::told::told_at;
use smol_line::{Axes, NameSet, Refusal, needs_dim, word_at, word_count};
use smol_text::{StatedLine, Text};
use smol_types::{ConfigFault, Kind, Name};
use std::alloc::{AllocError, Global};

/// How many surfaces there may be.
const MOST_SURFACES: usize = 256;

// Reads a line that makes this statement. Answers whether the block stays open.
fn read_statement(
    alloc: Global,
    table: &mut SurfaceTable,
    statement: BlockStatement,
    dims: u8,
    species: &NameSet,
    others: usize,
    line: &StatedLine<'_>,
) -> Result<bool, Refusal>
    requires least { 1 ≤ dims }
    requires most { dims ≤ 3 }
    requires species { length species.now ≤ most_species }
    requires few { others + length table.old.panels.names ≤ most_panels }
    requires ready { IsReady table.old (length species.now) }
    ensures few { OnOk result (others + length table.new.panels.names ≤ most_panels) }
    ensures ready { OnOk result (IsReady table.new (length species.now)) }
    ensures reads { ReadsIn Holds (λ said. surface_rules (known_of dims species.now others) said line.now statement) table.old table.new result }
{
    match statement {
        BlockStatement::InSurface(one) => {
            table.read(alloc, one, dims, species, others, line)?;
            Ok(true)
        }
        BlockStatement::EndSurface => {
            word_count(1, line)?;
            Ok(false)
        }
        _ => Err(Refusal::At(Kind::BadOrder)),
    }
}

// Reads a line in the block behind those read so far. Answers whether the block stays open.
fn read_line(
    alloc: Global,
    table: &mut SurfaceTable,
    dims: u8,
    species: &NameSet,
    others: usize,
    line: &StatedLine<'_>,
) -> Result<bool, Refusal>
    requires least { 1 ≤ dims }
    requires most { dims ≤ 3 }
    requires species { length species.now ≤ most_species }
    requires few { others + length table.old.panels.names ≤ most_panels }
    requires ready { IsReady table.old (length species.now) }
    ensures few { OnOk result (others + length table.new.panels.names ≤ most_panels) }
    ensures ready { OnOk result (IsReady table.new (length species.now)) }
    ensures reads { ReadsIn Holds (λ said. in_surface_block (known_of dims species.now others) said line.now) table.old table.new result }
{
    match Statement::of(word_at(line, 0)) {
        Statement::PassedOver => Ok(true),
        Statement::NotInProfile => Err(Refusal::At(Kind::NotInProfile)),
        Statement::Unknown => Err(Refusal::At(Kind::UnknownStatement)),
        Statement::Block(one) => read_statement(alloc, table, one, dims, species, others, line),
        _ => Err(Refusal::At(Kind::BadOrder)),
    }
}

// Reads the lines of the block that the line at an index opens, which has this number. Answers what they give, and the
// index of the line behind the block.
fn read_lines(
    alloc: Global,
    text: &Text,
    opened: u32,
    at: usize,
    dims: u8,
    species: &NameSet,
    others: usize,
) -> Result<(SurfaceTable, usize), ConfigFault>
    requires within { at < length (stated_lines text.now) }
    requires least { 1 ≤ dims }
    requires most { dims ≤ 3 }
    requires species { length species.now ≤ most_species }
    requires few { others ≤ most_panels }
    ensures accepted { IfOk result (λ read. HoldsBlock Holds
        (block_from (in_surface_block (known_of dims species.now others)) opened [] (at + 1) (drop (at + 1) (stated_lines text.now))) read.0 read.1) }
    ensures refused { IfErr result (λ fault. TellsFault fault
        (block_from (in_surface_block (known_of dims species.now others)) opened [] (at + 1) (drop (at + 1) (stated_lines text.now)))) }
    ensures next { IfOk result (λ read. (at + 1 < read.1) × (read.1 ≤ length (stated_lines text.now))) }
    ensures few { IfOk result (λ read. others + length read.0.panels.names ≤ most_panels) }
    ensures ready { IfOk result (λ read. IsReady read.0 (length species.now)) }
{
    let mut table = match SurfaceTable::new(alloc, species.len()) {
        Ok(table) => table,
        Err(_) => return Err(ConfigFault::OutOfMemory),
    };
    let end = text.len();
    for k in at + 1..end {
        let line = text.line(k);
        match read_line(alloc, &mut table, dims, species, others, &line) {
            Ok(true) => {}
            Ok(false) => return Ok((table, k + 1)),
            Err(refusal) => return Err(told_at(line.number(), refusal)),
        }
    }
    Err(ConfigFault::At {
        line: opened,
        kind: Kind::OpenBlock,
    })
}

// The surface of this name and number that a table gives, with its panels, where so many of other surfaces stand before.
fn draft_of(
    alloc: Global,
    name: &str,
    table: SurfaceTable,
    surface: u16,
    others: usize,
) -> Result<SurfaceDraft, AllocError>
    requires paired { ArePaired table.panels }
    requires few { others + length table.panels.names ≤ most_panels }
    ensures name { IfOk result (λ draft. draft.name ≡ name.now) }
    ensures surface { IfOk result (λ draft. draft.surface ≡ record {
      front = table.actions.front.actions.items;
      back = table.actions.back.actions.items;
      front_new = table.actions.front.changes.items;
      back_new = table.actions.back.changes.items;
    }) }
    ensures panels { IfOk result (λ draft. (lines : List SurfaceSaid) → Holds table lines → draft.panels ≡ panels_in surface others lines) }
    ensures count { IfOk result (λ draft. length draft.panels ≡ length table.panels.names) }
{
    let name = Name::from_text(alloc, name)?;
    let panels = panels_of(alloc, &table, surface, others)?;
    Ok(SurfaceDraft {
        name,
        surface: surface_of(table.actions),
        panels,
    })
}

/// Reads the block of a surface that the line at an index opens, where the lines before give these axes, these names of
/// species and of surfaces, and so many panels. Answers the surface with its panels, and the index of the line behind the block.
pub fn read_surface_block(
    alloc: Global,
    text: &Text,
    at: usize,
    axes: &Axes,
    species: &NameSet,
    surfaces: &NameSet,
    panels: usize,
) -> Result<(SurfaceDraft, usize), ConfigFault>
    requires within { at < length (stated_lines text.now) }
    requires axes { IfSome axes.now.dims (λ dims. (1 ≤ dims) × (dims ≤ most_axes)) }
    requires species { length species.now ≤ most_species }
    requires panels { panels ≤ most_panels }
    ensures reads { (line : Stated) → slice_get (stated_lines text.now) at ≡ Some line
        → AnswersBlock (surface_block axes.now species.now surfaces.now panels
        line (at + 1) (drop (at + 1) (stated_lines text.now))) result }
    ensures next { IfOk result (λ read. (at + 1 < read.1) × (read.1 ≤ length (stated_lines text.now))) }
    ensures new { IfOk result (λ read. is_named surfaces.now read.0.name ≡ false) }
    ensures room { IfOk result (λ read. length surfaces.now < most_surfaces) }
    ensures few { IfOk result (λ read. panels + length read.0.panels ≤ most_panels) }
{
    let line = text.line(at);
    match block_name_in(axes, surfaces, MOST_SURFACES, &line) {
        Ok(name) => {
            let dims = match needs_dim(axes) {
                Ok(dims) => dims,
                Err(kind) => return Err(told_at(line.number(), Refusal::At(kind))),
            };
            let (table, next) = read_lines(alloc, text, line.number(), at, dims, species, panels)?;
            match draft_of(alloc, name, table, surfaces.len() as u16, panels) {
                Ok(draft) => Ok((draft, next)),
                Err(_) => Err(ConfigFault::OutOfMemory),
            }
        }
        Err(kind) => Err(told_at(line.number(), Refusal::At(kind))),
    }
}

/// Reads the block of a surface that the line at an index opens, where the lines before give these names. Answers the
/// surface with its panels, and the index of the line behind the block.
pub fn read_surface(
    alloc: Global,
    text: &Text,
    at: usize,
    names: &Names,
) -> Result<(SurfaceDraft, usize), ConfigFault>
    requires within { at < length (stated_lines text.now) }
    requires names { AreNames names.now }
    ensures reads { (line : Stated) → slice_get (stated_lines text.now) at ≡ Some line
        → AnswersBlock (surface_block (axes_of names.now) names.now.species names.now.surfaces names.now.panels line (at + 1) (drop (at + 1) (stated_lines text.now))) result }
{
    let axes = names.axes();
    let panels = names.panels as usize;
    read_surface_block(
        alloc,
        text,
        at,
        &axes,
        &names.species,
        &names.surfaces,
        panels,
    )
}

//! What the lines of a surface's block give.
ghost use Rattle.std.specs.Prelude.{◌+◌, ◌≤◌, [], length, IfOk, OnOk};
ghost use Rattle.smol_types.specs.Limits.{most_panels, most_species};
ghost use Rattle.smol_blocks.specs.declared.surface_statement.SurfaceStatement.TheVariants as statement;

use crate::action::action_in;
use crate::action_table::ActionTable;
use crate::panel_table::PanelTable;
use crate::surface_statement::SurfaceStatement;
use smol_line::{NameSet, Refusal};
use smol_text::StatedLine;
use std::alloc::{AllocError, Global};

/// What the lines of a surface's block so far give.
#[derive(Drop)]
pub struct SurfaceTable {
    pub panels: PanelTable,
    pub actions: ActionTable,
}

impl SurfaceTable {
    ghost use Rattle.smol_blocks.specs.Surface.{surface_line_in};
    ghost use Rattle.smol_blocks.specs.SurfaceTable.{Holds, IsReady, Reads, known_of};

    /// Nothing given, where there are this many species.
    pub fn new(alloc: Global, species: usize) -> Result<SurfaceTable, AllocError>
        ensures holds { IfOk result (λ table. Holds table []) }
        ensures ready { IfOk result (λ table. IsReady table species) }
    {
        Ok(SurfaceTable {
            panels: PanelTable::new(alloc),
            actions: ActionTable::new(alloc, species)?,
        })
    }

    fn read_action(
        &mut self,
        dims: u8,
        species: &NameSet,
        others: usize,
        line: &StatedLine<'_>,
    ) -> Result<(), Refusal>
        requires species { length species.now ≤ most_species }
        requires few { others + length self.old.panels.names ≤ most_panels }
        requires ready { IsReady self.old (length species.now) }
        ensures few { OnOk result (others + length self.new.panels.names ≤ most_panels) }
        ensures reads { Reads (surface_line_in statement.Action (known_of dims species.now others)) line.now self.old self.new result }
        ensures ready { OnOk result (IsReady self.new (length species.now)) }
    {
        let acting = action_in(species, line)?;
        self.actions.set(acting);
        Ok(())
    }

    fn read_panel(
        &mut self,
        alloc: Global,
        dims: u8,
        species: &NameSet,
        others: usize,
        line: &StatedLine<'_>,
    ) -> Result<(), Refusal>
        requires least { 1 ≤ dims }
        requires most { dims ≤ 3 }
        requires few { others + length self.old.panels.names ≤ most_panels }
        requires ready { IsReady self.old (length species.now) }
        ensures few { OnOk result (others + length self.new.panels.names ≤ most_panels) }
        ensures reads { Reads (surface_line_in statement.Panel (known_of dims species.now others)) line.now self.old self.new result }
        ensures ready { OnOk result (IsReady self.new (length species.now)) }
    {
        self.panels.read_panel(alloc, dims, others, line)
    }

    fn read_jump(
        &mut self,
        dims: u8,
        species: &NameSet,
        others: usize,
        line: &StatedLine<'_>,
    ) -> Result<(), Refusal>
        requires few { others + length self.old.panels.names ≤ most_panels }
        requires ready { IsReady self.old (length species.now) }
        ensures few { OnOk result (others + length self.new.panels.names ≤ most_panels) }
        ensures reads { Reads (surface_line_in statement.Jump (known_of dims species.now others)) line.now self.old self.new result }
        ensures ready { OnOk result (IsReady self.new (length species.now)) }
    {
        self.panels.read_jump(line)?;
        Ok(())
    }

    /// Reads a line of the block behind those read so far.
    pub fn read(
        &mut self,
        alloc: Global,
        statement: SurfaceStatement,
        dims: u8,
        species: &NameSet,
        others: usize,
        line: &StatedLine<'_>,
    ) -> Result<(), Refusal>
        requires least { 1 ≤ dims }
        requires most { dims ≤ 3 }
        requires species { length species.now ≤ most_species }
        requires few { others + length self.old.panels.names ≤ most_panels }
        requires ready { IsReady self.old (length species.now) }
        ensures few { OnOk result (others + length self.new.panels.names ≤ most_panels) }
        ensures reads { Reads (surface_line_in statement (known_of dims species.now others)) line.now self.old self.new result }
        ensures ready { OnOk result (IsReady self.new (length species.now)) }
    {
        match statement {
            SurfaceStatement::Action => self.read_action(dims, species, others, line),
            SurfaceStatement::Panel => self.read_panel(alloc, dims, species, others, line),
            SurfaceStatement::Jump => self.read_jump(dims, species, others, line),
        }
    }
}

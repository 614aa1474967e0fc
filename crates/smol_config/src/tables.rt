//! What the lines read so far give.
ghost use Rattle.std.specs.Prelude.{◌≡◌, ◌≢◌, ◌+◌, ◌<◌, ◌≤◌, ◌∷◌, [], Some, length, drop, slice_get, IfOk};
ghost use Rattle.smol_text.specs.Spans.{stated_lines};
ghost use Rattle.smol_types.specs.Limits.{most_species};
ghost use Rattle.smol_line.specs.Words.{word_at};
ghost use Rattle.smol_blocks.specs.declared.block_statement.BlockStatement.{BlockStatement as TheBlockStatement};
ghost use Rattle.smol_blocks.specs.declared.statement.Statement.TheVariants as statement;
ghost use Rattle.smol_blocks.specs.declared.statement.Statement.TheVariants.{Block};
ghost use Rattle.smol_blocks.specs.Statement.{statement_of};
ghost use Rattle.smol_config.specs.Tables.{Keeps};

use crate::species_table::SpeciesTable;
use crate::times::Times;
use crate::{
    boundaries, compartment_mol, dim, max_mol, mol, motion, pair_order, random_seed, species, times,
};
use smol_blocks::{BlockStatement, Blocks, Statement, told_at};
use smol_cmd::{read_cmd, read_output_files};
use smol_line::{Axes, NameSet, Refusal, word_at};
use smol_reactions::Reactions;
use smol_text::{StatedLine, Text};
use smol_types::{Command, ConfigFault, Items, Kind, Placing};
use std::alloc::Global;

// Keeps a value that stands once, or hands the fault of its line on.
fn keep<T: Drop>(given: Result<T, Kind>, place: &mut Option<T>) -> Result<(), Refusal>
    ensures { Keeps given place.old place.new result }
{
    *place = Some(given?);
    Ok(())
}

/// What the lines read so far give, a quantity each.
#[derive(Drop)]
pub struct Tables {
    pub axes: Axes,
    pub species: SpeciesTable,
    pub times: Times,
    pub max_mol: Option<u32>,
    pub seed: Option<u64>,
    pub nearest: Option<bool>,
    pub placings: Items<Placing>,
    pub reactions: Reactions,
    pub blocks: Blocks,
    pub outputs: NameSet,
    pub commands: Items<Command>,
}

impl Tables {
    ghost use Rattle.smol_config.specs.Reader.{statement_in};
    ghost use Rattle.smol_config.specs.Tables.{AreReady, Holds, Reads, ReadsOn};
    ghost use Rattle.smol_reactions.specs.Table.{IsKept};

    /// Nothing given.
    pub fn new(alloc: Global) -> Tables
        ensures { Holds result [] }
    {
        Tables {
            axes: Axes {
                dims: None,
                x: None,
                y: None,
                z: None,
            },
            species: SpeciesTable::new(alloc),
            times: Times {
                start: None,
                stop: None,
                step: None,
            },
            max_mol: None,
            seed: None,
            nearest: None,
            placings: Items::new(alloc),
            reactions: Reactions::new(alloc),
            blocks: Blocks::new(alloc),
            outputs: NameSet::new(alloc),
            commands: Items::new(alloc),
        }
    }

    fn read_species(&mut self, alloc: Global, line: &StatedLine<'_>) -> Result<(), Refusal>
        ensures { Reads (statement_in statement.Species) line.now self.old self.new result }
    {
        species::read(alloc, &mut self.species, line)
    }

    fn read_difc(&mut self, line: &StatedLine<'_>) -> Result<(), Refusal>
        requires { length self.old.species.names ≤ most_species }
        ensures { Reads (statement_in statement.Difc) line.now self.old self.new result }
    {
        let (chosen, motion) = motion::judge_difc(&self.species.names, line)?;
        self.species.set_motion(chosen, motion);
        Ok(())
    }

    fn read_difstep(&mut self, line: &StatedLine<'_>) -> Result<(), Refusal>
        requires { length self.old.species.names ≤ most_species }
        ensures { Reads (statement_in statement.Difstep) line.now self.old self.new result }
    {
        let (chosen, motion) = motion::judge_difstep(&self.species.names, line)?;
        self.species.set_motion(chosen, motion);
        Ok(())
    }

    fn read_boundaries(&mut self, line: &StatedLine<'_>) -> Result<(), Refusal>
        ensures { Reads (statement_in statement.Boundaries) line.now self.old self.new result }
    {
        let (axis, given) = boundaries::judge(&self.axes, line)?;
        boundaries::set_bounds(axis, given, &mut self.axes);
        Ok(())
    }

    fn read_mol(&mut self, line: &StatedLine<'_>) -> Result<(), Refusal>
        requires { length self.old.species.names ≤ most_species }
        ensures { Reads (statement_in statement.Mol) line.now self.old self.new result }
    {
        let species = &self.species;
        let placing = mol::judge(&self.axes, &species.names, line)?;
        self.placings.push(placing)?;
        Ok(())
    }

    fn read_reaction(&mut self, alloc: Global, line: &StatedLine<'_>) -> Result<(), Refusal>
        requires species { length self.old.species.names ≤ most_species }
        requires kept { IsKept self.old.reactions }
        ensures { Reads (statement_in statement.Reaction) line.now self.old self.new result }
    {
        let species = &self.species;
        self.reactions.read_reaction(alloc, &species.names, line)
    }

    fn read_binding_radius(&mut self, line: &StatedLine<'_>) -> Result<(), Refusal>
        requires { IsKept self.old.reactions }
        ensures { Reads (statement_in statement.BindingRadius) line.now self.old self.new result }
    {
        self.reactions.read_binding_radius(line)
    }

    fn read_reaction_probability(&mut self, line: &StatedLine<'_>) -> Result<(), Refusal>
        requires { IsKept self.old.reactions }
        ensures { Reads (statement_in statement.ReactionProbability) line.now self.old self.new result }
    {
        self.reactions.read_reaction_probability(line)
    }

    fn read_product_placement(
        &mut self,
        alloc: Global,
        line: &StatedLine<'_>,
    ) -> Result<(), Refusal>
        requires species { length self.old.species.names ≤ most_species }
        requires kept { IsKept self.old.reactions }
        ensures { Reads (statement_in statement.ProductPlacement) line.now self.old self.new result }
    {
        let dims = self.axes.dims;
        let species = &self.species;
        self.reactions
            .read_product_placement(alloc, dims, &species.names, line)
    }

    fn read_compartment_mol(&mut self, line: &StatedLine<'_>) -> Result<(), Refusal>
        requires { AreReady self.old }
        ensures { Reads (statement_in statement.CompartmentMol) line.now self.old self.new result }
    {
        let species = &self.species;
        let blocks = &self.blocks;
        let placing = compartment_mol::judge(
            &self.axes,
            &species.names,
            &blocks.compartment_names,
            line,
        )?;
        self.placings.push(placing)?;
        Ok(())
    }

    // Reads a line of a block where none is open, or the whole block that it opens.
    fn read_block(
        &mut self,
        alloc: Global,
        one: BlockStatement,
        text: &Text,
        at: usize,
        line: &StatedLine<'_>,
    ) -> Result<usize, ConfigFault>
        requires within { at < length (stated_lines text.now) }
        requires line { slice_get (stated_lines text.now) at ≡ Some line.now }
        requires is_next { drop at (stated_lines text.now) ≡ line.now ∷ drop (at + 1) (stated_lines text.now) }
        requires statement { statement.Block one ≡ statement_of (word_at line.now 0) }
        requires ready { AreReady self.old }
        ensures reads { ReadsOn (stated_lines text.now) at self.old self.new result }
        ensures next { IfOk result (λ next. (at < next) × (next ≤ length (stated_lines text.now))) }
    {
        match one {
            BlockStatement::StartSurface => {
                let axes = self.axes;
                let species = &self.species;
                self.blocks
                    .read_surface(alloc, &axes, &species.names, text, at)
            }
            BlockStatement::StartCompartment => {
                self.blocks.read_compartment(alloc, &self.axes, text, at)
            }
            _ => Err(ConfigFault::At {
                line: line.number(),
                kind: Kind::BadOrder,
            }),
        }
    }

    fn read_output_files(&mut self, alloc: Global, line: &StatedLine<'_>) -> Result<(), Refusal>
        ensures { Reads (statement_in statement.OutputFiles) line.now self.old self.new result }
    {
        read_output_files(alloc, &mut self.outputs, line)
    }

    fn read_cmd(&mut self, alloc: Global, line: &StatedLine<'_>) -> Result<(), Refusal>
        requires { AreReady self.old }
        ensures { Reads (statement_in statement.Cmd) line.now self.old self.new result }
    {
        let count = self.commands.len();
        let species = &self.species;
        let blocks = &self.blocks;
        let command = read_cmd(
            alloc,
            &self.axes,
            &species.names,
            &blocks.compartment_names,
            &self.outputs,
            count,
            line,
        )?;
        self.commands.push(command)?;
        Ok(())
    }

    // Reads a line that makes this statement, which is of no block.
    fn read_statement(
        &mut self,
        alloc: Global,
        statement: Statement,
        line: &StatedLine<'_>,
    ) -> Result<(), Refusal>
        requires ready { AreReady self.old }
        requires apart { (one : TheBlockStatement) → statement ≢ Block one }
        ensures { Reads (statement_in statement) line.now self.old self.new result }
    {
        let given = self.times;
        match statement {
            Statement::PassedOver => Ok(()),
            Statement::NotInProfile => Err(Refusal::At(Kind::NotInProfile)),
            Statement::Unknown => Err(Refusal::At(Kind::UnknownStatement)),
            Statement::Dim => keep(dim::judge(&self.axes, line), &mut self.axes.dims),
            Statement::Species => self.read_species(alloc, line),
            Statement::Difc => self.read_difc(line),
            Statement::Difstep => self.read_difstep(line),
            Statement::TimeStart => keep(times::judge(given.start, line), &mut self.times.start),
            Statement::TimeStop => keep(times::judge(given.stop, line), &mut self.times.stop),
            Statement::TimeStep => keep(times::judge_step(given.step, line), &mut self.times.step),
            Statement::MaxMol => keep(max_mol::judge(self.max_mol, line), &mut self.max_mol),
            Statement::RandomSeed => keep(random_seed::judge(self.seed, line), &mut self.seed),
            Statement::PairOrder => keep(pair_order::judge(self.nearest, line), &mut self.nearest),
            Statement::Boundaries => self.read_boundaries(line),
            Statement::Mol => self.read_mol(line),
            Statement::CompartmentMol => self.read_compartment_mol(line),
            Statement::Reaction => self.read_reaction(alloc, line),
            Statement::BindingRadius => self.read_binding_radius(line),
            Statement::ReactionProbability => self.read_reaction_probability(line),
            Statement::ProductPlacement => self.read_product_placement(alloc, line),
            Statement::Block(_) => Err(Refusal::At(Kind::BadOrder)),
            Statement::OutputFiles => self.read_output_files(alloc, line),
            Statement::Cmd => self.read_cmd(alloc, line),
        }
    }

    /// Reads on from the line at an index behind those read so far: the block that it opens, or that line alone. Answers the
    /// index from which the reading goes on.
    pub fn read(&mut self, alloc: Global, text: &Text, at: usize) -> Result<usize, ConfigFault>
        requires within { at < length (stated_lines text.now) }
        requires ready { AreReady self.old }
        ensures reads { ReadsOn (stated_lines text.now) at self.old self.new result }
        ensures next { IfOk result (λ next. (at < next) × (next ≤ length (stated_lines text.now))) }
    {
        let end = text.len();
        prove!(at < end);
        let line = text.line(at);
        match Statement::of(word_at(&line, 0)) {
            Statement::Block(one) => self.read_block(alloc, one, text, at, &line),
            statement => match self.read_statement(alloc, statement, &line) {
                Ok(()) => Ok(at + 1),
                Err(refusal) => Err(told_at(line.number(), refusal)),
            },
        }
    }
}

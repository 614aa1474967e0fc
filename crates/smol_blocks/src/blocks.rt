//! What a reader keeps of blocks: the surfaces and the compartments that they give.
ghost use Rattle.std.specs.Prelude.{◌≡◌, ◌+◌, ◌++◌, ◌<◌, ◌≤◌, [], ℕ, List, Some, Err, false, length, drop, slice_get, IfOk, IfSome, OnOk, OnErr};
ghost use Rattle.smol_text.specs.Reading.{Stated};
ghost use Rattle.smol_text.specs.Spans.{stated_lines};
ghost use Rattle.smol_types.specs.declared.fault.ConfigFault.TheVariants.{At};
ghost use Rattle.smol_types.specs.declared.fault.Kind.{Kind as TheKind};
ghost use Rattle.smol_types.specs.Limits.{most_compartments, most_panels, most_species, most_surfaces};
ghost use Rattle.smol_line.specs.Axes.{most_axes};
ghost use Rattle.smol_line.specs.Names.{is_named};
ghost use Rattle.smol_blocks.specs.BlocksTable.{GoesOn};

use crate::compartment_block::read_compartment_block;
use crate::drafts::{CompartmentDraft, SurfaceDraft};
use crate::surface_block::read_surface_block;
use smol_line::{Axes, NameSet};
use smol_text::Text;
use smol_types::{Compartment, ConfigFault, Items, Panel, Surface};
use std::alloc::{AllocError, Global};

/// What the blocks read so far give.
#[derive(Drop)]
pub struct Blocks {
    pub surface_names: NameSet,
    pub surfaces: Items<Surface>,
    pub panels: Items<Panel>,
    pub compartment_names: NameSet,
    pub compartments: Items<Compartment>,
}

// Adds panels behind the others.
fn append(all: &mut Items<Panel>, more: &Items<Panel>) -> Result<(), AllocError>
    ensures added { OnOk result (all.new ≡ all.old ++ more.now) }
    ensures begun { GoesOn all.old all.new }
{
    for panel in more.as_slice() {
        all.push(*panel)?;
    }
    Ok(())
}

impl Blocks {
    ghost use Rattle.smol_blocks.specs.Blocks.{BlockSaid};
    ghost use Rattle.smol_blocks.specs.BlocksTable.{AddsCompartment, AddsSurface, Holds, IsKept, KeepsNames, ReadsCompartment, ReadsSurface};
    ghost use Rattle.smol_blocks.specs.BlockText.{compartment_block, surface_block};

    /// No blocks, which takes no memory.
    pub fn new(alloc: Global) -> Blocks
        ensures holds { Holds result [] }
        ensures kept { IsKept result }
    {
        Blocks {
            surface_names: NameSet::new(alloc),
            surfaces: Items::new(alloc),
            panels: Items::new(alloc),
            compartment_names: NameSet::new(alloc),
            compartments: Items::new(alloc),
        }
    }

    // Adds a surface of a new name, with its panels.
    fn add_surface(&mut self, alloc: Global, draft: SurfaceDraft) -> Result<(), AllocError>
        requires new { is_named self.old.surface_names draft.name ≡ false }
        ensures added { OnOk result (AddsSurface self.old self.new draft) }
        ensures names { OnErr result (KeepsNames self.old self.new) }
    {
        let SurfaceDraft {
            name,
            surface,
            panels,
        } = draft;
        append(&mut self.panels, &panels)?;
        self.surfaces.push(surface)?;
        self.surface_names.add(alloc, name.as_str())?;
        Ok(())
    }

    /// Reads the block of a surface that the line at an index opens, beside these axes and species, and adds what it gives.
    /// Answers the index of the line behind the block.
    pub fn read_surface(
        &mut self,
        alloc: Global,
        axes: &Axes,
        species: &NameSet,
        text: &Text,
        at: usize,
    ) -> Result<usize, ConfigFault>
        requires within { at < length (stated_lines text.now) }
        requires axes { IfSome axes.now.dims (λ dims. (1 ≤ dims) × (dims ≤ most_axes)) }
        requires species { length species.now ≤ most_species }
        requires kept { IsKept self.old }
        ensures kept { OnOk result (IsKept self.new) }
        ensures reads { (line : Stated) → slice_get (stated_lines text.now) at ≡ Some line
            → ReadsSurface (surface_block axes.now species.now self.old.surface_names (length self.old.panels) line (at + 1)
            (drop (at + 1) (stated_lines text.now))) self.old self.new result }
        ensures names { OnErr result (KeepsNames self.old self.new) }
        ensures unchanged { (line : ℕ) (kind : TheKind) → result ≡ Err (At line kind) → self.new ≡ self.old }
        ensures next { IfOk result (λ next. (at + 1 < next) × (next ≤ length (stated_lines text.now))) }
    {
        let count = self.panels.len();
        let (draft, next) = read_surface_block(
            alloc,
            text,
            at,
            axes,
            species,
            &self.surface_names,
            count,
        )?;
        match self.add_surface(alloc, draft) {
            Ok(()) => Ok(next),
            Err(_) => Err(ConfigFault::OutOfMemory),
        }
    }

    // Adds a compartment of a new name.
    fn add_compartment(&mut self, alloc: Global, draft: CompartmentDraft) -> Result<(), AllocError>
        requires new { is_named self.old.compartment_names draft.name ≡ false }
        ensures added { OnOk result (AddsCompartment self.old self.new draft) }
        ensures names { OnErr result (KeepsNames self.old self.new) }
    {
        let CompartmentDraft { name, compartment } = draft;
        self.compartments.push(compartment)?;
        self.compartment_names.add(alloc, name.as_str())?;
        Ok(())
    }

    /// Reads the block of a compartment that the line at an index opens, beside these axes, and adds what it gives. Answers
    /// the index of the line behind the block.
    pub fn read_compartment(
        &mut self,
        alloc: Global,
        axes: &Axes,
        text: &Text,
        at: usize,
    ) -> Result<usize, ConfigFault>
        requires within { at < length (stated_lines text.now) }
        requires kept { IsKept self.old }
        ensures kept { OnOk result (IsKept self.new) }
        ensures reads { (line : Stated) → slice_get (stated_lines text.now) at ≡ Some line
            → ReadsCompartment (compartment_block axes.now self.old.surface_names self.old.compartment_names line (at + 1)
            (drop (at + 1) (stated_lines text.now))) self.old self.new result }
        ensures names { OnErr result (KeepsNames self.old self.new) }
        ensures unchanged { (line : ℕ) (kind : TheKind) → result ≡ Err (At line kind) → self.new ≡ self.old }
        ensures next { IfOk result (λ next. (at + 1 < next) × (next ≤ length (stated_lines text.now))) }
    {
        let (draft, next) = read_compartment_block(
            alloc,
            text,
            at,
            axes,
            &self.surface_names,
            &self.compartment_names,
        )?;
        match self.add_compartment(alloc, draft) {
            Ok(()) => Ok(next),
            Err(_) => Err(ConfigFault::OutOfMemory),
        }
    }
}

//! The panels of a surface, by the lines of its block so far.
ghost use Rattle.std.specs.Prelude.{◌≡◌, ◌==◌, ◌&&◌, ◌<◌, ◌≤◌, ◌^◌, ◌+◌, ◌++◌, ◌∷◌, [], ℕ, None, Some, Err, length, slice_index_or, OnOk, if◌then◌else◌};
ghost use Rattle.std.specs.Result.{IsOkAnd};
ghost use Rattle.smol_types.specs.declared.fault.Kind.{Kind as TheKind};
ghost use Rattle.smol_types.specs.Limits.{most_panels};
ghost use Rattle.smol_line.specs.declared.refusal.Refusal.TheVariants.{At};

use crate::jump::{Leading, jump_in};
use crate::panel::shape_in;
use crate::panel_name::add_name;
use smol_geom::Rect;
use smol_line::{NameSet, Refusal, unless};
use smol_text::StatedLine;
use smol_types::{Face, Kind};
use std::alloc::{AllocError, Global};

/// How many panels there may be.
const MOST_PANELS: usize = 4096;

/// The panels of a surface: their names, their rectangles, whether their fronts are the sides of greater coordinates,
/// and where jumps from their faces lead.
#[derive(Drop)]
pub struct PanelTable {
    pub names: NameSet,
    pub rects: Vec<Rect>,
    pub sides: Vec<bool>,
    pub front_to: Vec<Option<(u16, Face)>>,
    pub back_to: Vec<Option<(u16, Face)>>,
}

impl PanelTable {
    ghost use Rattle.smol_blocks.specs.Jump.{jump_in};
    ghost use Rattle.smol_blocks.specs.Panel.{panel_in};
    ghost use Rattle.smol_blocks.specs.Surface.{same_face};
    ghost use Rattle.smol_blocks.specs.SurfaceTable.{AddsJump, AddsPanel, ArePaired};
    ghost use Rattle.smol_types.specs.declared.surface.Face.TheVariants.{Front, Back};

    /// No panels, which takes no memory.
    pub fn new(alloc: Global) -> PanelTable
        ensures names { result.names ≡ [] }
        ensures rects { result.rects.items ≡ [] }
        ensures sides { result.sides.items ≡ [] }
        ensures front_to { result.front_to.items ≡ [] }
        ensures back_to { result.back_to.items ≡ [] }
    {
        PanelTable {
            names: NameSet::new(alloc),
            rects: Vec::new(alloc),
            sides: Vec::new(alloc),
            front_to: Vec::new(alloc),
            back_to: Vec::new(alloc),
        }
    }

    // Adds a panel without jumps behind the others.
    fn push(&mut self, rect: Rect, greater: bool) -> Result<(), AllocError>
        ensures names { self.new.names ≡ self.old.names }
        ensures rects { OnOk result (self.new.rects.items ≡ self.old.rects.items ++ rect ∷ []) }
        ensures sides { OnOk result (self.new.sides.items ≡ self.old.sides.items ++ greater ∷ []) }
        ensures front_to { OnOk result (self.new.front_to.items ≡ self.old.front_to.items ++ None ∷ []) }
        ensures back_to { OnOk result (self.new.back_to.items ≡ self.old.back_to.items ++ None ∷ []) }
    {
        self.rects.push(rect)?;
        self.sides.push(greater)?;
        self.front_to.push(None)?;
        self.back_to.push(None)?;
        Ok(())
    }

    // Lets a jump from a face of a panel lead to a face of another.
    fn lead(&mut self, from: u16, from_face: Face, to: u16, to_face: Face)
        requires front { from < length self.old.front_to.items }
        requires back { from < length self.old.back_to.items }
        ensures names { self.new.names ≡ self.old.names }
        ensures rects { self.new.rects.items ≡ self.old.rects.items }
        ensures sides { self.new.sides.items ≡ self.old.sides.items }
        ensures front_to { (panel : ℕ) → slice_index_or self.new.front_to.items panel None
            ≡ (if (from == panel) && same_face from_face Front then Some (to, to_face)
            else slice_index_or self.old.front_to.items panel None) }
        ensures back_to { (panel : ℕ) → slice_index_or self.new.back_to.items panel None
            ≡ (if (from == panel) && same_face from_face Back then Some (to, to_face)
            else slice_index_or self.old.back_to.items panel None) }
        ensures front_count { length self.new.front_to.items ≡ length self.old.front_to.items }
        ensures back_count { length self.new.back_to.items ≡ length self.old.back_to.items }
    {
        match from_face {
            Face::Front => self.front_to[usize::from(from)] = Some((to, to_face)),
            Face::Back => self.back_to[usize::from(from)] = Some((to, to_face)),
        }
    }

    // Lets jumps lead where a line says.
    fn set(&mut self, leading: Leading)
        requires paired { ArePaired self.old }
        requires from { leading.from < length self.old.names }
        requires to { leading.to < length self.old.names }
        ensures set { AddsJump self.old self.new leading }
        ensures paired { ArePaired self.new }
    {
        let Leading {
            from,
            from_face,
            to,
            to_face,
            both,
        } = leading;
        if both {
            self.lead(to, to_face, from, from_face);
        }
        self.lead(from, from_face, to, to_face);
    }

    /// Adds the panel that a line gives, where so many panels of other surfaces stand before.
    #[tactic(auto, unfolding(crate::specs::Panel::panel_in))]
    pub fn read_panel(
        &mut self,
        alloc: Global,
        dims: u8,
        others: usize,
        line: &StatedLine<'_>,
    ) -> Result<(), Refusal>
        requires least { 1 ≤ dims }
        requires most { dims ≤ 3 }
        requires few { others ≤ most_panels }
        requires paired { ArePaired self.old }
        ensures few { OnOk result (others + length self.new.names ≤ most_panels) }
        ensures paired { OnOk result (ArePaired self.new) }
        ensures added { OnOk result (IsOkAnd (panel_in dims others self.old.names line.now) (AddsPanel self.old self.new)) }
        ensures refused { (kind : TheKind) → result ≡ Err (At kind) → panel_in dims others self.old.names line.now ≡ Err kind }
    {
        let (facing, rect) = shape_in(dims, line)?;
        add_name(alloc, &mut self.names, dims, line)?;
        unless(self.names.len() <= MOST_PANELS - others, Kind::TooMany)?;
        self.push(rect, facing.greater)?;
        Ok(())
    }

    /// Lets jumps lead where a line says.
    pub fn read_jump(&mut self, line: &StatedLine<'_>) -> Result<(), Kind>
        requires paired { ArePaired self.old }
        requires few { length self.old.names ≤ 2 ^ 16 }
        ensures set { OnOk result (IsOkAnd (jump_in self.old.names self.old.rects.items line.now) (AddsJump self.old self.new)) }
        ensures paired { OnOk result (ArePaired self.new) }
        ensures refused { (kind : TheKind) → result ≡ Err kind → jump_in self.old.names self.old.rects.items line.now ≡ Err kind }
    {
        let leading = jump_in(&self.names, self.rects.as_slice(), line)?;
        self.set(leading);
        Ok(())
    }
}

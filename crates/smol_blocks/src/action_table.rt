//! What the faces of a surface's panels do, by the lines of its block so far.
ghost use Rattle.std.specs.Prelude.{◌≡◌, ◌≤◌, ◌&&◌, ℕ, length, nat_le, nat_lt, slice_index_or, IfOk, None, if◌then◌else◌};
ghost use Rattle.smol_types.specs.declared.surface.Action.TheVariants.{Transmit};

use crate::action::Acting;
use crate::faces::Faces;
use smol_line::Chosen;
use smol_types::Action;
use std::alloc::{AllocError, Global};

/// What a face does to each species, and what it makes of it.
#[derive(Drop)]
pub struct FaceTable {
    pub actions: Vec<Action>,
    pub changes: Vec<Option<u16>>,
}

/// What the front and the back do.
#[derive(Drop)]
pub struct ActionTable {
    pub front: FaceTable,
    pub back: FaceTable,
}

// Gives the chosen entries this value, and leaves the others as they are.
fn set_chosen<T: Copy>(entries: &mut [T], chosen: Chosen, value: T)
    requires ordered { chosen.first ≤ chosen.end }
    requires within { chosen.end ≤ length entries.old }
    ensures { (number : ℕ) (other : T) → slice_index_or entries.new number other
        ≡ (if nat_le chosen.first number && nat_lt number chosen.end then value else slice_index_or entries.old number other) }
{
    for i in chosen.first..chosen.end {
        entries[i] = value;
    }
}

impl FaceTable {
    ghost use Rattle.smol_line.specs.SpeciesWord.{is_chosen};
    ghost use Rattle.smol_blocks.specs.SurfaceTable.{IsFaceReady};

    /// The face lets each of this many species through, as it is.
    pub fn new(alloc: Global, species: usize) -> Result<FaceTable, AllocError>
        ensures actions { IfOk result (λ table. (number : ℕ) → slice_index_or table.actions.items number Transmit ≡ Transmit) }
        ensures changes { IfOk result (λ table. (number : ℕ) → slice_index_or table.changes.items number None ≡ None) }
        ensures ready { IfOk result (λ table. IsFaceReady table species) }
    {
        Ok(FaceTable {
            actions: vec![in alloc; Action::Transmit; species]?,
            changes: vec![in alloc; None; species]?,
        })
    }

    /// Lets the face do to species what a line says, and make of them what it says.
    pub fn set(&mut self, acting: Acting)
        requires ordered { acting.who.first ≤ acting.who.end }
        requires actions { acting.who.end ≤ length self.old.actions.items }
        requires changes { acting.who.end ≤ length self.old.changes.items }
        ensures actions { (species : ℕ) → slice_index_or self.new.actions.items species Transmit
            ≡ (if is_chosen species acting.who then acting.action else slice_index_or self.old.actions.items species Transmit) }
        ensures changes { (species : ℕ) → slice_index_or self.new.changes.items species None
            ≡ (if is_chosen species acting.who then acting.new else slice_index_or self.old.changes.items species None) }
        ensures action_count { length self.new.actions.items ≡ length self.old.actions.items }
        ensures change_count { length self.new.changes.items ≡ length self.old.changes.items }
    {
        set_chosen(self.actions.as_mut_slice(), acting.who, acting.action);
        set_chosen(self.changes.as_mut_slice(), acting.who, acting.new);
    }
}

impl ActionTable {
    ghost use Rattle.smol_types.specs.declared.surface.Face.TheVariants.{Front, Back};
    ghost use Rattle.smol_line.specs.SpeciesWord.{is_chosen};
    ghost use Rattle.smol_blocks.specs.Surface.{means_face};
    ghost use Rattle.smol_blocks.specs.SurfaceTable.{IsFaceReady};

    /// Both faces let each of this many species through, as it is.
    pub fn new(alloc: Global, species: usize) -> Result<ActionTable, AllocError>
        ensures front { IfOk result (λ table. (number : ℕ) → slice_index_or table.front.actions.items number Transmit ≡ Transmit) }
        ensures back { IfOk result (λ table. (number : ℕ) → slice_index_or table.back.actions.items number Transmit ≡ Transmit) }
        ensures front_new { IfOk result (λ table. (number : ℕ) → slice_index_or table.front.changes.items number None ≡ None) }
        ensures back_new { IfOk result (λ table. (number : ℕ) → slice_index_or table.back.changes.items number None ≡ None) }
        ensures front_ready { IfOk result (λ table. IsFaceReady table.front species) }
        ensures back_ready { IfOk result (λ table. IsFaceReady table.back species) }
    {
        Ok(ActionTable {
            front: FaceTable::new(alloc, species)?,
            back: FaceTable::new(alloc, species)?,
        })
    }

    /// Lets faces do to species what a line says, and make of them what it says.
    pub fn set(&mut self, acting: Acting)
        requires ordered { acting.who.first ≤ acting.who.end }
        requires front { acting.who.end ≤ length self.old.front.actions.items }
        requires back { acting.who.end ≤ length self.old.back.actions.items }
        requires front_new { acting.who.end ≤ length self.old.front.changes.items }
        requires back_new { acting.who.end ≤ length self.old.back.changes.items }
        ensures front { (species : ℕ) → slice_index_or self.new.front.actions.items species Transmit
            ≡ (if means_face acting.faces Front && is_chosen species acting.who then acting.action
            else slice_index_or self.old.front.actions.items species Transmit) }
        ensures back { (species : ℕ) → slice_index_or self.new.back.actions.items species Transmit
            ≡ (if means_face acting.faces Back && is_chosen species acting.who then acting.action
            else slice_index_or self.old.back.actions.items species Transmit) }
        ensures front_new { (species : ℕ) → slice_index_or self.new.front.changes.items species None
            ≡ (if means_face acting.faces Front && is_chosen species acting.who then acting.new
            else slice_index_or self.old.front.changes.items species None) }
        ensures back_new { (species : ℕ) → slice_index_or self.new.back.changes.items species None
            ≡ (if means_face acting.faces Back && is_chosen species acting.who then acting.new
            else slice_index_or self.old.back.changes.items species None) }
        ensures front_count { length self.new.front.actions.items ≡ length self.old.front.actions.items }
        ensures back_count { length self.new.back.actions.items ≡ length self.old.back.actions.items }
        ensures front_new_count { length self.new.front.changes.items ≡ length self.old.front.changes.items }
        ensures back_new_count { length self.new.back.changes.items ≡ length self.old.back.changes.items }
    {
        match acting.faces {
            Faces::Front => self.front.set(acting),
            Faces::Back => self.back.set(acting),
            Faces::Both => {
                self.front.set(acting);
                self.back.set(acting);
            }
        }
    }
}

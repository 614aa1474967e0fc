//! What faces make of a species.
ghost use Rattle.std.specs.Prelude.{◌≡◌, ◌+◌, ◌<◌, length, slice_get};
ghost use Rattle.smol_types.specs.Actions.{change_of, change_written, is_carried_out, panel_change, written_change};

use crate::action_at::{action_written, destination_of};
use crate::{Action, Config, Face, Panel, Surface};

// What a surface says that a face makes of a species, if it says it.
fn written_change(surface: &Surface, face: Face, species: u16) -> Option<u16>
    ensures { result ≡ written_change surface.now face species }
{
    let changes = match face {
        Face::Front => surface.front_new.as_slice(),
        Face::Back => surface.back_new.as_slice(),
    };
    match changes.get(species as usize) {
        Some(new) => *new,
        None => None,
    }
}

// The same, where there is the surface of the panel.
fn change_written(surfaces: &[Surface], panel: &Panel, face: Face, species: u16) -> Option<u16>
    ensures { result ≡ change_written (slice_get surfaces.now panel.now.surface) face species }
{
    match surfaces.get(panel.surface as usize) {
        Some(surface) => written_change(surface, face, species),
        None => None,
    }
}

// Whether the action that was written is the one that is done, as it is but for a jump that leads nowhere.
fn is_carried_out(action: Action, to: Option<(u16, Face)>) -> bool
    ensures { result ≡ is_carried_out action to }
{
    match (action, to) {
        (Action::Jump, None) => false,
        _ => true,
    }
}

// What a face of a panel makes of a species on which it acts.
fn panel_change(surfaces: &[Surface], panel: &Panel, face: Face, species: u16) -> u16
    ensures { result ≡ panel_change surfaces.now panel.now face species }
{
    let action = action_written(surfaces, panel, face, species);
    if is_carried_out(action, destination_of(panel, face)) {
        change_written(surfaces, panel, face, species).unwrap_or(species)
    } else {
        species
    }
}

impl Config {
    /// The species, by its number, that a face of a panel, or of a wall, makes of a species on which it acts: the one that the
    /// surface names, where the action that it names is the one that is done, and else the species itself. A wall changes none,
    /// and a jump that leads nowhere doesn't either. Walls are numbered after all panels. Takes no memory.
    #[tactic(auto, unfolding(crate::specs::Actions::change_of))]
    pub fn change_at(&self, number: u16, face: Face, species: u16) -> u16
        requires number { number < length self.now.panels + length self.now.walls }
        requires species { species < length self.now.species }
        ensures { result ≡ change_of self.now number face species }
    {
        match self.panels().get(number as usize) {
            Some(panel) => panel_change(self.surfaces(), panel, face, species),
            None => species,
        }
    }
}

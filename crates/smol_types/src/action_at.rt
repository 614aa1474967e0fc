//! What faces do to a species.
ghost use Rattle.std.specs.Prelude.{◌≡◌, ◌+◌, ◌<◌, length, slice_get};
ghost use Rattle.smol_types.specs.Actions.{action_of, action_written, destination_of, panel_action, wall_action, written_action};

use crate::{Action, Config, Face, Letter, Panel, Surface};

// What a surface says of a species on a face. It lets a species through that it doesn't know.
fn written_action(surface: &Surface, face: Face, species: u16) -> Action
    ensures { result ≡ written_action surface.now face species }
{
    let actions = match face {
        Face::Front => surface.front.as_slice(),
        Face::Back => surface.back.as_slice(),
    };
    match actions.get(species as usize) {
        Some(action) => *action,
        None => Action::Transmit,
    }
}

/// What the surface of a panel says of a species on a face. It lets a species through where there isn't the surface.
pub fn action_written(surfaces: &[Surface], panel: &Panel, face: Face, species: u16) -> Action
    ensures { result ≡ action_written (slice_get surfaces.now panel.now.surface) face species }
{
    match surfaces.get(panel.surface as usize) {
        Some(surface) => written_action(surface, face, species),
        None => Action::Transmit,
    }
}

/// The panel, by its number, and the face of it to which a jump from a face leads.
pub fn destination_of(panel: &Panel, face: Face) -> Option<(u16, Face)>
    ensures { result ≡ destination_of panel.now face }
{
    match face {
        Face::Front => panel.front_to,
        Face::Back => panel.back_to,
    }
}

// What a face of a panel does to a species: a jump that leads nowhere lets it through.
fn panel_action(surfaces: &[Surface], panel: &Panel, face: Face, species: u16) -> Action
    ensures { result ≡ panel_action surfaces.now panel.now face species }
{
    let action = action_written(surfaces, panel, face, species);
    match (action, destination_of(panel, face)) {
        (Action::Jump, None) => Action::Transmit,
        _ => action,
    }
}

// What a face of a wall does.
fn wall_action(letter: Letter, face: Face) -> Action
    ensures { result ≡ wall_action letter face }
{
    match (letter, face) {
        (Letter::R, Face::Front) => Action::Reflect,
        (Letter::P, Face::Front) => Action::Jump,
        (Letter::A, Face::Front) => Action::Absorb,
        (Letter::T, Face::Front) | (_, Face::Back) => Action::Transmit,
    }
}

impl Config {
    /// What a face of a panel, or of a wall, does to a species. Walls are numbered after all panels. Takes no memory.
    #[tactic(auto, unfolding(crate::specs::Actions::action_of))]
    pub fn action_at(&self, number: u16, face: Face, species: u16) -> Action
        requires number { number < length self.now.panels + length self.now.walls }
        requires species { species < length self.now.species }
        ensures { result ≡ action_of self.now number face species }
    {
        let panels = self.panels();
        let walls = self.walls();
        match panels.get(number as usize) {
            Some(panel) => panel_action(self.surfaces(), panel, face, species),
            None => wall_action(walls[number as usize - panels.len()].letter, face),
        }
    }
}

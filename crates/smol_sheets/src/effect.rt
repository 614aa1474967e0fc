//! What faces do to a molecule that arrives on them: here alone a panel and a wall differ.
ghost use Rattle.std.specs.Prelude.{◌≡◌, ◌<◌, ◌≤◌, ◌==◌, ◌&&◌, ◌+◌, ◌-◌, ◌-ℤ◌, ◌^◌, Some, not, length, All, slice_get, unsigned_abs};
ghost use Rattle.smol_geom.specs.Axes.{IsWithin};
ghost use Rattle.smol_types.specs.declared.surface.Panel.{Panel};
ghost use Rattle.smol_types.specs.declared.wall.Wall.{Wall};
ghost use Rattle.smol_types.specs.Actions.{destination_of};
ghost use Rattle.smol_types.specs.Limits.{farthest};
ghost use Rattle.smol_meaning.specs.Folds.{IsWallPlane};
ghost use Rattle.smol_meaning.specs.Plates.{are_same, effect_of};
ghost use Rattle.smol_meaning.specs.Seen.{arrival_face, corner_gap, leaves_up, opposite_of, panel_jump, panel_plate, response_by, wall_jump, wall_plate};

use crate::Panels;
use smol_geom::Rect;
use smol_meaning::{Effect, Response};
use smol_types::{Action, Config, Face, Panel, Wall};

impl<'a> Panels<'a> {
    ghost use Rattle.std.specs.Prelude.{◌≡◌, ◌<◌, ◌+◌, Some, length, slice_get};
    ghost use Rattle.smol_meaning.specs.Plates.{Plate, effect_of};
    ghost use Rattle.smol_meaning.specs.Seen.{plates_of};

    /// What the panel or wall of a number does to a molecule of a species that arrives on it going up or down, and which species it
    /// makes of it.
    pub fn effect(&self, number: u16, up: bool, species: u16) -> Effect
        requires number { number < length self.now.panels + length self.now.walls }
        requires species { species < length self.now.species }
        ensures value { (plate : Plate) → slice_get (plates_of self.now) number ≡ Some plate → result ≡ effect_of plate up species }
        ensures known { result.species < length self.now.species }
    {
        let config = self.config();
        let panels = config.panels();
        let place = number as usize;
        if place < panels.len() {
            panel_effect(config, number, &panels[place], up, species)
        } else {
            let wall = &config.walls()[place - panels.len()];
            wall_effect(config, number, wall, up, species)
        }
    }
}

// What the panel of a number does to motion that goes up or not.
fn panel_effect(config: &Config, number: u16, panel: &Panel, up: bool, species: u16) -> Effect
    requires number { slice_get config.now.panels number ≡ Some panel.now }
    requires species { species < length config.now.species }
    ensures value { result ≡ effect_of (panel_plate config.now (number, panel.now)) up species }
    ensures known { result.species < length config.now.species }
{
    let face = arrival_face(panel.greater, up);
    let jump = panel_jump(config.panels(), panel, destination(panel, face));
    let action = config.action_at(number, face, species);
    Effect {
        response: response_by(number, action, jump),
        species: config.change_at(number, face, species),
    }
}

// What the wall of a number does to motion that goes up or not.
fn wall_effect(config: &Config, number: u16, wall: &Wall, up: bool, species: u16) -> Effect
    requires number { number < length config.now.panels + length config.now.walls }
    requires wall { slice_get config.now.walls (number - length config.now.panels) ≡ Some wall.now }
    requires species { species < length config.now.species }
    ensures value { result ≡ effect_of (wall_plate config.now (number, wall.now)) up species }
    ensures known { result.species < length config.now.species }
{
    let face = arrival_face(!wall.upper, up);
    let jump = wall_jump(config.walls(), wall, up);
    let action = config.action_at(number, face, species);
    Effect {
        response: response_by(number, action, jump),
        species,
    }
}

// The face of arrival, where the front is the side of greater coordinates or not, and the motion goes up or not.
fn arrival_face(greater: bool, up: bool) -> Face
    ensures { result ≡ arrival_face greater up }
{
    if are_same(greater, up) {
        Face::Back
    } else {
        Face::Front
    }
}

// Whether two answers are one.
fn are_same(a: bool, b: bool) -> bool
    ensures { result ≡ are_same a b }
{
    if a { b } else { !b }
}

// What an action is to a molecule, where a jump is this one.
fn response_by(number: u16, action: Action, jump: Response) -> Response
    ensures { result ≡ response_by number action jump }
{
    match action {
        Action::Reflect => Response::Reflect,
        Action::Absorb => Response::Absorb { number },
        Action::Jump => jump,
        Action::Transmit => Response::Pass,
    }
}

// Where a jump from a face of a panel leads.
fn destination(panel: &Panel, face: Face) -> Option<(u16, Face)>
    ensures { result ≡ destination_of panel.now face }
{
    match face {
        Face::Front => panel.front_to,
        Face::Back => panel.back_to,
    }
}

// A jump from a panel to a destination.
fn panel_jump(panels: &[Panel], panel: &Panel, to: Option<(u16, Face)>) -> Response
    requires panels { All (λ (other : Panel). IsWithin farthest other.rect.low) panels.now }
    requires panel { IsWithin farthest panel.now.rect.low }
    ensures { result ≡ panel_jump panels.now panel.now to }
{
    match to {
        Some((number, face)) => match panels.get(number as usize) {
            Some(other) => Response::Jump {
                by: corner_gap(&panel.rect, &other.rect),
                up: leaves_up(other.greater, face),
            },
            None => Response::Pass,
        },
        None => Response::Pass,
    }
}

// How far the low corner of a rectangle is from that of another.
fn corner_gap(from: &Rect, to: &Rect) -> [i64; 3]
    requires from { IsWithin farthest from.now.low }
    requires to { IsWithin farthest to.now.low }
    ensures { result ≡ corner_gap from.now to.now }
{
    [
        gap(from.low[0], to.low[0]),
        gap(from.low[1], to.low[1]),
        gap(from.low[2], to.low[2]),
    ]
}

// How far a coordinate is from another.
fn gap(from: i64, to: i64) -> i64
    requires from { unsigned_abs from ≤ farthest }
    requires to { unsigned_abs to ≤ farthest }
    ensures value { result ≡ to -ℤ from }
    ensures size { unsigned_abs result ≤ 2 ^ 42 }
{
    to - from
}

// Whether motion that leaves a face outwards goes up.
fn leaves_up(greater: bool, face: Face) -> bool
    ensures { result ≡ leaves_up greater face }
{
    match face {
        Face::Front => greater,
        Face::Back => !greater,
    }
}

// A jump from a wall to the other one of its axis.
fn wall_jump(walls: &[Wall], wall: &Wall, up: bool) -> Response
    requires walls { All (λ (other : Wall). IsWallPlane other.axis other.plane) walls.now }
    requires wall { IsWallPlane wall.now.axis wall.now.plane }
    ensures { result ≡ wall_jump wall.now up (opposite_of walls.now wall.now) }
{
    match opposite(walls, wall) {
        Some(other) => {
            let mut by = [0; 3];
            by[wall.axis as usize] = gap(wall.plane, other.plane);
            Response::Jump { by, up }
        }
        None => Response::Pass,
    }
}

// The other wall of the same axis.
fn opposite(walls: &[Wall], wall: &Wall) -> Option<Wall>
    ensures { result ≡ opposite_of walls.now wall.now }
{
    walls.iter().copied().find(|other| is_opposite(other, wall))
}

// Whether two walls are the two of one axis.
fn is_opposite(other: &Wall, wall: &Wall) -> bool
    ensures { result ≡ ((other.now.axis == wall.now.axis) && not (are_same other.now.upper wall.now.upper)) }
{
    other.axis == wall.axis && !are_same(other.upper, wall.upper)
}

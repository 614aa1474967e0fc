//! Places that are drawn for molecules.
ghost use Rattle.std.specs.Prelude.{◌≡◌, ◌^◌, ◌<◌, length};
ghost use Rattle.smol_types.specs.Sound.{IsSound};
ghost use Rattle.smol_types.specs.Walls.{AreWalls};
ghost use Rattle.smol_meaning.specs.Placement.{first_inside, most_tries, place_at_try};
ghost use Rattle.smol_compart.specs.Coordinate.{coordinate_on};

use crate::compartment::inside;
use smol_geom::Place;
use smol_streams::Streams;
use smol_types::{Config, Given, Wall};

// How often a place is drawn for a molecule that is to be inside a compartment.
const MOST_TRIES: u32 = 1000;

// All coordinates are to be drawn.
const ANYWHERE: [Given; 3] = [Given::Any, Given::Any, Given::Any];

/// The first place inside a compartment of those that are drawn for a molecule.
pub fn first_inside(
    config: &Config,
    streams: &mut Streams,
    serial: u64,
    compartment: u16,
) -> Option<Place>
    requires compartment { compartment < length config.now.compartments }
    requires serial { serial < 2 ^ 62 }
    ensures place { result ≡ first_inside config.now streams.old serial compartment 0 most_tries }
    ensures seed { streams.new ≡ streams.old }
{
    for attempt in 0..MOST_TRIES {
        let place = place_at_try(config, streams, serial, attempt, ANYWHERE);
        if inside(config, compartment, &place) {
            return Some(place);
        }
    }
    None
}

/// The place of a molecule at a try. What isn't given is drawn.
pub fn place_at_try(
    config: &Config,
    streams: &mut Streams,
    serial: u64,
    attempt: u32,
    given: [Given; 3],
) -> Place
    requires serial { serial < 2 ^ 62 }
    requires given { length given ≡ 3 }
    ensures place { result ≡ place_at_try config.now streams.old serial attempt given }
    ensures sound { IsSound config.now }
    ensures seed { streams.new ≡ streams.old }
{
    let walls = config.walls();
    Place([
        coordinate_on(walls, streams, serial, attempt, 0, given[0]),
        coordinate_on(walls, streams, serial, attempt, 1, given[1]),
        coordinate_on(walls, streams, serial, attempt, 2, given[2]),
    ])
}

// The coordinate on an axis: as given, or drawn between the walls where the axis is in use.
fn coordinate_on(
    walls: &[Wall],
    streams: &mut Streams,
    serial: u64,
    attempt: u32,
    axis: u8,
    given: Given,
) -> i64
    requires walls { AreWalls 0 walls.now }
    requires serial { serial < 2 ^ 62 }
    ensures value { result ≡ coordinate_on walls.now streams.old serial attempt axis given }
    ensures seed { streams.new ≡ streams.old }
{
    let lower = 2 * axis as usize;
    match given {
        Given::At(x) => x,
        Given::Any => {
            if lower + 1 < walls.len() {
                let low = walls[lower].plane;
                let high = walls[lower + 1].plane;
                streams.coordinate(serial, attempt, axis, low, high)
            } else {
                1
            }
        }
    }
}

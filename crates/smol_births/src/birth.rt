//! What reactions make.
ghost use Rattle.std.specs.Prelude.{◌≡◌, ◌+◌, ◌*◌, ◌++◌, ◌^◌, ◌<◌, ◌≤◌, All, IfOk, OnOk, length, unsigned_abs};
ghost use Rattle.smol_types.specs.Limits.{last_serial, longest, most_products};
ghost use Rattle.smol_types.specs.Reactions.{IsPlacement};
ghost use Rattle.smol_meaning.specs.Births.{IsBirth, IsEvent};
ghost use Rattle.smol_meaning.specs.Events.{along, apart, births_in, births_of, offset_of};

use smol_geom::Step3;
use smol_meaning::{Birth, Fired};
use smol_types::{Config, Placement, Product, Reaction};
use std::alloc::{AllocError, Global};

// The displacement along one axis.
fn along(axis: u8, x: i64) -> Step3
    ensures { result ≡ along axis x }
{
    Step3([
        if axis == 0 { x } else { 0 },
        if axis == 1 { x } else { 0 },
        if axis == 2 { x } else { 0 },
    ])
}

// How far from the start a product goes that is taken apart from another by so many micros: the first
// half of it up the axis, and the other one the rest down.
fn apart(distance: u64, axis: u8, index: usize) -> Step3
    requires { distance ≤ longest }
    ensures { result ≡ apart distance axis index }
{
    let x = if index == 0 {
        2 * distance.div_ceil(2) as i64
    } else {
        -(2 * (distance / 2) as i64)
    };
    along(axis, x)
}

// The displacement of the product of this index in its reaction.
fn offset_of(placement: &Placement, axis: u8, index: usize, product: &Product) -> Step3
    requires { IsPlacement 2 placement.now }
    ensures { result ≡ offset_of placement.now axis index product.now }
{
    match placement {
        Placement::Offsets => product.offset,
        Placement::Unbind(distance) => apart(distance.unsigned_abs(), axis, index),
    }
}

// Adds what an event of this reaction makes, with serials from this one on.
fn bear(
    reaction: &Reaction,
    event: &Fired,
    serial: u64,
    births: &mut Vec<Birth>,
) -> Result<(), AllocError>
    requires count { length reaction.now.products ≤ most_products }
    requires placement { IsPlacement (length reaction.now.products) reaction.now.placement }
    requires serial { serial + most_products < 2 ^ 64 }
    ensures { OnOk result (births.new.items ≡ births.old.items
        ++ births_in reaction.now.placement event.now serial 0 reaction.now.products) }
{
    for (index, product) in reaction.products.as_slice().iter().enumerate() {
        births.push(Birth {
            serial: serial + index as u64,
            species: product.species,
            start: event.start,
            by: offset_of(&reaction.placement, event.axis, index, product),
        })?;
    }
    Ok(())
}

/// What events make, in their order and each event's products as they are written, with serials from
/// this one on.
pub fn births(
    alloc: Global,
    config: &Config,
    events: &[Fired],
    next: u64,
) -> Result<Vec<Birth>, AllocError>
    requires next { next ≤ last_serial }
    requires count { length events.now ≤ 1000000 }
    requires events { All (IsEvent config.now) events.now }
    ensures births { IfOk result (λ births. births.items ≡ births_of config.now next events.now) }
    ensures each { IfOk result (λ births. All (IsBirth config.now) births.items) }
    ensures count { IfOk result (λ births. length births.items ≤ 16 * length events.now) }
{
    let reactions = config.reactions();
    let mut births = Vec::new(alloc);
    for event in events {
        let reaction = &reactions[event.reaction as usize];
        let serial = next + births.len() as u64;
        bear(reaction, event, serial, &mut births)?;
    }
    Ok(births)
}

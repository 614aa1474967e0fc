//! Both calls that read a block, on whole texts.
ghost use Rattle.std.specs.Prelude.{IfOk};
ghost use Rattle.smol_blocks.specs.Names.{AreNames};

use crate::compartment_block::read_compartment;
use crate::names::Names;
use crate::surface_block::read_surface;
use smol_geom::{Place, Rect};
use smol_line::{NameSet, Refusal, new_name_in};
use smol_text::{Text, TextFault, split_lines};
use smol_types::{Action, Items, Letter, Panel, Wall};
use std::alloc::Global;
use std::test::Fail;

const SURFACES: &str = "dim 3
species A
boundaries x 0 100 r
boundaries y 0 100 r
boundaries z 0 100 r
time_start 0
time_stop 1
time_step 1
species B
start_surface s1
panel rect +0 60 0 0 50 100
end_surface
start_surface s2
action both all reflect
panel rect +0 60 50 0 50 100
end_surface
";

const COMPARTMENT: &str = "dim 3
species A
boundaries x 0 100 r
boundaries y 0 100 r
boundaries z 0 100 r
time_start 0
time_stop 1
time_step 1
start_surface s
panel rect +0 100 0 0 100 100
end_surface
start_compartment c
surface s
point 150 50 50
end_compartment
";

fn text_of(alloc: Global, lines: &str) -> Result<Text, TextFault> {
    if lines.len() > 4_194_304 {
        return Err(TextFault::OutOfMemory);
    }
    split_lines(alloc, lines.as_bytes())
}

fn two_species(alloc: Global) -> Result<NameSet, Refusal> {
    let mut species = one_name(alloc, "A")?;
    let second = new_name_in(&species, b"B")?;
    species.add(alloc, second)?;
    Ok(species)
}

// A wall of an axis at 0 or at 100.
fn wall(axis: u8, upper: bool) -> Wall {
    Wall {
        axis,
        plane: if upper { 200_000_000 } else { 0 },
        upper,
        letter: Letter::R,
    }
}

// What the lines before a block give in both texts, beside these surfaces with so many panels.
fn names_with(alloc: Global, surfaces: NameSet, panels: u32) -> Result<Names, Refusal>
    ensures { IfOk result AreNames }
{
    let walls = [
        wall(0, false),
        wall(0, true),
        wall(1, false),
        wall(1, true),
        wall(2, false),
        wall(2, true),
    ];
    let species = two_species(alloc)?;
    if species.len() > 256 || surfaces.len() > 256 || panels > 4096 {
        return Err(Refusal::OutOfMemory);
    }
    Ok(Names {
        dims: 3,
        walls: Items::from_slice(alloc, &walls)?,
        species,
        surfaces,
        compartments: NameSet::new(alloc),
        panels,
    })
}

// The names of one thing.
fn one_name(alloc: Global, name: &str) -> Result<NameSet, Refusal> {
    let mut names = NameSet::new(alloc);
    let new = new_name_in(&names, name.as_bytes())?;
    names.add(alloc, new)?;
    Ok(names)
}

// A panel across the first axis at 60 that faces greater coordinates, from y to 50 behind it.
fn panel(y: i64, surface: u16) -> Panel {
    let y = y.clamp(0, 1_000_000_000);
    Panel {
        rect: Rect {
            axis: 0,
            low: [120_000_000, y, 0],
            high: [120_000_000, y + 100_000_000, 200_000_000],
        },
        greater: true,
        surface,
        front_to: None,
        back_to: None,
    }
}

#[test]
fn a_surface_is_read(rt: HostRuntime) -> Result<(), Fail> {
    let text = text_of(rt.alloc(), SURFACES)?;
    assert_eq!(rt; text.len(), 16);
    let names = names_with(rt.alloc(), NameSet::new(rt.alloc()), 0)?;
    let (first, next) = read_surface(rt.alloc(), &text, 9, &names)?;
    assert_eq!(rt; next, 12);
    assert_eq!(rt; first.name.as_str(), "s1");
    let through = [Action::Transmit, Action::Transmit];
    assert_eq!(rt; first.surface.front.as_slice(), through.as_slice());
    assert_eq!(rt; first.surface.back.as_slice(), through.as_slice());
    assert_eq!(rt; first.panels.as_slice(), [panel(0, 0)].as_slice());
    let names = names_with(rt.alloc(), one_name(rt.alloc(), "s1")?, 1)?;
    let (second, next) = read_surface(rt.alloc(), &text, 12, &names)?;
    assert_eq!(rt; next, 16);
    assert_eq!(rt; second.name.as_str(), "s2");
    let reflecting = [Action::Reflect, Action::Reflect];
    assert_eq!(rt; second.surface.front.as_slice(), reflecting.as_slice());
    assert_eq!(rt; second.surface.back.as_slice(), reflecting.as_slice());
    assert_eq!(rt;
        second.panels.as_slice(),
        [panel(100_000_000, 1)].as_slice()
    );
    Ok(())
}

#[test]
fn a_compartment_is_read(rt: HostRuntime) -> Result<(), Fail> {
    let text = text_of(rt.alloc(), COMPARTMENT)?;
    assert_eq!(rt; text.len(), 15);
    let names = names_with(rt.alloc(), one_name(rt.alloc(), "s")?, 1)?;
    let (draft, next) = read_compartment(rt.alloc(), &text, 11, &names)?;
    assert_eq!(rt; next, 15);
    assert_eq!(rt; draft.name.as_str(), "c");
    assert_eq!(rt; draft.compartment.surfaces.as_slice(), [0].as_slice());
    let point = Place([300_000_001, 100_000_001, 100_000_001]);
    assert_eq!(rt; draft.compartment.points.as_slice(), [point].as_slice());
    Ok(())
}

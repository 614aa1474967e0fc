//! The tests of the whole file, and what its lines make together.
ghost use Rattle.std.specs.Prelude.{◌≡◌, ◌≤◌, ◌<ℤ◌, ◌++◌, true, false, pos, ℕ, List, Option, length, Ok, Err, IfOk, IfSome, OnOk, MatchResult, nat_le, sum_by, unsigned_abs};
ghost use Rattle.std.specs.List.{list_all};
ghost use Rattle.smol_types.specs.declared.fault.Kind.{Kind as TheKind};
ghost use Rattle.smol_types.specs.Limits.{latest, most_species, most_steps};
ghost use Rattle.smol_types.specs.Placings.{placed_by};
ghost use Rattle.smol_line.specs.declared.refusal.Refusal.TheVariants.{At};
ghost use Rattle.smol_line.specs.Axes.{walls_at, walls_of};
ghost use Rattle.smol_line.specs.Fault.{fault_at};
ghost use Rattle.smol_types.specs.Steps.{last_step};
ghost use Rattle.smol_reactions.specs.Content.{are_shared, chances_of};
ghost use Rattle.smol_reactions.specs.Table.{IsKept};
ghost use Rattle.smol_config.specs.Reactions.{reactions_said};
ghost use Rattle.smol_config.specs.Said.{Said};
ghost use Rattle.smol_config.specs.Motion.{difstep_of};
ghost use Rattle.smol_config.specs.Content.{content_of, started};
ghost use Rattle.smol_config.specs.Tables.{AreSmall, Holds, IsReached, drafted, species_made};
ghost use Rattle.smol_config.specs.Whole.{bounded, has_chances, has_difstep, has_few_steps, needed_from, closed_in};

use crate::motion::{MOST_DIFSTEP, Motion, difstep_of};
use crate::species_table::SpeciesTable;
use crate::tables::Tables;
use crate::times::Times;
use smol_blocks::Blocks;
use smol_line::{Axes, Bounds, NameSet, Refusal, is_walled, unless};
use smol_reactions::are_enough;
use smol_types::{
    Compartment, Config, Draft, Items, Kind, Name, Need, Panel, Placing, Species, Surface, Wall,
    last_step,
};
use std::alloc::{AllocError, Global};

/// How many steps a run may make.
const MOST_STEPS: u64 = 4_000_000;

/// How many molecules there may be where the configuration doesn't say.
const DEFAULT_MAX_MOL: u32 = 100_000;

/// What a file can't do without.
#[derive(Clone, Copy, Debug, PartialEq, Eq)]
pub struct Needed {
    pub dims: u8,
    pub stop: i64,
    pub step: i64,
}

// What the whole file gives of what it can't do without.
#[tactic(auto, unfolding(crate::specs::Whole::needed_from))]
fn needed_from(axes: &Axes, times: &Times) -> Result<Needed, Kind>
    ensures { result ≡ needed_from axes.now times.now }
{
    let Some(dims) = axes.dims else {
        return Err(Kind::Missing(Need::Dim));
    };
    let x = is_walled(dims, 0, &axes.x);
    unless(x, Kind::Missing(Need::Boundaries(0)))?;
    let y = is_walled(dims, 1, &axes.y);
    unless(y, Kind::Missing(Need::Boundaries(1)))?;
    let z = is_walled(dims, 2, &axes.z);
    unless(z, Kind::Missing(Need::Boundaries(2)))?;
    let Some(stop) = times.stop else {
        return Err(Kind::Missing(Need::TimeStop));
    };
    let Some(step) = times.step else {
        return Err(Kind::Missing(Need::TimeStep));
    };
    Ok(Needed { dims, stop, step })
}

// Adds the two walls of an axis that has some.
fn add_walls(walls: &mut Items<Wall>, axis: u8, bounds: &Option<Bounds>) -> Result<(), AllocError>
    requires { IfSome bounds.now AreSmall }
    ensures { OnOk result (walls.new ≡ walls.old ++ walls_at axis bounds.now) }
{
    match bounds {
        None => Ok(()),
        Some(bounds) => {
            walls.push(Wall {
                axis,
                plane: 2 * bounds.low.0,
                upper: false,
                letter: bounds.letter,
            })?;
            walls.push(Wall {
                axis,
                plane: 2 * bounds.high.0,
                upper: true,
                letter: bounds.letter,
            })
        }
    }
}

// The walls of the axes in use, in order.
#[tactic(auto, unfolding(smol_line::specs::Axes::walls_of))]
fn walls_of(alloc: Global, axes: &Axes) -> Result<Items<Wall>, AllocError>
    requires x { IfSome axes.now.x AreSmall }
    requires y { IfSome axes.now.y AreSmall }
    requires z { IfSome axes.now.z AreSmall }
    ensures { IfOk result (λ walls. walls ≡ walls_of axes.now) }
{
    let mut walls = Items::new(alloc);
    add_walls(&mut walls, 0, &axes.x)?;
    add_walls(&mut walls, 1, &axes.y)?;
    add_walls(&mut walls, 2, &axes.z)?;
    Ok(walls)
}

// The difstep of a motion, where a step takes this time.
fn difstep_in(motion: Motion, time: i64) -> Result<u32, Kind>
    ensures { MatchResult result
        (λ step. (step ≡ difstep_of time motion) × (step ≤ 1000000000))
        (λ kind. (kind ≡ Kind.OutOfRange) × (nat_le (difstep_of time motion) 1000000000 ≡ false)) }
{
    let step = difstep_of(motion, time);
    if step <= u64::from(MOST_DIFSTEP) {
        Ok(step as u32)
    } else {
        Err(Kind::OutOfRange)
    }
}

// The species of a table in their order, where a step takes this time.
fn make_species(alloc: Global, species: &SpeciesTable, time: i64) -> Result<Items<Species>, Refusal>
    ensures made { IfOk result (λ made. made ≡ species_made time species.now.motions.items 0 species.now.names) }
    ensures near { IfOk result (λ made. list_all has_difstep made ≡ true) }
    ensures refused { (kind : TheKind) → result ≡ Err (At kind)
        → (kind ≡ Kind.OutOfRange) × (list_all has_difstep (species_made time species.now.motions.items 0 species.now.names) ≡ false) }
{
    let mut made = Items::new(alloc);
    for number in 0..species.names.len() {
        let step = difstep_in(species.motions[number], time)?;
        let name = Name::from_text(alloc, species.names.name(number))?;
        made.push(Species { name, step })?;
    }
    Ok(made)
}

// The names of a set in their order.
fn make_names(alloc: Global, names: &NameSet) -> Result<Items<Name>, AllocError>
    ensures { IfOk result (λ made. made ≡ names.now) }
{
    let mut made = Items::new(alloc);
    for number in 0..names.len() {
        let name = Name::from_text(alloc, names.name(number))?;
        made.push(name)?;
    }
    Ok(made)
}

// How many molecules a statement places.
fn placed_by(placing: &Placing) -> u32
    ensures { result ≡ placed_by placing.now }
{
    match placing {
        Placing::Mol { n, .. } => *n,
        Placing::InCompartment { n, .. } => *n,
    }
}

// Whether no more molecules are placed than there may be.
fn are_few(placings: &[Placing], most: u32) -> bool
    ensures { result ≡ nat_le (sum_by placed_by placings.now) most }
{
    let mut placed: u64 = 0;
    for placing in placings {
        placed += u64::from(placed_by(placing));
        if placed > u64::from(most) {
            return false;
        }
    }
    true
}

// The surfaces, panels and compartments whose blocks are closed.
fn block_lists(blocks: Blocks) -> (Items<Surface>, Items<Panel>, Items<Compartment>)
    ensures surfaces { result.0 ≡ blocks.surfaces }
    ensures panels { result.1 ≡ blocks.panels }
    ensures compartments { result.2 ≡ blocks.compartments }
{
    (blocks.surfaces, blocks.panels, blocks.compartments)
}

/// What of a draft is made from the tables, and not taken out of them.
#[derive(Drop)]
pub struct Parts {
    pub start: i64,
    pub species: Items<Species>,
    pub walls: Items<Wall>,
    pub outputs: Items<Name>,
}

// The parts of a draft, as long as the steps are few, the difsteps small and the probabilities no more than 1.
fn parts_of(alloc: Global, needed: Needed, tables: &Tables) -> Result<Parts, Refusal>
    requires start { IfSome tables.now.times.start (λ time. unsigned_abs time ≤ latest) }
    requires stop { unsigned_abs needed.stop ≤ latest }
    requires step { unsigned_abs needed.step ≤ latest }
    requires step_above { pos 0 <ℤ needed.step }
    requires x { IfSome tables.now.axes.x AreSmall }
    requires y { IfSome tables.now.axes.y AreSmall }
    requires z { IfSome tables.now.axes.z AreSmall }
    requires species { length tables.now.species.names ≤ most_species }
    requires kept { IsKept tables.now.reactions }
    ensures start { IfOk result (λ parts. parts.start ≡ started tables.now.times.start) }
    ensures species { IfOk result (λ parts. parts.species
        ≡ species_made needed.step tables.now.species.motions.items 0 tables.now.species.names) }
    ensures walls { IfOk result (λ parts. parts.walls ≡ walls_of tables.now.axes) }
    ensures outputs { IfOk result (λ parts. parts.outputs ≡ tables.now.outputs) }
    ensures few { IfOk result (λ parts. nat_le (last_step parts.start needed.stop needed.step) most_steps ≡ true) }
    ensures near { IfOk result (λ parts. list_all has_difstep parts.species ≡ true) }
    ensures shared { IfOk result
        (λ parts. are_shared (length parts.species) tables.now.reactions.list.items tables.now.reactions.chances.items ≡ true) }
    ensures refused { (kind : TheKind) (before : List Said) → result ≡ Err (At kind) → Holds tables.now before
        → bounded (chances_of (reactions_said before)) (content_of needed before) ≡ Err kind }
{
    let start = tables.times.start.unwrap_or(0);
    let few = last_step(start, needed.stop, needed.step) <= MOST_STEPS;
    unless(few, Kind::TooMany)?;
    let species = make_species(alloc, &tables.species, needed.step)?;
    let shared = tables
        .reactions
        .are_shared(tables.species.names.len() as u16);
    unless(shared, Kind::ProbabilitySum)?;
    let walls = walls_of(alloc, &tables.axes)?;
    let outputs = make_names(alloc, &tables.outputs)?;
    Ok(Parts {
        start,
        species,
        walls,
        outputs,
    })
}

// The draft of these parts and of what the tables hand over.
fn drafted(needed: Needed, parts: Parts, tables: Tables) -> Draft
    requires stop { unsigned_abs needed.stop ≤ latest }
    requires step { unsigned_abs needed.step ≤ latest }
    requires step_above { pos 0 <ℤ needed.step }
    requires start { unsigned_abs parts.start ≤ latest }
    requires kept { IsKept tables.reactions }
    ensures { result ≡ drafted needed parts tables }
{
    let (surfaces, panels, compartments) = block_lists(tables.blocks);
    let reactions = tables.reactions.into_list(needed.step);
    Draft {
        dims: needed.dims,
        species: parts.species,
        walls: parts.walls,
        surfaces,
        panels,
        compartments,
        reactions,
        placings: tables.placings,
        commands: tables.commands,
        outputs: parts.outputs,
        start: parts.start,
        stop: needed.stop,
        step: needed.step,
        max_mol: tables.max_mol.unwrap_or(DEFAULT_MAX_MOL),
        seed: tables.seed,
        nearest: tables.nearest.unwrap_or(false),
    }
}

// What the lines make together, as long as the steps are few, the difsteps small and the probabilities no more than 1.
fn draft_of(alloc: Global, needed: Needed, tables: Tables) -> Result<Draft, Refusal>
    requires start { IfSome tables.times.start (λ time. unsigned_abs time ≤ latest) }
    requires stop { unsigned_abs needed.stop ≤ latest }
    requires step { unsigned_abs needed.step ≤ latest }
    requires step_above { pos 0 <ℤ needed.step }
    requires x { IfSome tables.axes.x AreSmall }
    requires y { IfSome tables.axes.y AreSmall }
    requires z { IfSome tables.axes.z AreSmall }
    requires species { length tables.species.names ≤ most_species }
    requires kept { IsKept tables.reactions }
    ensures content { IfOk result (λ draft. (before : List Said) → Holds tables before → draft ≡ content_of needed before) }
    ensures few { IfOk result (λ draft. has_few_steps draft ≡ true) }
    ensures near { IfOk result (λ draft. list_all has_difstep draft.species ≡ true) }
    ensures shared { IfOk result (λ draft. has_chances tables.reactions.chances.items draft ≡ true) }
    ensures refused { (kind : TheKind) (before : List Said) → result ≡ Err (At kind) → Holds tables before
        → bounded (chances_of (reactions_said before)) (content_of needed before) ≡ Err kind }
{
    let parts = parts_of(alloc, needed, &tables)?;
    Ok(drafted(needed, parts, tables))
}

// What the lines make together, unless the random words aren't enough for its reactions or too many molecules are placed.
#[tactic(auto, unfolding(crate::specs::Whole::bounded))]
fn bounded(draft: Draft) -> Result<Draft, Kind>
    requires species { length draft.species ≤ most_species }
    requires few { has_few_steps draft ≡ true }
    requires near { list_all has_difstep draft.species ≡ true }
    ensures { (chances : List (Option ℕ)) → has_chances chances draft ≡ true → result ≡ bounded chances draft }
{
    unless(
        are_enough(draft.species.len() as u16, draft.reactions.as_slice()),
        Kind::ProbabilitySum,
    )?;
    unless(
        are_few(draft.placings.as_slice(), draft.max_mol),
        Kind::TooMany,
    )?;
    Ok(draft)
}

/// What the lines read so far make together, where the whole file passes its tests and no block is open.
pub fn finish(alloc: Global, tables: Tables) -> Result<Config, Refusal>
    requires { IsReached tables }
    ensures accepted { IfOk result (λ config. (before : List Said) → Holds tables before → closed_in before ≡ Ok config) }
    ensures refused { (kind : TheKind) (before : List Said) → result ≡ Err (At kind) → Holds tables before
        → closed_in before ≡ Err (fault_at 0 kind) }
{
    let needed = needed_from(&tables.axes, &tables.times)?;
    let draft = draft_of(alloc, needed, tables)?;
    let draft = bounded(draft)?;
    Ok(Config::of(draft))
}

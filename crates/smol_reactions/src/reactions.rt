//! What a reader keeps of reactions.
ghost use Rattle.std.specs.Prelude.{◌≡◌, ◌≤◌, ◌<ℤ◌, pos, unsigned_abs, [], length, map, IfOk};
ghost use Rattle.smol_reactions.specs.Numbered.{changed};
ghost use Rattle.smol_types.specs.Limits.{latest, most_reactions};
ghost use Rattle.smol_types.specs.Reactions.{reacts_alone};
ghost use Rattle.smol_reactions.specs.Content.{are_shared, chance_alone, chance_sum, usual_threshold};
ghost use Rattle.smol_reactions.specs.Rates.{all_rated};
ghost use Rattle.smol_reactions.specs.Changes.{fresh_product, fresh_reaction, with_chance, with_offset, with_placement, with_radius};

use crate::product_placement::{PlacementKind, ProductPlacement, placement_kind_of};
use crate::rates::give_thresholds;
use crate::scheme::Scheme;
use crate::{binding_radius, product_placement, reaction, reaction_probability};
use smol_geom::Step3;
use smol_line::{NameSet, Refusal, threshold_of};
use smol_num::{Micro, Threshold};
use smol_text::StatedLine;
use smol_types::{Items, Placement, Product, Reaction};
use std::alloc::{AllocError, Global};
use std::mem;

/// How many random words there are, each of which lets a certain reaction happen.
const CERTAIN: Threshold = Threshold(4_294_967_296);

/// One whole, in billionths.
const WHOLE_CHANCE: u64 = 1_000_000_000;

/// The reactions that the lines read so far say, each with what they say of it.
#[derive(Drop)]
pub struct Reactions {
    pub names: NameSet,
    pub list: Vec<Reaction>,
    /// The kind of placement that each reaction was given.
    pub kinds: Vec<Option<PlacementKind>>,
    /// The probability that each reaction was given, in billionths.
    pub chances: Vec<Option<u32>>,
}

// A product at an offset of 0.
fn fresh_product(species: u16) -> Product
    ensures { result ≡ fresh_product species }
{
    Product {
        species,
        offset: Step3([0, 0, 0]),
    }
}

// The products of these species, each at an offset of 0.
fn fresh_products(alloc: Global, numbers: &[u16]) -> Result<Items<Product>, AllocError>
    ensures { IfOk result (λ products. products ≡ map fresh_product numbers.now) }
{
    let mut products = Items::new(alloc);
    for species in numbers {
        products.push(fresh_product(*species))?;
    }
    Ok(products)
}

// The threshold of a reaction whose probability no line gives.
fn usual_threshold(order: u8) -> Threshold
    ensures { result ≡ usual_threshold order }
{
    if order == 1 { Threshold(0) } else { CERTAIN }
}

// The reaction that its own line gives, before any other line says of it.
fn fresh_reaction(alloc: Global, scheme: Scheme) -> Result<Reaction, AllocError>
    requires { length scheme.reactants ≤ 2 }
    ensures { IfOk result (λ reaction. reaction ≡ fresh_reaction scheme) }
{
    let order = scheme.reactants.len() as u8;
    let products = fresh_products(alloc, scheme.products.as_slice())?;
    Ok(Reaction {
        name: scheme.name,
        order,
        reactants: scheme.reactants,
        products,
        radius: None,
        threshold: usual_threshold(order),
        rate: scheme.rate,
        placement: Placement::Offsets,
    })
}

// Gives the reaction of this number, if there is one, a radius.
#[tactic(auto, using(crate::proofs::Lists::changed_past))]
fn set_radius(list: &mut Vec<Reaction>, number: usize, radius: Micro)
    ensures { list.new.items ≡ changed (with_radius radius) number list.old.items }
{
    if number < list.len() {
        list[number].radius = Some(radius);
    }
}

// Gives a reaction a probability in billionths, in place of its rate.
fn give_chance(reaction: &mut Reaction, chance: u32)
    ensures { reaction.new ≡ with_chance chance reaction.old }
{
    reaction.threshold = threshold_of(chance);
    reaction.rate = None;
}

// Gives the reaction of this number, if there is one, a probability in billionths.
#[tactic(auto, using(crate::proofs::Lists::changed_past))]
fn set_chance(list: &mut Vec<Reaction>, number: usize, chance: u32)
    ensures { list.new.items ≡ changed (with_chance chance) number list.old.items }
{
    if number < list.len() {
        give_chance(&mut list[number], chance);
    }
}

// Gives the product of this number, if there is one, an offset.
#[tactic(auto, using(crate::proofs::Lists::changed_past))]
fn set_offset(products: &mut Vec<Product>, number: usize, offset: Step3)
    ensures { products.new.items ≡ changed (with_offset offset) number products.old.items }
{
    if number < products.len() {
        products[number].offset = offset;
    }
}

// Places products of a reaction so.
fn place_products(alloc: Global, reaction: &mut Reaction, placement: ProductPlacement)
    ensures { reaction.new ≡ with_placement placement reaction.old }
{
    match placement {
        ProductPlacement::Offset { product, offset } => {
            let mut products = mem::replace(&mut reaction.products, Items::new(alloc)).into_vec();
            set_offset(&mut products, usize::from(product), offset);
            reaction.products = Items::from_vec(products);
        }
        ProductPlacement::Unbind(distance) => reaction.placement = Placement::Unbind(distance),
    }
}

// Places products of the reaction of this number, if there is one, so.
#[tactic(auto, using(crate::proofs::Lists::changed_past))]
fn set_placement(
    alloc: Global,
    list: &mut Vec<Reaction>,
    number: usize,
    placement: ProductPlacement,
)
    ensures { list.new.items ≡ changed (with_placement placement) number list.old.items }
{
    if number < list.len() {
        place_products(alloc, &mut list[number], placement);
    }
}

// Keeps another thing of this number, if there is one.
#[tactic(auto, using(crate::proofs::Lists::changed_past))]
fn set_kind(kinds: &mut Vec<Option<PlacementKind>>, number: usize, kind: PlacementKind)
    ensures { kinds.new.items ≡ changed (λ _. Some kind) number kinds.old.items }
{
    if number < kinds.len() {
        kinds[number] = Some(kind);
    }
}

// Keeps the probability of the reaction of this number, if there is one.
#[tactic(auto, using(crate::proofs::Lists::changed_past))]
fn keep_chance(chances: &mut Vec<Option<u32>>, number: usize, chance: u32)
    ensures { chances.new.items ≡ changed (λ _. Some chance) number chances.old.items }
{
    if number < chances.len() {
        chances[number] = Some(chance);
    }
}

// Whether the species is the one reactant.
pub fn reacts_alone(species: u16, reactants: &[u16]) -> bool
    ensures { result ≡ reacts_alone species reactants.now }
{
    match reactants {
        [one] => *one == species,
        _ => false,
    }
}

// How likely a reaction is where the species is its one reactant, in billionths.
fn chance_alone(species: u16, reaction: &Reaction, chance: Option<u32>) -> u32
    ensures { result ≡ chance_alone species reaction.now chance }
{
    if reacts_alone(species, reaction.reactants.as_slice()) {
        chance.unwrap_or(0)
    } else {
        0
    }
}

// The sum of these over all reactions.
fn chance_sum(species: u16, list: &[Reaction], chances: &[Option<u32>]) -> u64
    requires alike { length chances.now ≡ length list.now }
    requires few { length list.now ≤ most_reactions }
    ensures { result ≡ chance_sum species list.now chances.now }
{
    let mut sum = 0;
    for i in 0..list.len() {
        sum += u64::from(chance_alone(species, &list[i], chances[i]));
    }
    sum
}

impl Reactions {
    ghost use Rattle.std.specs.Prelude.{false, ◌++◌, ◌∷◌, OnOk};
    ghost use Rattle.smol_line.specs.Names.{is_named};
    ghost use Rattle.smol_types.specs.Limits.{most_species};
    ghost use Rattle.smol_reactions.specs.Statements.{binding_radius_said, product_placement_said, reaction_probability_said, reaction_said};
    ghost use Rattle.smol_reactions.specs.Table.{Holds, IsKept, Reads};

    /// No reactions.
    pub fn new(alloc: Global) -> Reactions
        ensures kept { IsKept result }
        ensures holds { Holds result [] }
    {
        Reactions {
            names: NameSet::new(alloc),
            list: Vec::new(alloc),
            kinds: Vec::new(alloc),
            chances: Vec::new(alloc),
        }
    }

    // Adds a reaction of a new name behind the others.
    fn add(&mut self, alloc: Global, scheme: Scheme) -> Result<(), AllocError>
        requires new { is_named self.old.names scheme.name ≡ false }
        requires reactants { length scheme.reactants ≤ 2 }
        ensures names { OnOk result (self.new.names ≡ self.old.names ++ scheme.name ∷ []) }
        ensures list { OnOk result (self.new.list.items ≡ self.old.list.items ++ fresh_reaction scheme ∷ []) }
        ensures kinds { OnOk result (self.new.kinds.items ≡ self.old.kinds.items ++ None ∷ []) }
        ensures chances { OnOk result (self.new.chances.items ≡ self.old.chances.items ++ None ∷ []) }
    {
        self.names.add(alloc, scheme.name.as_str())?;
        let reaction = fresh_reaction(alloc, scheme)?;
        self.list.push(reaction)?;
        self.kinds.push(None)?;
        self.chances.push(None)?;
        Ok(())
    }

    /// Reads a `reaction` line, beside species of these names.
    pub fn read_reaction(
        &mut self,
        alloc: Global,
        species: &NameSet,
        line: &StatedLine<'_>,
    ) -> Result<(), Refusal>
        requires species { length species.now ≤ most_species }
        requires kept { IsKept self.old }
        ensures kept { OnOk result (IsKept self.new) }
        ensures reads { Reads (λ said. reaction_said species.now said line.now) self.old self.new result }
    {
        let scheme = reaction::judge(alloc, species, &self.names, line)?;
        self.add(alloc, scheme)?;
        Ok(())
    }

    /// Reads a `binding_radius` line.
    pub fn read_binding_radius(&mut self, line: &StatedLine<'_>) -> Result<(), Refusal>
        requires kept { IsKept self.old }
        ensures kept { OnOk result (IsKept self.new) }
        ensures reads { Reads (λ said. binding_radius_said said line.now) self.old self.new result }
    {
        let (number, radius) = binding_radius::judge(&self.names, self.list.as_slice(), line)?;
        set_radius(&mut self.list, usize::from(number), radius);
        Ok(())
    }

    /// Reads a `reaction_probability` line.
    pub fn read_reaction_probability(&mut self, line: &StatedLine<'_>) -> Result<(), Refusal>
        requires kept { IsKept self.old }
        ensures kept { OnOk result (IsKept self.new) }
        ensures reads { Reads (λ said. reaction_probability_said said line.now) self.old self.new result }
    {
        let (number, chance) = reaction_probability::judge(
            &self.names,
            self.list.as_slice(),
            line,
        )?;
        set_chance(&mut self.list, usize::from(number), chance);
        keep_chance(&mut self.chances, usize::from(number), chance);
        Ok(())
    }

    /// Reads a `product_placement` line, by the axes in use and beside species of these names.
    pub fn read_product_placement(
        &mut self,
        alloc: Global,
        dims: Option<u8>,
        species: &NameSet,
        line: &StatedLine<'_>,
    ) -> Result<(), Refusal>
        requires species { length species.now ≤ most_species }
        requires kept { IsKept self.old }
        ensures kept { OnOk result (IsKept self.new) }
        ensures reads { Reads (λ said. product_placement_said dims species.now said line.now) self.old self.new result }
    {
        let (number, placement) = product_placement::judge(
            dims,
            species,
            &self.names,
            self.list.as_slice(),
            self.kinds.as_slice(),
            line,
        )?;
        let number = usize::from(number);
        set_placement(alloc, &mut self.list, number, placement);
        set_kind(&mut self.kinds, number, placement_kind_of(placement));
        Ok(())
    }

    /// The reactions as the lines tell them, those with a rate with the threshold of it, where a step takes so many nanos. Takes
    /// no memory.
    pub fn into_list(self, step: i64) -> Items<Reaction>
        requires kept { IsKept self }
        requires step { unsigned_abs step ≤ latest }
        requires step_above { pos 0 <ℤ step }
        ensures { result ≡ all_rated (unsigned_abs step) self.list.items }
    {
        let mut list = self.list;
        give_thresholds(&mut list, step);
        Items::from_vec(list)
    }

    /// How likely the reactions of which the species is the one reactant are together, in billionths.
    pub fn chance_sum(&self, species: u16) -> u64
        requires kept { IsKept self.now }
        ensures { result ≡ chance_sum species self.now.list.items self.now.chances.items }
    {
        chance_sum(species, self.list.as_slice(), self.chances.as_slice())
    }

    /// Whether one whole is enough for the first-order reactions of each of so many species.
    pub fn are_shared(&self, species_count: u16) -> bool
        requires kept { IsKept self.now }
        ensures { result ≡ are_shared species_count self.now.list.items self.now.chances.items }
    {
        for species in 0..species_count {
            if self.chance_sum(species) > WHOLE_CHANCE {
                return false;
            }
        }
        true
    }
}

//! `product_placement REACTION offset PRODUCT X ...` and `product_placement REACTION unbindrad V`: where products go.
ghost use Rattle.std.specs.Prelude.{◌≡◌, ◌==◌, ◌≤◌, ◌<◌, true, length, position, All, IfOk};
ghost use Rattle.smol_types.specs.declared.reaction.Product.{Product as TheProduct};
ghost use Rattle.smol_types.specs.Limits.{most_species, most_products, most_reactions};
ghost use Rattle.smol_reactions.specs.Content.{placement_kind_of};
ghost use Rattle.smol_reactions.specs.Reaction.{reaction_names_of, HasFewProducts};
ghost use Rattle.smol_reactions.specs.ProductPlacement.{counts_from_1, first_of_species, kind_in, numeral_of, offset_at, offset_in, placement_in, product_in, product_of, product_placement_in, product_species, takes, words_for};

use crate::binding_radius::distance_in;
use smol_geom::Step3;
use smol_line::{
    NameSet, decimal_in, number_in, species_word_in, spells, unless, word_at, word_count,
};
use smol_num::{NumFault, read_digits};
use smol_text::StatedLine;
use smol_types::{Kind, Product, Reaction};

/// How many products a reaction may have.
const MOST_PRODUCTS: u64 = 16;

/// How far a product may go on an axis, in micros.
const LONGEST: i64 = 1_000_000_000;

/// How the products of a reaction are to be placed.
#[derive(Clone, Copy, Debug, PartialEq, Eq)]
pub enum PlacementKind {
    /// Each at its offset.
    Offset,
    /// Two along a drawn axis.
    Unbindrad,
}

/// How a line places products of a reaction.
#[derive(Clone, Copy, Debug, PartialEq, Eq)]
pub enum ProductPlacement {
    /// The product of this number goes so far, in ticks.
    Offset { product: u16, offset: Step3 },
    /// The two products stand so many micros apart.
    Unbind(i64),
}

// The kind of placement that a word names.
#[tactic(auto, unfolding(crate::specs::ProductPlacement::kind_in))]
fn kind_in(word: &[u8]) -> Result<PlacementKind, Kind>
    ensures { result ≡ kind_in word.now }
{
    if spells(word, "offset") {
        Ok(PlacementKind::Offset)
    } else if spells(word, "unbindrad") {
        Ok(PlacementKind::Unbindrad)
    } else {
        Err(Kind::NotInProfile)
    }
}

/// The kind of a placement.
pub fn placement_kind_of(placement: ProductPlacement) -> PlacementKind
    ensures { result ≡ placement_kind_of placement }
{
    match placement {
        ProductPlacement::Offset { .. } => PlacementKind::Offset,
        ProductPlacement::Unbind(_) => PlacementKind::Unbindrad,
    }
}

// How many words a line of this kind has.
fn words_for(kind: PlacementKind, dims: u8) -> usize
    ensures { result ≡ words_for kind dims }
{
    match kind {
        PlacementKind::Offset => 4 + usize::from(dims),
        PlacementKind::Unbindrad => 4,
    }
}

// Whether a reaction that was given one kind of placement takes this one.
fn takes(given: Option<PlacementKind>, kind: PlacementKind) -> bool
    ensures { result ≡ takes given kind }
{
    match (given, kind) {
        (None, _) => true,
        (Some(PlacementKind::Offset), PlacementKind::Offset) => true,
        (Some(PlacementKind::Offset), PlacementKind::Unbindrad) => false,
        (Some(PlacementKind::Unbindrad), PlacementKind::Offset) => false,
        (Some(PlacementKind::Unbindrad), PlacementKind::Unbindrad) => true,
    }
}

// The count behind `product_` of a word that begins so.
fn numeral_of(word: &[u8]) -> Result<u64, NumFault>
    ensures { result ≡ numeral_of word.now }
{
    match word.strip_prefix(b"product_") {
        Some(digits) => read_digits(digits, MOST_PRODUCTS),
        None => Err(NumFault::NotNumber),
    }
}

// Whether these are the digits of a count from 1.
fn counts_from_1(numeral: Result<u64, NumFault>) -> bool
    ensures { result ≡ counts_from_1 numeral }
{
    match numeral {
        Ok(n) => n >= 1,
        Err(fault) => fault == NumFault::TooLarge,
    }
}

// The number of the product of a count from 1, of so many products.
fn product_of(count: usize, numeral: Result<u64, NumFault>) -> Result<u16, Kind>
    requires counts { counts_from_1 numeral ≡ true }
    requires few { count ≤ most_products }
    ensures value { result ≡ product_of count numeral }
    ensures within { IfOk result (λ product. product < count) }
{
    match numeral {
        Ok(n) if n <= count as u64 => Ok((n - 1) as u16),
        _ => Err(Kind::UnknownName),
    }
}

// The place of the first product of a species.
fn place_of_species(products: &[Product], species: u16) -> Option<usize>
    ensures { result ≡ position (λ (product : TheProduct). product.species == species) products.now }
{
    products
        .iter()
        .position(|product| product.species == species)
}

// The first product of a species.
fn first_of_species(products: &[Product], species: u16) -> Result<u16, Kind>
    requires few { length products.now ≤ most_products }
    ensures value { result ≡ first_of_species (product_species products.now) species }
    ensures within { IfOk result (λ product. product < length products.now) }
{
    match place_of_species(products, species) {
        Some(product) => Ok(product as u16),
        None => Err(Kind::UnknownName),
    }
}

// The number of the product that a word means: a count comes before a name.
#[tactic(auto, unfolding(crate::specs::ProductPlacement::product_in))]
fn product_in(species: &NameSet, products: &[Product], word: &[u8]) -> Result<u16, Kind>
    requires species { length species.now ≤ most_species }
    requires few { length products.now ≤ most_products }
    ensures value { result ≡ product_in species.now (product_species products.now) word.now }
    ensures within { IfOk result (λ product. product < length products.now) }
{
    let numeral = numeral_of(word);
    if counts_from_1(numeral) {
        return product_of(products.len(), numeral);
    }
    first_of_species(products, species_word_in(species, word)?)
}

// The offset of a line on an axis, in ticks.
fn offset_at(dims: u8, axis: u8, line: &StatedLine<'_>) -> Result<i64, Kind>
    requires { axis < 3 }
    ensures { result ≡ offset_at dims axis line.now }
{
    if axis >= dims {
        return Ok(0);
    }
    let micros = decimal_in(6, -LONGEST, LONGEST, word_at(line, 4 + usize::from(axis)))?;
    Ok(2 * micros)
}

// The offset of a line.
#[tactic(auto, unfolding(crate::specs::ProductPlacement::offset_in))]
fn offset_in(dims: u8, line: &StatedLine<'_>) -> Result<Step3, Kind>
    ensures { result ≡ offset_in dims line.now }
{
    let x = offset_at(dims, 0, line)?;
    let y = offset_at(dims, 1, line)?;
    let z = offset_at(dims, 2, line)?;
    Ok(Step3([x, y, z]))
}

// How a line of this kind places these products.
#[tactic(auto, unfolding(crate::specs::ProductPlacement::placement_in))]
fn placement_in(
    kind: PlacementKind,
    dims: u8,
    species: &NameSet,
    products: &[Product],
    line: &StatedLine<'_>,
) -> Result<ProductPlacement, Kind>
    requires species { length species.now ≤ most_species }
    requires few { length products.now ≤ most_products }
    ensures value { result ≡ placement_in kind dims species.now (product_species products.now) line.now }
{
    match kind {
        PlacementKind::Offset => {
            let product = product_in(species, products, word_at(line, 3))?;
            let offset = offset_in(dims, line)?;
            Ok(ProductPlacement::Offset { product, offset })
        }
        PlacementKind::Unbindrad => {
            unless(products.len() == 2, Kind::BadReaction)?;
            let distance = distance_in(word_at(line, 3))?;
            Ok(ProductPlacement::Unbind(distance))
        }
    }
}

/// The number of a reaction and how its products are placed, by the axes in use, beside these species and reactions,
/// which have these names and were given these kinds of placement.
#[tactic(auto, unfolding(crate::specs::ProductPlacement::product_placement_in))]
pub fn judge(
    dims: Option<u8>,
    species: &NameSet,
    names: &NameSet,
    reactions: &[Reaction],
    kinds: &[Option<PlacementKind>],
    line: &StatedLine<'_>,
) -> Result<(u16, ProductPlacement), Kind>
    requires species { length species.now ≤ most_species }
    requires names { names.now ≡ reaction_names_of reactions.now }
    requires kinds { length kinds.now ≡ length reactions.now }
    requires few { length reactions.now ≤ most_reactions }
    requires products { All HasFewProducts reactions.now }
    ensures rule { result ≡ product_placement_in dims species.now reactions.now kinds.now line.now }
    ensures within { IfOk result (λ given. given.0 < length reactions.now) }
{
    let Some(dims) = dims else {
        return Err(Kind::BadOrder);
    };
    unless(line.len() >= 3, Kind::WrongWordCount)?;
    let kind = kind_in(word_at(line, 2))?;
    word_count(words_for(kind, dims), line)?;
    let number = number_in(names, word_at(line, 1))?;
    let at = usize::from(number);
    unless(takes(kinds[at], kind), Kind::BadReaction)?;
    let products = reactions[at].products.as_slice();
    let placement = placement_in(kind, dims, species, products, line)?;
    Ok((number, placement))
}

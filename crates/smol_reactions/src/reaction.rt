//! `reaction NAME LEFT -> RIGHT [RATE]`: a reaction of one species or two, what it makes, and the rate of one of one species.
ghost use Rattle.std.specs.Prelude.{◌≡◌, ◌≤◌, ◌<◌, false, length, slice_range, OnOk, IfOk, IfSome};
ghost use Rattle.smol_text.specs.Reading.{words_of};
ghost use Rattle.smol_types.specs.Limits.{fastest, most_species, most_reactions};
ghost use Rattle.smol_line.specs.Answers.{Answers};
ghost use Rattle.smol_line.specs.Names.{is_named};
ghost use Rattle.smol_line.specs.SpeciesWord.{species_word_in};
ghost use Rattle.smol_reactions.specs.Arrangement.{summands, word_there};
ghost use Rattle.smol_reactions.specs.Sound.{IsScheme};
ghost use Rattle.smol_reactions.specs.Reaction.{arranged_words, numbers_in, rate_in, rate_word, reaction_in, sides_in};

use crate::arrangement::{Side, arrangement_in};
use crate::scheme::Scheme;
use smol_line::{NameSet, Refusal, new_name_in, species_word_in, unless, unsigned_in, word_at};
use smol_text::StatedLine;
use smol_types::{Items, Kind, Name};
use std::alloc::Global;

/// How many products a reaction may have.
const MOST_PRODUCTS: usize = 16;

/// How many reactions there may be.
const MOST_REACTIONS: usize = 1_024;

/// How large a rate may be, in billionths per unit of time.
const FASTEST: i64 = 1_000_000_000_000_000;

// The numbers of the species that a side of a reaction names, every other word of it.
fn numbers_in(
    alloc: Global,
    species: &NameSet,
    line: &StatedLine<'_>,
    side: Side,
) -> Result<Items<u16>, Refusal>
    requires few { length species.now ≤ most_species }
    requires ordered { side.start ≤ side.end }
    requires within { side.end ≤ length (words_of line.now) }
    ensures { Answers (numbers_in species.now (summands (slice_range (words_of line.now) side.start side.end))) result }
{
    let mut numbers = Items::new(alloc);
    let mut at = side.start;
    while at < side.end {
        numbers.push(species_word_in(species, line.word(at))?)?;
        at += (side.end - at).min(2);
    }
    Ok(numbers)
}

// A rate in billionths per unit of time.
fn rate_word(word: &[u8]) -> Result<u64, Kind>
    ensures value { result ≡ rate_word word.now }
    ensures most { IfOk result (λ rate. rate ≤ fastest) }
{
    unsigned_in(9, FASTEST, word)
}

// The rate of a reaction of so many reactants, by the word at this place.
fn rate_in(order: usize, line: &StatedLine<'_>, place: Option<usize>) -> Result<Option<u64>, Kind>
    requires { IfSome place (λ at. at < length (words_of line.now)) }
    ensures { result ≡ rate_in order (word_there (words_of line.now) place) }
{
    let Some(at) = place else {
        return Ok(None);
    };
    unless(order == 1, Kind::NotInProfile)?;
    let rate = rate_word(line.word(at))?;
    Ok(Some(rate))
}

// The numbers of the reactants' and of the products' species, and the rate.
#[tactic(auto, unfolding(crate::specs::Reaction::sides_in))]
fn sides_in(
    alloc: Global,
    species: &NameSet,
    line: &StatedLine<'_>,
) -> Result<(Items<u16>, Items<u16>, Option<u64>), Refusal>
    requires few { length species.now ≤ most_species }
    requires named { 2 ≤ length (words_of line.now) }
    ensures { Answers (sides_in species.now (arranged_words line.now)) result }
{
    let arranged = arrangement_in(line)?;
    let reactants = numbers_in(alloc, species, line, arranged.left)?;
    let products = numbers_in(alloc, species, line, arranged.right.products)?;
    let rate = rate_in(reactants.len(), line, arranged.right.rate)?;
    Ok((reactants, products, rate))
}

/// The reaction that a line gives, beside species and reactions of these names.
#[tactic(auto, unfolding(crate::specs::Reaction::reaction_in), using(crate::proofs::SchemeLemmas::given_is))]
pub fn judge(
    alloc: Global,
    species: &NameSet,
    known: &NameSet,
    line: &StatedLine<'_>,
) -> Result<Scheme, Refusal>
    requires few { length species.now ≤ most_species }
    ensures rule { Answers (reaction_in species.now known.now line.now) result }
    ensures new { IfOk result (λ scheme. is_named known.now scheme.name ≡ false) }
    ensures room { OnOk result (length known.now < most_reactions) }
    ensures sound { IfOk result (IsScheme (length species.now)) }
{
    unless(line.len() >= 5, Kind::WrongWordCount)?;
    let name = new_name_in(known, word_at(line, 1))?;
    let (reactants, products, rate) = sides_in(alloc, species, line)?;
    unless(products.len() <= MOST_PRODUCTS, Kind::TooMany)?;
    unless(known.len() < MOST_REACTIONS, Kind::TooMany)?;
    Ok(Scheme {
        name: Name::from_text(alloc, name)?,
        reactants,
        products,
        rate,
    })
}

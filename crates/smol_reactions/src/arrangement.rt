//! How the words of a reaction are arranged: LEFT -> RIGHT, each side species words joined by `+`, and a rate behind them.
ghost use Rattle.std.specs.Prelude.{◌≡◌, ◌≤◌, ◌<◌, ◌-◌, None, Some, Ok, Err, length, position, slice_range, MatchOption, MatchResult, IfOk, IfSome};
ghost use Rattle.smol_text.specs.Reading.{words_of};
ghost use Rattle.smol_reactions.specs.Arrangement.{Right as TheRight, Sides, is_arrow, is_nothing, is_plus, is_right, is_rated, is_sum, is_zero, left_in, products_in, rated, right_in, stands_for_rate, stands_for_species, summands, word_there};
ghost use Rattle.smol_reactions.specs.Arrangement.{arrangement_in};
ghost use Rattle.smol_reactions.specs.Reaction.{arranged_words};

use smol_line::spells;
use smol_text::StatedLine;
use smol_types::Kind;

/// Words of a line that follow each other: from the start to before the end.
#[derive(Clone, Copy, Debug, PartialEq, Eq)]
pub struct Side {
    pub start: usize,
    pub end: usize,
}

/// The right side of a reaction. Without species it is empty. The rate is a place on the line, if there is one.
#[derive(Clone, Copy, Debug, PartialEq, Eq)]
pub struct Right {
    pub products: Side,
    pub rate: Option<usize>,
}

/// The two sides of a reaction.
#[derive(Clone, Copy, Debug, PartialEq, Eq)]
pub struct Arrangement {
    pub left: Side,
    pub right: Right,
}

fn is_arrow(word: &[u8]) -> bool
    ensures { result ≡ is_arrow word.now }
{
    spells(word, "->")
}

fn is_plus(word: &[u8]) -> bool
    ensures { result ≡ is_plus word.now }
{
    spells(word, "+")
}

fn is_zero(word: &[u8]) -> bool
    ensures { result ≡ is_zero word.now }
{
    spells(word, "0")
}

fn stands_for_species(word: &[u8]) -> bool
    ensures { result ≡ stands_for_species word.now }
{
    !(is_plus(word) || is_arrow(word) || is_zero(word))
}

fn stands_for_rate(word: &[u8]) -> bool
    ensures { result ≡ stands_for_rate word.now }
{
    !(is_plus(word) || is_arrow(word))
}

// Whether these words are species words joined by `+`.
#[tactic(auto, using(crate::proofs::Sides::sum_more, crate::proofs::Sides::sum_last, crate::proofs::Sides::sum_none))]
fn is_sum(line: &StatedLine<'_>, side: Side) -> bool
    requires ordered { side.start ≤ side.end }
    requires within { side.end ≤ length (words_of line.now) }
    ensures { result ≡ is_sum (slice_range (words_of line.now) side.start side.end) }
{
    let mut at = side.start;
    while side.end - at > 1 {
        if !stands_for_species(line.word(at)) || !is_plus(line.word(at + 1)) {
            return false;
        }
        at += 2;
    }
    at < side.end && stands_for_species(line.word(at))
}

// Whether these words are the single word `0`.
#[tactic(auto, using(crate::proofs::Sides::nothing_one, crate::proofs::Sides::nothing_other))]
fn is_nothing(line: &StatedLine<'_>, side: Side) -> bool
    requires ordered { side.start ≤ side.end }
    requires within { side.end ≤ length (words_of line.now) }
    ensures { result ≡ is_nothing (slice_range (words_of line.now) side.start side.end) }
{
    side.end - side.start == 1 && is_zero(line.word(side.start))
}

// Whether these words are a complete right side.
fn is_right(line: &StatedLine<'_>, side: Side) -> bool
    requires ordered { side.start ≤ side.end }
    requires within { side.end ≤ length (words_of line.now) }
    ensures { result ≡ is_right (slice_range (words_of line.now) side.start side.end) }
{
    is_nothing(line, side) || is_sum(line, side)
}

// Whether these words are a complete right side and a rate.
#[tactic(auto, using(crate::proofs::Sides::rated_is))]
fn is_rated(line: &StatedLine<'_>, side: Side) -> bool
    requires ordered { side.start ≤ side.end }
    requires within { side.end ≤ length (words_of line.now) }
    ensures { result ≡ is_rated (slice_range (words_of line.now) side.start side.end) }
{
    if side.start == side.end {
        return false;
    }
    let last = side.end - 1;
    let before = Side {
        start: side.start,
        end: last,
    };
    is_right(line, before) && stands_for_rate(line.word(last))
}

// The fault of LEFT, if these words are none.
#[tactic(auto, unfolding(crate::specs::Arrangement::left_in), using(crate::proofs::Parts::length_of_part))]
fn check_left(line: &StatedLine<'_>, side: Side) -> Result<(), Kind>
    requires ordered { side.start ≤ side.end }
    requires within { side.end ≤ length (words_of line.now) }
    ensures { MatchResult result
        (λ _. left_in (slice_range (words_of line.now) side.start side.end)
        ≡ Ok (summands (slice_range (words_of line.now) side.start side.end)))
        (λ kind. left_in (slice_range (words_of line.now) side.start side.end) ≡ Err kind) }
{
    if is_nothing(line, side) {
        Err(Kind::NotInProfile)
    } else if side.end - side.start <= 3 && is_sum(line, side) {
        Ok(())
    } else {
        Err(Kind::BadReaction)
    }
}

// The species words of a complete right side, where the word `0` stands for none.
#[tactic(auto, using(crate::proofs::Sides::summands_none))]
fn products_in(line: &StatedLine<'_>, side: Side) -> Side
    requires ordered { side.start ≤ side.end }
    requires within { side.end ≤ length (words_of line.now) }
    ensures words { summands (slice_range (words_of line.now) result.start result.end)
        ≡ products_in (slice_range (words_of line.now) side.start side.end) }
    ensures ordered { result.start ≤ result.end }
    ensures within { result.end ≤ length (words_of line.now) }
{
    if is_nothing(line, side) {
        Side {
            start: side.end,
            end: side.end,
        }
    } else {
        side
    }
}

// A complete right side and its last word, which is a rate.
#[tactic(auto, using(crate::proofs::Sides::rated_words))]
fn rated(line: &StatedLine<'_>, side: Side) -> Right
    requires some { side.start < side.end }
    requires within { side.end ≤ length (words_of line.now) }
    ensures products { summands (slice_range (words_of line.now) result.products.start result.products.end)
        ≡ (rated (slice_range (words_of line.now) side.start side.end)).products }
    ensures rate { word_there (words_of line.now) result.rate ≡ (rated (slice_range (words_of line.now) side.start side.end)).rate }
    ensures ordered { result.products.start ≤ result.products.end }
    ensures end { result.products.end ≤ length (words_of line.now) }
    ensures place { IfSome result.rate (λ at. at < length (words_of line.now)) }
{
    let last = side.end - 1;
    let before = Side {
        start: side.start,
        end: last,
    };
    Right {
        products: products_in(line, before),
        rate: Some(last),
    }
}

// The parts of RIGHT, with a rate or without.
#[tactic(auto, unfolding(crate::specs::Arrangement::right_in))]
fn right_in(line: &StatedLine<'_>, side: Side) -> Result<Right, Kind>
    requires ordered { side.start ≤ side.end }
    requires within { side.end ≤ length (words_of line.now) }
    ensures rule { MatchResult result
        (λ right. right_in (slice_range (words_of line.now) side.start side.end) ≡ Ok (record {
          products = summands (slice_range (words_of line.now) right.products.start right.products.end);
          rate = word_there (words_of line.now) right.rate;
        }))
        (λ kind. right_in (slice_range (words_of line.now) side.start side.end) ≡ Err kind) }
    ensures ordered { IfOk result (λ right. right.products.start ≤ right.products.end) }
    ensures within { IfOk result (λ right. right.products.end ≤ length (words_of line.now)) }
    ensures place { IfOk result (λ right. IfSome right.rate (λ at. at < length (words_of line.now))) }
{
    if is_right(line, side) {
        Ok(Right {
            products: products_in(line, side),
            rate: None,
        })
    } else if is_rated(line, side) {
        Ok(rated(line, side))
    } else {
        Err(Kind::BadReaction)
    }
}

// The place of the first arrow behind the name of a reaction.
#[tactic(auto, using(crate::proofs::Sides::arrow_at))]
fn arrow_of(line: &StatedLine<'_>) -> Option<usize>
    requires { 2 ≤ length (words_of line.now) }
    ensures found { MatchOption result
        (position is_arrow (arranged_words line.now) ≡ None)
        (λ arrow. position is_arrow (arranged_words line.now) ≡ Some (arrow - 2)) }
    ensures behind { IfSome result (λ arrow. 2 ≤ arrow) }
    ensures within { IfSome result (λ arrow. arrow < length (words_of line.now)) }
{
    for at in 2..line.len() {
        if is_arrow(line.word(at)) {
            return Some(at);
        }
    }
    None
}

/// Where the sides of a reaction stand on its line.
#[tactic(auto, unfolding(crate::specs::Arrangement::arrangement_in), using(crate::proofs::Sides::right_words))]
pub fn arrangement_in(line: &StatedLine<'_>) -> Result<Arrangement, Kind>
    requires { 2 ≤ length (words_of line.now) }
    ensures rule { MatchResult result
        (λ arranged. arrangement_in (arranged_words line.now) ≡ Ok (record {
          reactants = summands (slice_range (words_of line.now) arranged.left.start arranged.left.end);
          products = summands (slice_range (words_of line.now) arranged.right.products.start arranged.right.products.end);
          rate = word_there (words_of line.now) arranged.right.rate;
        }))
        (λ kind. arrangement_in (arranged_words line.now) ≡ Err kind) }
    ensures left_ordered { IfOk result (λ arranged. arranged.left.start ≤ arranged.left.end) }
    ensures left_within { IfOk result (λ arranged. arranged.left.end ≤ length (words_of line.now)) }
    ensures right_ordered { IfOk result (λ arranged. arranged.right.products.start ≤ arranged.right.products.end) }
    ensures right_within { IfOk result (λ arranged. arranged.right.products.end ≤ length (words_of line.now)) }
    ensures rate_within { IfOk result (λ arranged. IfSome arranged.right.rate (λ at. at < length (words_of line.now))) }
{
    let end = line.len();
    let Some(arrow) = arrow_of(line) else {
        return Err(Kind::BadReaction);
    };
    let left = Side {
        start: 2,
        end: arrow,
    };
    check_left(line, left)?;
    let right = right_in(
        line,
        Side {
            start: arrow + 1,
            end,
        },
    )?;
    Ok(Arrangement { left, right })
}

//! The parts that a decimal is written with.
ghost use Rattle.std.specs.Prelude.{◌≡◌, ◌<◌, not, ◌||◌, is_some, IfSome};
ghost use Rattle.std.specs.List.{list_all, list_any, before_first, after_first, position};
ghost use Rattle.smol_num.specs.Digits.{is_digit};
ghost use Rattle.smol_num.specs.Decimal.{is_point, is_mark, is_negative, without_sign, whole_part, fraction, exponent, is_exponent, is_decimal, raised_by, lowered_by};

use crate::digits::value_of;

/// The most digits that an exponent may have.
const MOST_EXPONENT_DIGITS: usize = 3;

/// The parts of a decimal.
#[derive(Clone, Copy)]
pub(crate) struct Parts<'a> {
    pub(crate) negative: bool,
    pub(crate) whole: &'a [u8],
    pub(crate) fraction: &'a [u8],
    pub(crate) exponent: Exponent,
}

/// The powers of ten that a decimal is multiplied and divided by. One of them is 0.
#[derive(Clone, Copy)]
pub(crate) struct Exponent {
    pub(crate) raised: usize,
    pub(crate) lowered: usize,
}

/// The parts of a word in the form of a decimal, and nothing of another word.
pub(crate) fn parts_of(word: &[u8]) -> Option<Parts<'_>>
    ensures found { is_some result ≡ is_decimal word.now }
    ensures negative { IfSome result (λ d. d.negative ≡ is_negative word.now) }
    ensures whole { IfSome result (λ d. d.whole.now ≡ whole_part word.now) }
    ensures fraction { IfSome result (λ d. d.fraction.now ≡ fraction word.now) }
    ensures raised { IfSome result (λ d. d.exponent.raised ≡ raised_by (exponent word.now)) }
    ensures lowered { IfSome result (λ d. d.exponent.lowered ≡ lowered_by (exponent word.now)) }
    ensures raised_is_small { IfSome result (λ d. d.exponent.raised < 1000) }
    ensures lowered_is_small { IfSome result (λ d. d.exponent.lowered < 1000) }
{
    let (negative, unsigned) = split_sign(word);
    let (whole, fraction) = split_at_point(mantissa_of(unsigned));
    if whole.is_empty() && fraction.is_empty() {
        return None;
    }
    if !all_digits(whole) || !all_digits(fraction) {
        return None;
    }
    let exponent = exponent_of(unsigned)?;
    Some(Parts {
        negative,
        whole,
        fraction,
        exponent,
    })
}

/// Whether a word begins with `-`, and what follows its sign.
fn split_sign(word: &[u8]) -> (bool, &[u8])
    ensures negative { result.0 ≡ is_negative word.now }
    ensures rest { result.1.now ≡ without_sign word.now }
{
    match word {
        [b'-', rest @ ..] => (true, rest),
        [b'+', rest @ ..] => (false, rest),
        _ => (false, word),
    }
}

/// What stands before the mark of an exponent, or all where there is none.
fn mantissa_of(unsigned: &[u8]) -> &[u8]
    ensures { result.now ≡ before_first is_mark unsigned.now }
{
    match first_mark(unsigned) {
        Some(at) => &unsigned[..at],
        None => unsigned,
    }
}

/// The exponent behind its mark, that of 1 where there is no mark, and nothing where it isn't in its form.
fn exponent_of(unsigned: &[u8]) -> Option<Exponent>
    ensures found { is_some result ≡ (not (list_any is_mark unsigned.now) || is_exponent (after_first is_mark unsigned.now)) }
    ensures raised { IfSome result (λ e. e.raised ≡ raised_by (after_first is_mark unsigned.now)) }
    ensures lowered { IfSome result (λ e. e.lowered ≡ lowered_by (after_first is_mark unsigned.now)) }
    ensures raised_is_small { IfSome result (λ e. e.raised < 1000) }
    ensures lowered_is_small { IfSome result (λ e. e.lowered < 1000) }
{
    match first_mark(unsigned) {
        Some(at) => read_exponent(&unsigned[at + 1..]),
        None => Some(Exponent {
            raised: 0,
            lowered: 0,
        }),
    }
}

/// Where the mark of an exponent stands.
fn first_mark(word: &[u8]) -> Option<usize>
    ensures { result ≡ position is_mark word.now }
{
    word.iter().position(|b| *b == b'e' || *b == b'E')
}

/// What stands before the point, and what after it.
fn split_at_point(mantissa: &[u8]) -> (&[u8], &[u8])
    ensures before { result.0.now ≡ before_first is_point mantissa.now }
    ensures after { result.1.now ≡ after_first is_point mantissa.now }
{
    match first_point(mantissa) {
        Some(at) => (&mantissa[..at], &mantissa[at + 1..]),
        None => (mantissa, &[]),
    }
}

/// Where the point stands.
fn first_point(mantissa: &[u8]) -> Option<usize>
    ensures { result ≡ position is_point mantissa.now }
{
    mantissa.iter().position(|b| *b == b'.')
}

fn all_digits(bytes: &[u8]) -> bool
    ensures { result ≡ list_all is_digit bytes.now }
{
    bytes.iter().all(|b| b.is_ascii_digit())
}

/// An exponent without its mark, and nothing where it isn't in its form.
fn read_exponent(bytes: &[u8]) -> Option<Exponent>
    ensures found { is_some result ≡ is_exponent bytes.now }
    ensures raised { IfSome result (λ e. e.raised ≡ raised_by bytes.now) }
    ensures lowered { IfSome result (λ e. e.lowered ≡ lowered_by bytes.now) }
    ensures raised_is_small { IfSome result (λ e. e.raised < 1000) }
    ensures lowered_is_small { IfSome result (λ e. e.lowered < 1000) }
{
    let (negative, digits) = split_sign(bytes);
    if digits.is_empty() || digits.len() > MOST_EXPONENT_DIGITS {
        return None;
    }
    let size = value_of(digits)? as usize;
    if negative {
        return Some(Exponent {
            raised: 0,
            lowered: size,
        });
    }
    Some(Exponent {
        raised: size,
        lowered: 0,
    })
}

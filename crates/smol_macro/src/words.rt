//! The words of a part of a line, one after another.
ghost use Rattle.std.specs.Prelude.{◌≡◌, ◌<◌, ◌∷◌, ◌++◌, [], not, length, MatchOption, MatchResult, OnOk, IfOk, IfSome};
ghost use Rattle.std.specs.List.{position};
ghost use Rattle.smol_text.specs.Lines.{separates, words_in};
ghost use Rattle.smol_macro.specs.Meanings.{joined, spaced};
ghost use Rattle.smol_macro.specs.Kept.{IsNotOne};

use smol_text::{first_separator, first_word_byte};
use std::alloc::{AllocError, Global};

/// The first word, and what stands behind it.
pub(crate) fn split_word(part: &[u8]) -> Option<(&[u8], &[u8])>
    ensures words { MatchOption result (words_in part.now ≡ []) (λ r. words_in part.now ≡ r.0.now ∷ words_in r.1.now) }
    ensures shorter { IfSome result (λ r. length r.1.now < length part.now) }
{
    let start = first_word_byte(part)?;
    let rest = &part[start..];
    let size = first_separator(rest).unwrap_or(rest.len());
    Some((&rest[..size], &rest[size..]))
}

/// The word that stands there alone.
pub(crate) fn only_word(part: &[u8]) -> Option<&[u8]>
    ensures { MatchOption result (IsNotOne (words_in part.now)) (λ word. words_in part.now ≡ word.now ∷ []) }
{
    let (word, rest) = split_word(part)?;
    match split_word(rest) {
        None => Some(word),
        Some(_) => None,
    }
}

/// The words joined by one space.
pub(crate) fn join_words(alloc: Global, part: &[u8]) -> Result<Vec<u8>, AllocError>
    ensures { IfOk result (λ text. text.items ≡ joined (words_in part.now)) }
{
    let mut text = Vec::new(alloc);
    let Some((first, behind)) = split_word(part) else {
        return Ok(text);
    };
    text.extend_from_slice(first)?;
    add_spaced(&mut text, behind)?;
    Ok(text)
}

/// Adds each of the words, with a space before it.
fn add_spaced(text: &mut Vec<u8>, part: &[u8]) -> Result<(), AllocError>
    ensures { OnOk result (text.new.items ≡ text.old.items ++ spaced (words_in part.now)) }
{
    let mut rest = part;
    loop {
        let Some((word, behind)) = split_word(rest) else {
            return Ok(());
        };
        text.push(b' ')?;
        text.extend_from_slice(word)?;
        rest = behind;
    }
}

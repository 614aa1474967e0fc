//! The text of an `echo`.
ghost use Rattle.std.specs.Prelude.{◌≡◌, ◌-◌, ◌++◌, false, position, None, Some, MatchOption, IfOk, OnOk};
ghost use Rattle.smol_text.specs.Lines.{separates};
ghost use Rattle.smol_cmd.specs.Echo.{behind_words, from_word, is_of_word, is_quoted, meant_by, past_word, quoted_in, rest_behind, spelled, without_end};

use smol_types::Items;
use std::alloc::{AllocError, Global};

fn separates(byte: u8) -> bool
    ensures { result ≡ separates byte }
{
    byte == b'\t' || byte == b'\r' || byte == b' '
}

// Where the first byte of a word stands.
fn first_of_word(part: &[u8]) -> Option<usize>
    ensures { result ≡ position is_of_word part.now }
{
    part.iter().position(|byte| !separates(*byte))
}

// Where the first byte stands that separates words.
fn first_separator(part: &[u8]) -> Option<usize>
    ensures { result ≡ position separates part.now }
{
    part.iter().position(|byte| separates(*byte))
}

// A part from its first word on.
fn from_word(part: &[u8]) -> &[u8]
    ensures { result.now ≡ from_word part.now }
{
    let start = first_of_word(part).unwrap_or(part.len());
    &part[start..]
}

// What stands behind a word that stands at the beginning.
fn past_word(part: &[u8]) -> &[u8]
    ensures { result.now ≡ past_word part.now }
{
    let end = first_separator(part).unwrap_or(part.len());
    &part[end..]
}

// What stands behind the first words of a part, so many of them.
#[tactic(auto, using(crate::proofs::EchoLemmas::behind_one_more))]
fn behind_words(count: usize, part: &[u8]) -> &[u8]
    ensures { result.now ≡ behind_words count part.now }
{
    let mut rest = part;
    for _ in 0..count {
        rest = past_word(from_word(rest));
    }
    rest
}

// A part without the separators at its end.
#[tactic(auto, using(crate::proofs::EchoLemmas::trim_more, crate::proofs::EchoLemmas::trim_end))]
fn without_end(part: &[u8]) -> &[u8]
    ensures { result.now ≡ without_end part.now }
{
    let mut end = part.len();
    while end > 0 && separates(part[end - 1]) {
        end -= 1;
    }
    &part[..end]
}

/// What stands behind the word of a place, without the separators before and behind it.
#[tactic(auto, unfolding(crate::specs::Echo::rest_behind))]
pub fn rest_behind(place: usize, part: &[u8]) -> &[u8]
    ensures { result.now ≡ rest_behind place part.now }
{
    let before = behind_words(place, part);
    let behind = past_word(from_word(before));
    without_end(from_word(behind))
}

fn is_quoted(rest: &[u8]) -> bool
    ensures { result ≡ is_quoted rest.now }
{
    rest.len() >= 2 && rest[0] == b'"' && rest[rest.len() - 1] == b'"'
}

/// What stands between the quotation marks at both ends, where there are two.
pub fn quoted_in(rest: &[u8]) -> Option<&[u8]>
    ensures { MatchOption result (quoted_in rest.now ≡ None) (λ bytes. quoted_in rest.now ≡ Some bytes.now) }
{
    if is_quoted(rest) {
        Some(&rest[1..rest.len() - 1])
    } else {
        None
    }
}

// Adds what a byte means behind a backslash.
fn add_meant(text: &mut Items<u8>, byte: u8) -> Result<(), AllocError>
    ensures { OnOk result (text.new ≡ text.old ++ meant_by byte) }
{
    match byte {
        b'n' => text.push(b'\n'),
        b't' => text.push(b'\t'),
        b'\\' => text.push(b'\\'),
        other => {
            text.push(b'\\')?;
            text.push(other)
        }
    }
}

/// The text that the bytes between the marks spell.
#[tactic(auto, unfolding(crate::specs::Echo::spelled), using(crate::proofs::EchoLemmas::text_next, crate::proofs::EchoLemmas::text_end))]
pub fn spelled(alloc: Global, bytes: &[u8]) -> Result<Items<u8>, AllocError>
    ensures { IfOk result (λ text. text ≡ spelled bytes.now) }
{
    let mut text = Items::new(alloc);
    let mut escaped = false;
    for byte in bytes {
        if escaped {
            add_meant(&mut text, *byte)?;
            escaped = false;
        } else if *byte == b'\\' {
            escaped = true;
        } else {
            text.push(*byte)?;
        }
    }
    if escaped {
        text.push(b'\\')?;
    }
    Ok(text)
}

//! What counts as a name in a configuration.
ghost use Rattle.std.specs.Prelude.{◌≡◌, is_some, IfSome, Ok, Err, MatchResult};
ghost use Rattle.std.specs.List.{list_all};
ghost use Rattle.smol_line.specs.Names.{is_letter, continues_name, is_reserved, is_name, new_name_in};

use crate::name_set::NameSet;
use crate::words::spells;
use smol_types::Kind;
use std::str;

fn is_letter(byte: u8) -> bool
    ensures { result ≡ is_letter byte }
{
    byte.is_ascii_alphabetic()
}

fn continues_name(byte: u8) -> bool
    ensures { result ≡ continues_name byte }
{
    is_letter(byte) || byte.is_ascii_digit() || byte == b'_'
}

fn all_continue(bytes: &[u8]) -> bool
    ensures { result ≡ list_all continues_name bytes.now }
{
    bytes.iter().all(|byte| continues_name(*byte))
}

fn is_reserved(word: &[u8]) -> bool
    ensures { result ≡ is_reserved word.now }
{
    spells(word, "all")
        || spells(word, "empty")
        || spells(word, "front")
        || spells(word, "back")
        || spells(word, "both")
        || spells(word, "stdout")
        || spells(word, "stderr")
}

// Whether the word may name a species, a surface and so on.
fn is_name(word: &[u8]) -> bool
    ensures { result ≡ is_name word.now }
{
    match word.split_first() {
        None => false,
        Some((first, rest)) => {
            is_letter(*first) && all_continue(rest) && rest.len() < 64 && !is_reserved(word)
        }
    }
}

/// The text of a word that may name a species, a surface and so on.
#[tactic(auto, using(crate::proofs::NameLemmas::name_is_text))]
pub fn name_in(word: &[u8]) -> Option<&str>
    ensures variant { is_some result ≡ is_name word.now }
    ensures value { IfSome result (λ text. text.now ≡ word.now) }
{
    if !is_name(word) {
        return None;
    }
    str::from_utf8(word).ok()
}

/// The new name that a word gives, beside these names.
pub fn new_name_in<'a>(names: &NameSet, word: &'a [u8]) -> Result<&'a str, Kind>
    ensures rule { MatchResult result
        (λ text. new_name_in names.now word.now ≡ Ok text.now)
        (λ kind. new_name_in names.now word.now ≡ Err kind) }
    ensures value { MatchResult result (λ text. text.now ≡ word.now) (λ _. Unit {0}) }
{
    let Some(text) = name_in(word) else {
        return Err(Kind::NotInProfile);
    };
    match names.number_of(word) {
        None => Ok(text),
        Some(_) => Err(Kind::RepeatedName),
    }
}

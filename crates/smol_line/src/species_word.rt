//! A word that names species that there are.
ghost use Rattle.std.specs.Prelude.{◌≡◌, ◌<◌, ◌≤◌, ◌^◌, length, position, Ok, Err, IfOk, MatchResult};
ghost use Rattle.smol_line.specs.SpeciesWord.{chosen_in, means_all, number_in, opens_bracket, species_name, species_word_in};

use crate::name_set::NameSet;
use crate::words::spells;
use smol_types::Kind;

/// The species that a word means: those of the numbers from the first to before the end.
#[derive(Clone, Copy, Debug, PartialEq, Eq)]
pub struct Chosen {
    pub first: usize,
    pub end: usize,
}

// Where the bracket of a species word begins.
fn bracket_of(word: &[u8]) -> Option<usize>
    ensures { result ≡ position opens_bracket word.now }
{
    word.iter().position(|byte| *byte == b'(')
}

fn means_all(bracket: &[u8]) -> bool
    ensures { result ≡ means_all bracket.now }
{
    spells(bracket, "(all)") || spells(bracket, "(soln)") || spells(bracket, "(solution)")
}

// The part of a species word before its bracket.
fn species_name(word: &[u8]) -> Result<&[u8], Kind>
    ensures { MatchResult result (λ name. species_name word.now ≡ Ok name.now) (λ kind. species_name word.now ≡ Err kind) }
{
    match bracket_of(word) {
        None => Ok(word),
        Some(at) if means_all(&word[at..]) => Ok(&word[..at]),
        Some(_) => Err(Kind::NotInProfile),
    }
}

/// The number of what a word names, counted from 0.
pub fn number_in(names: &NameSet, word: &[u8]) -> Result<u16, Kind>
    requires { length names.now ≤ 2 ^ 16 }
    ensures value { result ≡ number_in names.now word.now }
    ensures within { IfOk result (λ number. number < length names.now) }
{
    match names.number_of(word) {
        Some(number) => Ok(number as u16),
        None => Err(Kind::UnknownName),
    }
}

/// The number of the species that a word names.
pub fn species_word_in(names: &NameSet, word: &[u8]) -> Result<u16, Kind>
    requires { length names.now ≤ 2 ^ 16 }
    ensures value { result ≡ species_word_in names.now word.now }
    ensures within { IfOk result (λ number. number < length names.now) }
{
    number_in(names, species_name(word)?)
}

/// The species that a word means, by their numbers: the word `all` means each of them.
pub fn chosen_in(names: &NameSet, word: &[u8]) -> Result<Chosen, Kind>
    requires { length names.now ≤ 2 ^ 16 }
    ensures value { result ≡ chosen_in names.now word.now }
    ensures ordered { IfOk result (λ chosen. chosen.first ≤ chosen.end) }
    ensures within { IfOk result (λ chosen. chosen.end ≤ length names.now) }
{
    if spells(word, "all") {
        return Ok(Chosen {
            first: 0,
            end: names.len(),
        });
    }
    let number = usize::from(species_word_in(names, word)?);
    Ok(Chosen {
        first: number,
        end: number + 1,
    })
}

//! Tests before a command.
ghost use Rattle.std.specs.Prelude.{◌≡◌, ◌≤◌, ◌<◌, ◌+◌, length, OnOk};
ghost use Rattle.smol_text.specs.Reading.{words_of};
ghost use Rattle.smol_types.specs.Limits.{most_species};
ghost use Rattle.smol_line.specs.Answers.{Answers};
ghost use Rattle.smol_cmd.specs.Test.{asked_in, condition_in, condition_words, test_in, test_of};

use crate::places::word_behind;
use crate::who::who_in;
use smol_line::{NameSet, Refusal, count_in, spells, unless};
use smol_text::StatedLine;
use smol_types::{Kind, Test};
use std::alloc::Global;

/// How many molecules a test may ask for.
const MOST_MOLECULES: u64 = 1_000_000;

/// Under which condition the COMMAND behind a test is performed.
#[derive(Clone, Copy, Debug, PartialEq, Eq)]
pub enum Condition {
    /// `ifno`.
    No,
    /// `ifless`.
    Fewer,
    /// `ifmore`.
    More,
}

/// The condition of the test that a word begins.
#[tactic(auto, unfolding(crate::specs::Test::condition_in))]
pub fn condition_in(word: &[u8]) -> Option<Condition>
    ensures { result ≡ condition_in word.now }
{
    if spells(word, "ifno") {
        Some(Condition::No)
    } else if spells(word, "ifless") {
        Some(Condition::Fewer)
    } else if spells(word, "ifmore") {
        Some(Condition::More)
    } else {
        None
    }
}

/// How many words a test has before its COMMAND, its first one included.
pub fn condition_words(condition: Condition) -> usize
    ensures { result ≡ condition_words condition }
{
    match condition {
        Condition::No => 2,
        Condition::Fewer | Condition::More => 3,
    }
}

// The number of molecules that a word of a test asks for.
fn asked_in(line: &StatedLine<'_>, at: usize) -> Result<u32, Kind>
    requires { at < length (words_of line.now) }
    ensures { result ≡ asked_in line.now at }
{
    let n = count_in(0, MOST_MOLECULES, word_behind(line, at, 2))?;
    Ok(n as u32)
}

// The test of a condition, by its words from a place of the line on.
fn test_of(
    alloc: Global,
    condition: Condition,
    species: &NameSet,
    line: &StatedLine<'_>,
    at: usize,
) -> Result<Test, Refusal>
    requires few { length species.now ≤ most_species }
    requires within { at < length (words_of line.now) }
    ensures { Answers (test_of condition species.now line.now at) result }
{
    let who = who_in(alloc, species, word_behind(line, at, 1))?;
    match condition {
        Condition::No => Ok(Test::IfNo { who }),
        Condition::Fewer => Ok(Test::IfLess {
            who,
            n: asked_in(line, at)?,
        }),
        Condition::More => Ok(Test::IfMore {
            who,
            n: asked_in(line, at)?,
        }),
    }
}

/// The same, where the line has so many words.
#[tactic(auto, unfolding(crate::specs::Test::test_in))]
pub fn test_in(
    alloc: Global,
    condition: Condition,
    species: &NameSet,
    line: &StatedLine<'_>,
    at: usize,
) -> Result<Test, Refusal>
    requires few { length species.now ≤ most_species }
    requires within { at < length (words_of line.now) }
    ensures enough { OnOk result (at + condition_words condition ≤ length (words_of line.now)) }
    ensures rule { Answers (test_in condition species.now line.now at) result }
{
    unless(
        line.len() - at >= condition_words(condition),
        Kind::WrongWordCount,
    )?;
    test_of(alloc, condition, species, line, at)
}

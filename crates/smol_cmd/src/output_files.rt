//! `output_files NAME ...`: the names of the files that commands print to.
ghost use Rattle.std.specs.Prelude.{◌≡◌, ◌≤◌, ◌++◌, ◌∷◌, [], length, None, Some, Ok, Err, OnOk, MatchResult};
ghost use Rattle.std.specs.List.{list_all};
ghost use Rattle.std.specs.Result.{IsOkAnd, result_err};
ghost use Rattle.smol_types.specs.declared.fault.Kind.{Kind as TheKind};
ghost use Rattle.smol_types.specs.Limits.{most_outputs};
ghost use Rattle.smol_line.specs.declared.refusal.Refusal.TheVariants.{At};
ghost use Rattle.smol_line.specs.Names.{names_fault};
ghost use Rattle.smol_cmd.specs.OutputFiles.{file_names, given_names, is_plain, is_standard, output_fault, output_files_in};

use smol_line::{NameSet, Refusal, spells, unless};
use smol_text::StatedLine;
use smol_types::Kind;
use std::alloc::Global;
use std::str;

/// How many output files there may be.
const MOST_OUTPUTS: usize = 64;

fn is_standard(word: &[u8]) -> bool
    ensures { result ≡ is_standard word.now }
{
    spells(word, "stdout") || spells(word, "stderr")
}

fn are_plain(word: &[u8]) -> bool
    ensures { result ≡ list_all is_plain word.now }
{
    word.iter().all(|byte| *byte < 128)
}

// The new name that a word gives, beside these names.
#[tactic(auto, using(crate::proofs::OutputNames::plain_is_text))]
fn new_output_in<'a>(outputs: &NameSet, word: &'a [u8]) -> Result<&'a str, Kind>
    ensures rule { result_err result ≡ output_fault outputs.now word.now }
    ensures value { MatchResult result (λ text. text.now ≡ word.now) (λ _. Unit {0}) }
{
    if !are_plain(word) {
        return Err(Kind::NotInProfile);
    }
    let Ok(text) = str::from_utf8(word) else {
        return Err(Kind::NotInProfile);
    };
    match outputs.number_of(word) {
        None => Ok(text),
        Some(_) => Err(Kind::RepeatedName),
    }
}

// Adds the name of a file that a word gives.
fn add_output(alloc: Global, outputs: &mut NameSet, word: &[u8]) -> Result<(), Refusal>
    ensures added { OnOk result (outputs.new ≡ outputs.old ++ word.now ∷ []) }
    ensures accepted { OnOk result (output_fault outputs.old word.now ≡ None) }
    ensures refused { (kind : TheKind) → result ≡ Err (At kind) → output_fault outputs.old word.now ≡ Some kind }
{
    let name = new_output_in(outputs, word)?;
    outputs.add(alloc, name)?;
    Ok(())
}

// Adds what a word names, where that is a file.
fn add_word(alloc: Global, outputs: &mut NameSet, word: &[u8]) -> Result<(), Refusal>
    ensures added { OnOk result (outputs.new ≡ outputs.old ++ file_names (word.now ∷ [])) }
    ensures accepted { OnOk result (names_fault output_fault outputs.old (file_names (word.now ∷ [])) ≡ None) }
    ensures refused { (kind : TheKind) → result ≡ Err (At kind) → names_fault output_fault outputs.old (file_names (word.now ∷ [])) ≡ Some kind }
{
    if is_standard(word) {
        return Ok(());
    }
    add_output(alloc, outputs, word)
}

// Adds the names of files that the words behind the first one give.
fn add_outputs(alloc: Global, outputs: &mut NameSet, line: &StatedLine<'_>) -> Result<(), Refusal>
    ensures added { OnOk result (outputs.new ≡ outputs.old ++ given_names line.now) }
    ensures accepted { OnOk result (names_fault output_fault outputs.old (given_names line.now) ≡ None) }
    ensures refused { (kind : TheKind) → result ≡ Err (At kind) → names_fault output_fault outputs.old (given_names line.now) ≡ Some kind }
{
    for i in 1..line.len() {
        add_word(alloc, outputs, line.word(i))?;
    }
    Ok(())
}

/// Reads an `output_files` line: adds the names that it gives to these.
#[tactic(auto, unfolding(crate::specs::OutputFiles::output_files_in))]
pub fn read_output_files(
    alloc: Global,
    outputs: &mut NameSet,
    line: &StatedLine<'_>,
) -> Result<(), Refusal>
    ensures accepted { OnOk result (IsOkAnd (output_files_in outputs.old line.now) (λ more. outputs.new ≡ outputs.old ++ more)) }
    ensures few { OnOk result (length outputs.new ≤ most_outputs) }
    ensures refused { (kind : TheKind) → result ≡ Err (At kind) → output_files_in outputs.old line.now ≡ Err kind }
{
    unless(line.len() >= 2, Kind::WrongWordCount)?;
    add_outputs(alloc, outputs, line)?;
    unless(outputs.len() <= MOST_OUTPUTS, Kind::TooMany)?;
    Ok(())
}

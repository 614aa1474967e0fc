//! The table of the outcomes of runs.
ghost use Rattle.std.specs.Prelude.{◌≡◌, ℕ, ◌≤◌, ◌<◌, ◌+◌, ◌*◌, ◌++◌, IfOk, OnOk, length};
ghost use Rattle.smol_sweep.specs.Table.{AreAlike, IsAlike, TellsOf, ended_in, first_length, joined_by, of_species, outcome_text, run_line, run_lines, start_of, sum_line, sums, table_of, value_of, word_of, with_outcome};

use crate::outcome::Outcome;
use crate::runs::seed_at;
use itoa::Buffer;
use smol_print::{add_number, add_numbers, end_line};
use std::alloc::{AllocError, Global};

/// More molecules of a species there never are.
const MOST: u64 = 1_000_000;

/// What a line tells of the counts of a species over runs.
#[derive(Clone, Copy, Debug, PartialEq, Eq)]
enum Told {
    Least,
    Greatest,
    Sum,
}

/// The table of 1 to 1,000 outcomes of runs, of which the first has this seed: a line for each run, and where runs came to
/// their end, lines with the least and the greatest count of each species and with the sum of its counts.
/// Fails for want of memory alone.
#[tactic(auto, unfolding(crate::specs::Table::table_of))]
pub fn table(alloc: Global, first: u64, outcomes: &[Outcome]) -> Result<Vec<u8>, AllocError>
    requires least { 1 ≤ length outcomes.now }
    requires most { length outcomes.now ≤ 1000 }
    requires alike { AreAlike outcomes.now }
    ensures { IfOk result (λ text. text.items ≡ table_of first outcomes.now) }
{
    let mut text = Vec::new(alloc);
    add_runs(&mut text, first, outcomes)?;
    add_last_lines(&mut text, outcomes)?;
    Ok(text)
}

// Adds the last lines, where runs came to their end.
#[tactic(auto, using(crate::proofs::Folds::last_lines))]
fn add_last_lines(text: &mut Vec<u8>, outcomes: &[Outcome]) -> Result<(), AllocError>
    requires most { length outcomes.now ≤ 1000 }
    requires alike { AreAlike outcomes.now }
    ensures { OnOk result (text.new.items ≡ text.old.items ++ sums (ended_in outcomes.now)) }
{
    match first_length(outcomes) {
        Some(species) => {
            add_sums(text, Told::Least, outcomes, species)?;
            add_sums(text, Told::Greatest, outcomes, species)?;
            add_sums(text, Told::Sum, outcomes, species)
        }
        None => Ok(()),
    }
}

// Adds the line of each run.
fn add_runs(text: &mut Vec<u8>, first: u64, outcomes: &[Outcome]) -> Result<(), AllocError>
    requires most { length outcomes.now ≤ 1000 }
    ensures { OnOk result (text.new.items ≡ text.old.items ++ run_lines first 0 outcomes.now) }
{
    for number in 0..outcomes.len() {
        add_run(text, seed_at(first, number as u32), &outcomes[number])?;
    }
    Ok(())
}

// Adds the line of a run.
fn add_run(text: &mut Vec<u8>, seed: u64, outcome: &Outcome) -> Result<(), AllocError>
    ensures { OnOk result (text.new.items ≡ text.old.items ++ run_line seed outcome.now) }
{
    let mut digits = Buffer::new();
    text.extend_from_slice(digits.format(seed).as_bytes())?;
    add_outcome(text, outcome)?;
    end_line(text)
}

// Adds what became of a run.
fn add_outcome(text: &mut Vec<u8>, outcome: &Outcome) -> Result<(), AllocError>
    ensures { OnOk result (text.new.items ≡ text.old.items ++ outcome_text outcome.now) }
{
    match outcome {
        Outcome::Ended(counts) => {
            text.extend_from_slice(b" 0")?;
            add_numbers(text, counts.as_slice())
        }
        Outcome::NoPlace => text.extend_from_slice(b" 2"),
        Outcome::Over => text.extend_from_slice(b" 6"),
    }
}

// Of how many species the first run tells that came to its end, if there is one.
fn first_length(outcomes: &[Outcome]) -> Option<usize>
    ensures { result ≡ first_length (ended_in outcomes.now) }
{
    for outcome in outcomes {
        if let Outcome::Ended(counts) = outcome {
            return Some(counts.as_slice().len());
        }
    }
    None
}

// Adds a line that tells of each species over the runs that came to their end.
fn add_sums(
    text: &mut Vec<u8>,
    told: Told,
    outcomes: &[Outcome],
    species: usize,
) -> Result<(), AllocError>
    requires most { length outcomes.now ≤ 1000 }
    requires tells { TellsOf species outcomes.now }
    ensures { OnOk result (text.new.items ≡ text.old.items ++ sum_line told (ended_in outcomes.now) species) }
{
    text.extend_from_slice(word_of(told))?;
    for index in 0..species {
        add_number(text, value_of(told, outcomes, index))?;
    }
    end_line(text)
}

// The first word of a line.
fn word_of(told: Told) -> &'static [u8]
    ensures { result.now ≡ word_of told }
{
    match told {
        Told::Least => b"min",
        Told::Greatest => b"max",
        Told::Sum => b"sum",
    }
}

// What is told of a species over the runs that came to their end.
fn value_of(told: Told, outcomes: &[Outcome], species: usize) -> u64
    requires most { length outcomes.now ≤ 1000 }
    requires tells { (count : ℕ) × (species < count) × TellsOf count outcomes.now }
    ensures { result ≡ value_of told (of_species species (ended_in outcomes.now)) }
{
    let mut value = start_of(told);
    for outcome in outcomes {
        value = with_outcome(told, value, outcome, species);
    }
    value
}

// What is told of no count.
fn start_of(told: Told) -> u64
    ensures { result ≡ start_of told }
{
    match told {
        Told::Least => MOST,
        Told::Greatest | Told::Sum => 0,
    }
}

// What is told of runs and one more.
fn with_outcome(told: Told, value: u64, outcome: &Outcome, species: usize) -> u64
    requires small { value ≤ 1000 * 1000000 }
    requires alike { (count : ℕ) × (species < count) × IsAlike count outcome.now }
    ensures value { result ≡ with_outcome told species value outcome.now }
    ensures small { result ≤ value + 1000000 }
{
    match outcome {
        Outcome::Ended(counts) => joined_by(told, value, counts.as_slice()[species]),
        Outcome::NoPlace | Outcome::Over => value,
    }
}

// What is told of some counts and one more.
fn joined_by(told: Told, value: u64, count: u64) -> u64
    requires small { value ≤ 1000 * 1000000 }
    requires few { count ≤ 1000000 }
    ensures value { result ≡ joined_by told value count }
    ensures small { result ≤ value + 1000000 }
{
    match told {
        Told::Least => value.min(count),
        Told::Greatest => value.max(count),
        Told::Sum => value + count,
    }
}

//! Encounters while they are looked for, each as one number.
ghost use Rattle.std.specs.Prelude.{◌≡◌, ◌^◌, ◌<◌, [], All, IfOk, OnOk, map};
ghost use Rattle.std.specs.List.Sorted.{IsStrictlyIncreasing};
ghost use Rattle.smol_pairs.specs.Keys.{HaveSame, IsOfKey, key_of, ranks_at};

use crate::encounter::Encounter;
use std::alloc::{AllocError, Global};
use std::marker::Model;

// How many encounters one rank more is apart, where ranks and reactions are those of a key.
const RANKS: u64 = 1 << 20;

const REACTIONS: u64 = 1 << 10;

/// Encounters in any order, some more than once. Contracts see them as their list. Each is kept as one number, and the
/// order of the numbers is that of the lower rank, the higher one and the reaction.
#[derive(Drop)]
pub struct Keys {
    numbers: Vec<u64>,
}

impl Model for Keys {
    ghost use Rattle.std.specs.Prelude.{ℕ, ◌^◌, ◌<◌, List, All, map};
    ghost use Rattle.smol_pairs.specs.declared.encounter.Encounter.{Encounter};
    ghost use Rattle.smol_pairs.specs.Keys.{ranks_at};

    ghost Value = { List Encounter };

    ghost view = { λ keys. map ranks_at keys.numbers.items };

    ghost invariant = { λ keys. All (λ (number : ℕ). number < 2 ^ 50) keys.numbers.items };
}

impl Keys {
    ghost use Rattle.std.specs.Prelude.{◌∷◌, ◌++◌};

    /// No encounters.
    pub fn new(alloc: Global) -> Keys
        ensures { result ≡ [] }
    {
        Keys {
            numbers: Vec::new(alloc),
        }
    }

    /// Adds an encounter.
    pub fn add(&mut self, found: &Encounter) -> Result<(), AllocError>
        requires { IsOfKey found.now }
        ensures { OnOk result (self.new ≡ self.old ++ found.now ∷ []) }
    {
        self.numbers.push(key_of(found))?;
        Ok(())
    }

    /// Adds the encounters of another list.
    pub fn append(&mut self, more: Keys) -> Result<(), AllocError>
        ensures { OnOk result (self.new ≡ self.old ++ more) }
    {
        let mut numbers = more.numbers;
        self.numbers.append(&mut numbers)
    }

    /// The encounters by the lower rank, the higher one and the reaction, each once.
    pub fn into_order(self, alloc: Global) -> Result<Vec<Encounter>, AllocError>
        ensures rising { IfOk result (λ found. IsStrictlyIncreasing (map key_of found.items)) }
        ensures same { IfOk result (λ found. HaveSame self found.items) }
    {
        let mut numbers = self.numbers;
        sort_numbers(&mut numbers);
        encounters_at(alloc, &numbers)
    }
}

// The number of an encounter.
fn key_of(found: &Encounter) -> u64
    requires { IsOfKey found.now }
    ensures value { result ≡ key_of found.now }
    ensures size { result < 2 ^ 50 }
{
    (u64::from(found.rank_a) * RANKS + u64::from(found.rank_b)) * REACTIONS
        + u64::from(found.reaction)
}

// The encounter of a number.
fn ranks_at(number: u64) -> Encounter
    requires { number < 2 ^ 50 }
    ensures { result ≡ ranks_at number }
{
    Encounter {
        rank_a: (number / (RANKS * REACTIONS)) as u32,
        rank_b: (number / REACTIONS % RANKS) as u32,
        reaction: (number % REACTIONS) as u16,
    }
}

// Sorts numbers and leaves out repeats.
fn sort_numbers(numbers: &mut Vec<u64>)
    ensures rising { IsStrictlyIncreasing numbers.new.items }
    ensures same { HaveSame numbers.old.items numbers.new.items }
{
    numbers.sort_unstable();
    numbers.dedup();
}

// The encounters of numbers.
fn encounters_at(alloc: Global, numbers: &[u64]) -> Result<Vec<Encounter>, AllocError>
    requires { All (λ number. number < 2 ^ 50) numbers.now }
    ensures { IfOk result (λ found. found.items ≡ map ranks_at numbers.now) }
{
    let mut found = Vec::with_capacity(alloc, numbers.len())?;
    for number in numbers {
        found.push(ranks_at(*number))?;
    }
    Ok(found)
}

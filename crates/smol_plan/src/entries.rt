//! The molecules of pairs, each as one number.
ghost use Rattle.std.specs.Prelude.{◌≡◌, ◌*◌, ◌/◌, ◌+◌, ◌%◌, ◌<◌, IfOk, IsPermutation, length};
ghost use Rattle.smol_plan.specs.Entries.{entry_of, entries_from, entry_at, IsRising, side_at};

use crate::pair::{Pair, Side};
use rayon::prelude::*;
use rayon::slice::par_sort_unstable;
use std::alloc::{AllocError, Global};
use std::marker::{Model, Sync};
use std::thread::Threads;

/// Up to how many entries one thread sorts: before it has asked for others and started them it has sorted as many itself.
const SHORT: usize = 4096;

// How many numbers one molecule more is apart.
const MOLECULES: u128 = 1 << 64;

/// A molecule of a pair: which, and on which side of which pair.
#[derive(Clone, Copy)]
pub struct Entry {
    pub molecule: u64,
    pub pair: usize,
    pub side: Side,
}

/// The molecules of a list of pairs. Contracts see them as a list of entries. Each is kept as one number, and the order of the
/// numbers is that of the molecule, the pair and the side.
#[derive(Drop)]
pub struct Entries {
    numbers: Vec<u128>,
}

impl Model for Entries {
    ghost use Rattle.std.specs.Prelude.{List, map};
    ghost use Rattle.smol_plan.specs.declared.entries.Entry.{Entry};
    ghost use Rattle.smol_plan.specs.Entries.{entry_of};

    ghost Value = { List Entry };

    ghost view = { λ entries. map entry_of entries.numbers.items };
}

impl Entries {
    /// Two entries for each pair.
    pub fn of_pairs(alloc: Global, pairs: &[Pair]) -> Result<Entries, AllocError>
        ensures { IfOk result (λ entries. entries ≡ entries_from 0 pairs.now) }
    {
        let mut numbers = Vec::with_capacity(alloc, pairs.len().saturating_mul(2))?;
        for pair in pairs {
            numbers.push(number_of(pair.a, numbers.len()))?;
            numbers.push(number_of(pair.b, numbers.len()))?;
        }
        Ok(Entries { numbers })
    }

    /// Sorts the entries by molecule, and those of one molecule by pair.
    pub fn sort<R: Threads + Sync>(&mut self, rt: &R)
        ensures permutation { IsPermutation self.old self.new }
        ensures rising { IsRising self.new }
    {
        if self.numbers.len() <= SHORT {
            self.numbers.sort_unstable();
        } else {
            par_sort_unstable(rt, &mut self.numbers);
        }
    }

    /// How many there are.
    pub fn len(&self) -> usize
        ensures { result ≡ length self.now }
    {
        self.numbers.len()
    }

    /// The entry at a place.
    pub fn at(&self, place: usize) -> Entry
        requires { place < length self.now }
        ensures { result ≡ entry_at self.now place }
    {
        entry_of(self.numbers[place])
    }
}

// The number of a molecule at a place among the entries, which come two for each pair.
fn number_of(molecule: u64, place: usize) -> u128
    ensures { entry_of result ≡ (record { molecule = molecule; pair = place / 2; side = side_at place }) }
{
    u128::from(molecule) * MOLECULES + place as u128
}

// The entry of a number.
fn entry_of(number: u128) -> Entry
    ensures { result ≡ entry_of number }
{
    let place = (number % MOLECULES) as usize;
    Entry {
        molecule: (number / MOLECULES) as u64,
        pair: place / 2,
        side: if place % 2 == 0 {
            Side::Low
        } else {
            Side::High
        },
    }
}

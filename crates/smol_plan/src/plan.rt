//! A list of pairs with its links: which pair comes before and after which on a molecule.
ghost use Rattle.std.specs.Prelude.{◌≡◌, ℕ, ◌+◌, ◌*◌, ◌<◌, ◌≤◌, ◌↔◌, [], length, true, false, Some, IfOk, IfSome, IfNone, IsTrue, min, vec_len};
ghost use Rattle.smol_plan.specs.declared.pair.Side.{Side};
ghost use Rattle.smol_plan.specs.Pair.{IsOrdered, molecule_at};
ghost use Rattle.smol_plan.specs.Links.{has_at, source_of, IsLastBefore, IsNextAfter};
ghost use Rattle.smol_plan.specs.Linked.{unlinked, earlier_of, later_of, with_earlier, with_later, joined, AreUnlinked, AreInside, LinkedUpTo};
ghost use Rattle.smol_plan.specs.Machine.{slice_of, slice_count, has_no_link};

use crate::entries::{Entries, Entry};
use crate::pair::{Pair, Side};
use std::alloc::{AllocError, Global};
use std::marker::{Model, Sync};
use std::ops::Range;
use std::thread::Threads;

/// How many pairs a slice has, but for the last.
const SLICE: usize = 64;

/// A list of pairs, in the order in which they come, with the pairs that come before and after each on its molecules.
#[derive(Drop)]
pub struct Plan {
    pairs: Vec<Pair>,
    links: Vec<Links>,
}

impl Model for Plan {
    ghost use Rattle.std.specs.Prelude.{List};
    ghost use Rattle.smol_plan.specs.declared.pair.Pair.{Pair};

    ghost Value = { List Pair };

    ghost use Rattle.smol_plan.specs.Linked.{IsLinked};

    ghost view = { λ plan. plan.pairs.items };

    ghost invariant = { λ plan. IsLinked plan.pairs.items plan.links.items };
}

impl Plan {
    /// The plan of a list of pairs. The links are read off the sorted molecules of all pairs.
    pub fn of_pairs<R: Threads + Sync>(
        rt: &R,
        alloc: Global,
        pairs: Vec<Pair>,
    ) -> Result<Plan, AllocError>
        requires ordered { IsOrdered pairs.items }
        ensures of { IfOk result (λ plan. plan ≡ pairs.items) }
    {
        let mut entries = Entries::of_pairs(alloc, &pairs)?;
        entries.sort(rt);
        let mut links = no_links(alloc, pairs.len())?;
        join_all(&mut links, &entries);
        Ok(Plan { pairs, links })
    }

    /// How many pairs there are.
    pub fn len(&self) -> usize
        ensures { result ≡ length self.now }
    {
        self.pairs.len()
    }

    /// Whether there are no pairs.
    pub fn is_empty(&self) -> bool
        ensures { IsTrue result ↔ (self.now ≡ []) }
    {
        self.pairs.is_empty()
    }

    /// The pairs, in the order in which they come.
    pub fn pairs(&self) -> &[Pair]
        ensures value { result.now ≡ self.now }
        ensures ordered { IsOrdered self.now }
    {
        self.pairs.as_slice()
    }

    /// How many slices the list is cut into.
    pub fn slices(&self) -> usize
        ensures { result ≡ slice_count self.now }
    {
        self.pairs.len().div_ceil(SLICE)
    }

    /// The places of the pairs of a slice.
    pub fn slice(&self, slice: usize) -> Range<usize>
        requires { slice < slice_count self.now }
        ensures start { result.start ≡ 64 * slice }
        ensures some { result.start < result.end }
        ensures end { result.end ≡ min (64 * slice + 64) (length self.now) }
        ensures holds { (j : ℕ) → j < length self.now → (slice_of j ≡ slice) ↔ ((result.start ≤ j) × (j < result.end)) }
    {
        let len = self.pairs.len();
        let start = SLICE * slice;
        start..start + SLICE.min(len - start)
    }

    /// The last earlier pair that has this molecule of the pair.
    pub fn before(&self, pair: usize, side: Side) -> Option<usize>
        requires { pair < length self.now }
        ensures last { IfSome result (IsLastBefore self.now (molecule_at self.now pair side) pair) }
        ensures none { IfNone result ((i : ℕ) → i < pair → has_at self.now (molecule_at self.now pair side) i ≡ false) }
        ensures source { result ≡ source_of self.now pair side }
    {
        let before = self.links[pair].before(side);
        if before == pair { None } else { Some(before) }
    }

    /// The next later pair that has this molecule of the pair, and the side on which it has it.
    pub fn after(&self, pair: usize, side: Side) -> Option<(usize, Side)>
        requires { pair < length self.now }
        ensures next { IfSome result (λ next. IsNextAfter self.now (molecule_at self.now pair side) pair next.0) }
        ensures on_side { IfSome result (λ next. molecule_at self.now next.0 next.1 ≡ molecule_at self.now pair side) }
        ensures none { IfNone result ((k : ℕ) → pair < k → k < length self.now
            → has_at self.now (molecule_at self.now pair side) k ≡ false) }

        // What comes before the pair found is this one, and what comes after the pair before this one is this one.
        ensures undone { IfSome result (λ next. source_of self.now next.0 next.1 ≡ Some pair) }
        ensures undoes { (k : ℕ) (s : Side) → molecule_at self.now k s ≡ molecule_at self.now pair side →
            source_of self.now k s ≡ Some pair → result ≡ Some (k, s) }
    {
        let after = self.links[pair].after(side);
        if after == pair {
            None
        } else {
            Some((after, self.side_of(after, self.molecule(pair, side))))
        }
    }

    /// Whether a pair waits for no other.
    pub fn is_unlinked(&self, pair: usize) -> bool
        requires { pair < length self.now }
        ensures { result ≡ has_no_link self.now pair }
    {
        self.before(pair, Side::Low).is_none() && self.before(pair, Side::High).is_none()
    }

    /// The molecule of a pair on a side.
    pub fn molecule(&self, pair: usize, side: Side) -> u64
        requires { pair < length self.now }
        ensures { result ≡ molecule_at self.now pair side }
    {
        self.pairs[pair].molecule(side)
    }

    /// The side on which a pair has a molecule.
    pub fn side_of(&self, pair: usize, molecule: u64) -> Side
        requires inside { pair < length self.now }
        requires has { has_at self.now molecule pair ≡ true }
        ensures { molecule_at self.now pair result ≡ molecule }
    {
        if self.pairs[pair].a == molecule {
            Side::Low
        } else {
            Side::High
        }
    }
}

// The neighbors of a pair on its two molecules: indices of pairs, and its own where there is no such pair.
#[derive(Clone, Copy)]
struct Links {
    before_low: usize,
    before_high: usize,
    after_low: usize,
    after_high: usize,
}

impl Links {
    // The links of a pair that has no neighbor.
    fn none(pair: usize) -> Self
        ensures { result ≡ unlinked pair }
    {
        Links {
            before_low: pair,
            before_high: pair,
            after_low: pair,
            after_high: pair,
        }
    }

    fn before(&self, side: Side) -> usize
        ensures { result ≡ earlier_of self.now side }
    {
        match side {
            Side::Low => self.before_low,
            Side::High => self.before_high,
        }
    }

    fn after(&self, side: Side) -> usize
        ensures { result ≡ later_of self.now side }
    {
        match side {
            Side::Low => self.after_low,
            Side::High => self.after_high,
        }
    }

    fn set_before(&mut self, side: Side, pair: usize)
        ensures { self.new ≡ with_earlier self.old side pair }
    {
        match side {
            Side::Low => self.before_low = pair,
            Side::High => self.before_high = pair,
        }
    }

    fn set_after(&mut self, side: Side, pair: usize)
        ensures { self.new ≡ with_later self.old side pair }
    {
        match side {
            Side::Low => self.after_low = pair,
            Side::High => self.after_high = pair,
        }
    }
}

// Links for this many pairs, none of which has a neighbor.
fn no_links(alloc: Global, len: usize) -> Result<Vec<Links>, AllocError>
    ensures one_each { IfOk result (λ links. vec_len links ≡ len) }
    ensures unlinked { IfOk result (λ links. AreUnlinked links.items) }
{
    let mut links = Vec::with_capacity(alloc, len)?;
    for pair in 0..len {
        links.push(Links::none(pair))?;
    }
    Ok(links)
}

// Makes the pair of the one entry the earlier neighbor of the other's pair, and that the later neighbor of it.
fn join(links: &mut [Links], first: Entry, second: Entry)
    requires first_in { first.pair < length links.old }
    requires second_in { second.pair < length links.old }
    ensures { links.new ≡ joined links.old first second }
{
    links[second.pair].set_before(second.side, first.pair);
    links[first.pair].set_after(first.side, second.pair);
}

// Joins the pairs of each two entries that follow each other and are of one molecule.
fn join_all(links: &mut [Links], entries: &Entries)
    requires unlinked { AreUnlinked links.old }
    requires inside { AreInside entries.now (length links.old) }
    ensures { LinkedUpTo entries.now links.new (length entries.now) }
{
    for next in 1..entries.len() {
        let (first, second) = (entries.at(next - 1), entries.at(next));
        if first.molecule == second.molecule {
            join(links, first, second);
        }
    }
}

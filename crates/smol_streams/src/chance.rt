//! Which random word each draw of a run takes.
ghost use Rattle.std.specs.Prelude.{◌≡◌, ◌+◌, ◌*◌, ◌^◌, ◌<◌, ◌≤◌, ◌<ℤ◌, ◌+ℤ◌, pos, unsigned_abs};
ghost use Rattle.smol_geom.specs.Axes.{EachAxis, IsEven, IsWithin, on_axis};
ghost use Rattle.smol_streams.specs.Chance.{axis_drawn, command_word, coordinate_drawn, first_order_word, lone_axis, pair_axis, pair_stream, pair_word};
ghost use Rattle.smol_streams.specs.Displacement.{displacement};

use crate::Streams;
use smol_geom::Step3;

// A step has so many places in a molecule's stream. The first 18 are those of its displacement, six for each axis. Behind them are
// the word of the reaction that it makes alone, and that of the axis along which its products are taken apart.
pub const WORDS_A_STEP: u128 = 32;

pub const WORDS_AN_AXIS: u128 = 6;

const REACTION_WORD: u128 = 18;

const AXIS_WORD: u128 = 19;

// The first of the streams in which coordinates are drawn for molecules, by serial. A try has so many places there, and an axis
// two of them.
const FIRST_OF_COORDINATES: u64 = 1 << 62;

const WORDS_A_TRY: u128 = 8;

const WORDS_A_COORDINATE: u128 = 2;

// The first of the streams of two molecules, by their ranks, of which there may be so many. A step has so many places there, and
// each reaction two of them: one says whether the two react, and the other is that of the axis.
const FIRST_OF_PAIRS: u64 = 1 << 63;

const RANKS: u64 = 1 << 20;

const WORDS_A_STEP_OF_TWO: u128 = 2048;

const WORDS_A_REACTION: u128 = 2;

// The first of the streams of commands, by number. A step has a place there for each rank.
const FIRST_OF_COMMANDS: u64 = 3 << 62;

/// What a molecule draws in a step: how far it goes where nothing is in its way, in ticks, and the word of the reaction that it
/// may make alone.
#[derive(Clone, Copy, Debug, PartialEq, Eq)]
pub struct Drawn {
    pub by: Step3,
    pub word: u32,
}

impl Streams {
    /// What the molecule with this serial and a difstep of s micros draws in step k, where the first `dims` axes are in use.
    pub fn draw(&mut self, serial: u64, k: u32, s: u32, dims: u8) -> Drawn
        ensures by { result.by ≡ displacement self.old serial k s dims }
        ensures even { EachAxis (λ axis. IsEven (on_axis result.by.0 axis)) }
        ensures size { IsWithin (12 * s + 2) result.by.0 }
        ensures word { result.word ≡ first_order_word self.old serial k }
        ensures seed { self.new ≡ self.old }
    {
        let by = self.displace(serial, k, s, dims);
        let word = self.first_order_word(serial, k);
        Drawn { by, word }
    }

    /// The word that says which reaction a molecule makes alone in step k.
    pub fn first_order_word(&mut self, serial: u64, k: u32) -> u32
        ensures word { result ≡ first_order_word self.old serial k }
        ensures seed { self.new ≡ self.old }
    {
        self.word(serial, WORDS_A_STEP * u128::from(k) + REACTION_WORD)
    }

    /// The axis along which the products of a molecule are taken apart that reacts alone in step k.
    pub fn lone_axis(&mut self, dims: u8, serial: u64, k: u32) -> u8
        requires { 0 < dims }
        ensures axis { result ≡ lone_axis self.old dims serial k }
        ensures in_use { result < dims }
        ensures seed { self.new ≡ self.old }
    {
        let word = self.word(serial, WORDS_A_STEP * u128::from(k) + AXIS_WORD);
        axis_drawn(dims, word)
    }

    /// The word that says whether two molecules of these ranks react by reaction r in step k.
    pub fn pair_word(&mut self, ranks: (u32, u32), k: u32, r: u16) -> u32
        requires first { ranks.0 < 2 ^ 20 }
        requires second { ranks.1 < 2 ^ 20 }
        ensures word { result ≡ pair_word self.old ranks.0 ranks.1 k r }
        ensures seed { self.new ≡ self.old }
    {
        self.word(pair_stream(ranks), place_of_reaction(k, r))
    }

    /// The axis along which their products are taken apart.
    pub fn pair_axis(&mut self, dims: u8, ranks: (u32, u32), k: u32, r: u16) -> u8
        requires dims { 0 < dims }
        requires first { ranks.0 < 2 ^ 20 }
        requires second { ranks.1 < 2 ^ 20 }
        ensures axis { result ≡ pair_axis self.old dims ranks.0 ranks.1 k r }
        ensures in_use { result < dims }
        ensures seed { self.new ≡ self.old }
    {
        let word = self.word(pair_stream(ranks), place_of_reaction(k, r) + 1);
        axis_drawn(dims, word)
    }

    /// The word that command c draws at step k for the molecule of a rank in the list before it.
    pub fn command_word(&mut self, c: u16, k: u32, rank: u32) -> u32
        ensures word { result ≡ command_word self.old c k rank }
        ensures seed { self.new ≡ self.old }
    {
        let place = u128::from(RANKS) * u128::from(k) + u128::from(rank);
        self.word(FIRST_OF_COMMANDS + u64::from(c), place)
    }

    /// An odd coordinate between a low and a high plane of an axis, in ticks, for a molecule at a try of its placement.
    pub fn coordinate(&mut self, serial: u64, attempt: u32, axis: u8, low: i64, high: i64) -> i64
        requires serial { serial < 2 ^ 62 }
        requires low { unsigned_abs low ≤ 2 ^ 60 }
        requires high { unsigned_abs high ≤ 2 ^ 60 }
        requires order { low <ℤ high }
        ensures value { result ≡ coordinate_drawn self.old serial attempt axis low high }
        ensures seed { self.new ≡ self.old }
    {
        let place = WORDS_A_TRY * u128::from(attempt) + WORDS_A_COORDINATE * u128::from(axis);
        let gap = high.abs_diff(low);
        let number = self.below(FIRST_OF_COORDINATES + serial, place, gap / 2);
        odd_above(low, number)
    }
}

// The odd number above an even one that has so many between them.
fn odd_above(low: i64, number: u64) -> i64
    requires low { unsigned_abs low ≤ 2 ^ 60 }
    requires number { number ≤ 2 ^ 60 }
    ensures { result ≡ low +ℤ pos (1 + 2 * number) }
{
    low + (1 + 2 * number) as i64
}

// The axis that a word draws of so many in use.
fn axis_drawn(dims: u8, word: u32) -> u8
    requires { 0 < dims }
    ensures value { result ≡ axis_drawn dims word }
    ensures in_use { result < dims }
{
    ((u64::from(word) * u64::from(dims)) >> 32) as u8
}

// The stream of two molecules of these ranks.
fn pair_stream(ranks: (u32, u32)) -> u64
    requires first { ranks.0 < 2 ^ 20 }
    requires second { ranks.1 < 2 ^ 20 }
    ensures { result ≡ pair_stream ranks.0 ranks.1 }
{
    FIRST_OF_PAIRS + u64::from(ranks.0) * RANKS + u64::from(ranks.1)
}

// The first of a reaction's two places in the stream of two molecules.
fn place_of_reaction(k: u32, r: u16) -> u128
    ensures { result ≡ 2048 * k + 2 * r }
{
    WORDS_A_STEP_OF_TWO * u128::from(k) + WORDS_A_REACTION * u128::from(r)
}

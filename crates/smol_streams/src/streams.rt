ghost use Rattle.std.specs.Prelude.{◌≡◌, ◌+◌, ◌*◌, ◌%◌, ◌/◌, ◌^◌, ◌<◌, ◌≤◌, sum, unsigned_abs};
ghost use Rattle.smol_geom.specs.Axes.{EachAxis, IsEven, IsWithin, on_axis};
ghost use Rattle.smol_streams.specs.Displacement.{centred_sum, displacement, displacement_on, draws_of};
ghost use Rattle.smol_streams.specs.Generator.{moved};
ghost use Rattle.smol_streams.specs.Words.{word_of, number_below};

use crate::chance::{WORDS_A_STEP, WORDS_AN_AXIS};
use crate::displacement::scale;
use rand_chacha::ChaCha8Rng;
use rand_core::SeedableRng;
use rand_core::utils::NextWord;
use smol_geom::Step3;
use std::marker::Model;

// The mean of a sum of twelve 16-bit draws.
const MEAN: i64 = 393_210;

/// The random words of a seed. A word is a function of the seed, its stream and its place, so a
/// `Streams` counts as its seed alone; the generator in it stands at the next word's place.
#[derive(Drop)]
pub struct Streams {
    seed: u64,
    generator: ChaCha8Rng,
}

impl Model for Streams {
    ghost use Rattle.std.specs.Prelude.{ℕ};
    ghost use Rattle.smol_streams.specs.Generator.{HasKeyOf};

    ghost Value = { ℕ };

    ghost view = { λ s. s.seed };

    ghost invariant = { λ s. HasKeyOf s.generator s.seed };
}

impl Streams {
    /// The words of this seed: the key is the seed's eight bytes, least first, and 24 zero bytes.
    pub fn of_seed(seed: u64) -> Streams
        ensures { result ≡ seed }
    {
        let mut key = [0; 32];
        key[..8].copy_from_slice(&seed.to_le_bytes());
        Streams {
            seed,
            generator: ChaCha8Rng::from_seed(key),
        }
    }

    /// The word at a place of a stream.
    pub fn word(&mut self, stream: u64, place: u128) -> u32
        requires { place < 2 ^ 68 }
        ensures value { result ≡ word_of self.old stream place }
        ensures seed { self.new ≡ self.old }
    {
        bring(&mut self.generator, stream, place);
        self.generator.next_word()
    }

    /// A number below n, from the two words at the place and after it.
    pub fn below(&mut self, stream: u64, place: u128, n: u64) -> u64
        requires { place + 1 < 2 ^ 68 }
        ensures value { result ≡ number_below self.old stream place n }
        ensures bound { 0 < n → result < n }
        ensures seed { self.new ≡ self.old }
    {
        let low = u128::from(self.word(stream, place));
        let high = u128::from(self.word(stream, place + 1));
        (((low + (high << 32)) * u128::from(n)) >> 64) as u64
    }

    /// The displacement in step k of the molecule with this serial and a difstep of s micros, where the
    /// first `dims` axes are in use.
    pub fn displace(&mut self, serial: u64, k: u32, s: u32, dims: u8) -> Step3
        ensures value { result ≡ displacement self.old serial k s dims }
        ensures even { EachAxis (λ axis. IsEven (on_axis result.0 axis)) }
        ensures size { IsWithin (12 * s + 2) result.0 }
        ensures seed { self.new ≡ self.old }
    {
        Step3([
            self.displace_on(serial, k, s, dims, 0),
            self.displace_on(serial, k, s, dims, 1),
            self.displace_on(serial, k, s, dims, 2),
        ])
    }

    // The displacement on an axis.
    fn displace_on(&mut self, serial: u64, k: u32, s: u32, dims: u8, axis: u8) -> i64
        ensures value { result ≡ displacement_on self.old serial k s dims axis }
        ensures even { IsEven result }
        ensures size { unsigned_abs result ≤ 12 * s + 2 }
        ensures seed { self.new ≡ self.old }
    {
        if axis >= dims {
            return 0;
        }
        let place = WORDS_A_STEP * u128::from(k) + WORDS_AN_AXIS * u128::from(axis);
        scale(centred_sum(&mut self.generator, serial, place), s)
    }
}

// The sum of the twelve draws of six words, less its mean.
fn centred_sum(generator: &mut ChaCha8Rng, stream: u64, place: u128) -> i64
    requires { place + 6 ≤ 2 ^ 68 }
    ensures value { result ≡ centred_sum generator.old.key stream place }
    ensures size { unsigned_abs result ≤ 393210 }
    ensures key { generator.new.key ≡ generator.old.key }
{
    bring(generator, stream, place);
    let mut sum = 0u32;
    for _ in 0..WORDS_AN_AXIS {
        sum += sum_of_draws(generator.next_word());
    }
    i64::from(sum) - MEAN
}

// The sum of a word's two draws, its low and its high half.
fn sum_of_draws(word: u32) -> u32
    ensures value { result ≡ sum (draws_of word) }
    ensures size { result ≤ 2 * 65535 }
{
    (word & 0xffff) + (word >> 16)
}

// Brings the generator to the place of the stream, unless it stands there. A generator that is set to
// the start of a block computes nothing until the next word, so a new stream costs one computation.
fn bring(generator: &mut ChaCha8Rng, stream: u64, place: u128)
    requires { place < 2 ^ 68 }
    ensures { generator.new ≡ moved generator.old stream place }
{
    if generator.get_stream() != stream {
        generator.set_word_pos(place - place % 16);
        generator.set_stream(stream);
    }
    if generator.get_word_pos() != place {
        generator.set_word_pos(place);
    }
}

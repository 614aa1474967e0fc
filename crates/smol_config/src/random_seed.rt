//! `random_seed N`: the seed of the random words.
ghost use Rattle.std.specs.Prelude.{◌≡◌};
ghost use Rattle.smol_config.specs.RandomSeed.{random_seed_in};

use smol_line::{count_in, once, spells, unless, word_at, word_count};
use smol_text::StatedLine;
use smol_types::Kind;

/// The seed that a line gives, where `given` is what a line before gives.
#[tactic(auto, unfolding(crate::specs::RandomSeed::random_seed_in))]
pub fn judge(given: Option<u64>, line: &StatedLine<'_>) -> Result<u64, Kind>
    ensures { result ≡ random_seed_in given line.now }
{
    once(&given)?;
    word_count(2, line)?;
    unless(!spells(word_at(line, 1), "time"), Kind::NotInProfile)?;
    count_in(0, u64::MAX, word_at(line, 1))
}

//! `max_mol N`: how many molecules there may be.
ghost use Rattle.std.specs.Prelude.{◌≡◌};
ghost use Rattle.smol_config.specs.MaxMol.{max_mol_in};

use smol_line::{count_in, once, word_at, word_count};
use smol_text::StatedLine;
use smol_types::Kind;

/// How large the limit may be.
const MOST_MOLECULES: u64 = 1_000_000;

/// The limit that a line gives, where `given` is what a line before gives.
#[tactic(auto, unfolding(crate::specs::MaxMol::max_mol_in))]
pub fn judge(given: Option<u32>, line: &StatedLine<'_>) -> Result<u32, Kind>
    ensures { result ≡ max_mol_in given line.now }
{
    once(&given)?;
    word_count(2, line)?;
    Ok(count_in(1, MOST_MOLECULES, word_at(line, 1))? as u32)
}

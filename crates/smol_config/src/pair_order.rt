//! `pair_order ORDER`: whether pairs of molecules react by their distances before their serials.
ghost use Rattle.std.specs.Prelude.{◌≡◌};
ghost use Rattle.smol_config.specs.PairOrder.{order_in, pair_order_in};

use smol_line::{once, spells, word_at, word_count};
use smol_text::StatedLine;
use smol_types::Kind;

/// Whether the nearest pairs come first by a line, where `given` is what a line before gives.
#[tactic(auto, unfolding(crate::specs::PairOrder::pair_order_in))]
pub fn judge(given: Option<bool>, line: &StatedLine<'_>) -> Result<bool, Kind>
    ensures { result ≡ pair_order_in given line.now }
{
    once(&given)?;
    word_count(2, line)?;
    order_in(word_at(line, 1))
}

// Whether the nearest come first by the word of an order.
fn order_in(word: &[u8]) -> Result<bool, Kind>
    ensures { result ≡ order_in word.now }
{
    if spells(word, "serial") {
        Ok(false)
    } else if spells(word, "nearest") {
        Ok(true)
    } else {
        Err(Kind::NotInProfile)
    }
}

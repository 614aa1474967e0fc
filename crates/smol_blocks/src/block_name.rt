//! The name of a block: a new word of the line that opens it.
ghost use Rattle.std.specs.Prelude.{◌≡◌, ◌<◌, false, length, Ok, Err, IfOk, MatchResult};
ghost use Rattle.smol_line.specs.Names.{is_named};
ghost use Rattle.smol_blocks.specs.BlockName.{block_name_in};

use smol_line::{Axes, NameSet, needs_dim, new_name_in, unless, word_at, word_count};
use smol_text::StatedLine;
use smol_types::Kind;

/// The name of the block that a line opens, beside these names of which there may be so many.
#[tactic(auto, unfolding(crate::specs::BlockName::block_name_in))]
pub fn block_name_in<'a>(
    axes: &Axes,
    names: &NameSet,
    most: usize,
    line: &StatedLine<'a>,
) -> Result<&'a str, Kind>
    ensures rule { MatchResult result
        (λ name. block_name_in axes.now names.now most line.now ≡ Ok name.now)
        (λ kind. block_name_in axes.now names.now most line.now ≡ Err kind) }
    ensures new { IfOk result (λ name. is_named names.now name.now ≡ false) }
    ensures room { IfOk result (λ _. length names.now < most) }
{
    needs_dim(axes)?;
    word_count(2, line)?;
    let name = new_name_in(names, word_at(line, 1))?;
    unless(names.len() < most, Kind::TooMany)?;
    Ok(name)
}

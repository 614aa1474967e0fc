//! `dim D`: the number of axes in use.
ghost use Rattle.std.specs.Prelude.{◌≡◌};
ghost use Rattle.smol_config.specs.Dim.{dim_in};

use smol_line::{Axes, count_in, once, word_at, word_count};
use smol_text::StatedLine;
use smol_types::Kind;

/// How many axes may be in use.
const MOST_AXES: u64 = 3;

/// The number of axes that a line gives, by what the lines before give.
#[tactic(auto, unfolding(crate::specs::Dim::dim_in))]
pub fn judge(axes: &Axes, line: &StatedLine<'_>) -> Result<u8, Kind>
    ensures { result ≡ dim_in axes.now line.now }
{
    once(&axes.dims)?;
    word_count(2, line)?;
    Ok(count_in(1, MOST_AXES, word_at(line, 1))? as u8)
}

//! Words of a line by how far they stand behind another one.
ghost use Rattle.std.specs.Prelude.{◌≡◌, ◌+◌, ◌≤◌, length};
ghost use Rattle.std.specs.Result.{result_err};
ghost use Rattle.smol_text.specs.Reading.{words_of};
ghost use Rattle.smol_line.specs.Words.{word_at};
ghost use Rattle.smol_line.specs.Checks.{word_count};

use smol_line::{unless, word_at};
use smol_text::StatedLine;
use smol_types::Kind;

/// The word of a line that stands so far behind a place, and no bytes where there is none.
pub fn word_behind<'a>(line: &StatedLine<'a>, at: usize, i: usize) -> &'a [u8]
    requires { at ≤ length (words_of line.now) }
    ensures { result.now ≡ word_at line.now (at + i) }
{
    if i < line.len() - at {
        word_at(line, at + i)
    } else {
        &[]
    }
}

/// A line has this many words from a place on.
pub fn words_from(count: usize, line: &StatedLine<'_>, at: usize) -> Result<(), Kind>
    requires { at ≤ length (words_of line.now) }
    ensures { result_err result ≡ word_count (at + count) line.now }
{
    unless(line.len() - at == count, Kind::WrongWordCount)
}

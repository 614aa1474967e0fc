//! Tests that several statements share.
ghost use Rattle.std.specs.Prelude.{◌≡◌, true, OnOk};
ghost use Rattle.std.specs.Result.{result_err};
ghost use Rattle.smol_line.specs.Checks.{once, unless, word_count};

use smol_text::StatedLine;
use smol_types::Kind;

/// A fault, unless the condition holds.
pub fn unless(condition: bool, kind: Kind) -> Result<(), Kind>
    ensures fault { result_err result ≡ unless condition kind }
    ensures holds { OnOk result (condition ≡ true) }
{
    if condition { Ok(()) } else { Err(kind) }
}

/// A statement that stands once at most, by what the lines before give.
pub fn once<T: Drop>(given: &Option<T>) -> Result<(), Kind>
    ensures { result_err result ≡ once given.now }
{
    match given {
        None => Ok(()),
        Some(_) => Err(Kind::RepeatedStatement),
    }
}

/// A line has this many words, its first one included.
pub fn word_count(count: usize, line: &StatedLine<'_>) -> Result<(), Kind>
    ensures { result_err result ≡ word_count count line.now }
{
    unless(line.len() == count, Kind::WrongWordCount)
}

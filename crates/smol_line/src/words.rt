//! Words of a line.
ghost use Rattle.std.specs.Prelude.{◌≡◌};
ghost use Rattle.std.specs.Str.{bytes_eq};
ghost use Rattle.smol_line.specs.Words.{word_at};

use smol_text::StatedLine;

/// Word i of a line, counted from 0, and no bytes where there is none.
pub fn word_at<'a>(line: &StatedLine<'a>, i: usize) -> &'a [u8]
    ensures { result.now ≡ word_at line.now i }
{
    if i < line.len() { line.word(i) } else { &[] }
}

/// Whether a word is this text.
pub fn spells(word: &[u8], text: &str) -> bool
    ensures { result ≡ bytes_eq word.now text.now }
{
    word == text.as_bytes()
}

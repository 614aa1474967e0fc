//! A text that is split into the lines that make statements.
ghost use Rattle.std.specs.Prelude.{◌≡◌, ◌+◌, ◌<◌, ◌∷◌, ◌==◌, All, IfSome, length, drop, slice_get, slice_index_or, []};
ghost use Rattle.smol_text.specs.Lines.{IsWord};
ghost use Rattle.smol_text.specs.Reading.{statements_of, words_of};
ghost use Rattle.smol_text.specs.Spans.{AllSpelled, IsSpelled, lines_of, stated_at, stated_lines};

use crate::line::Line;
use crate::stated_line::StatedLine;
use std::marker::Model;

/// A text and its lines that make statements. Contracts see its bytes and the list of these lines, where a
/// line has a number, the place of its part before the comment, and the places of its words.
#[derive(Drop)]
pub struct Text {
    bytes: Vec<u8>,
    lines: Vec<Line>,
}

impl Model for Text {
    ghost use Rattle.std.specs.Prelude.{◌≡◌, IsTrue, is_ok};
    ghost use Rattle.smol_text.specs.Reading.{statements_of};
    ghost use Rattle.smol_text.specs.Spans.{LinedText, lines_of};

    ghost Value = { LinedText };

    ghost view = { λ text. record { bytes = text.bytes.items; lines = text.lines.items } };

    ghost invariant = { λ text. (text.lines.items ≡ lines_of text.bytes.items) × IsTrue (is_ok (statements_of text.bytes.items)) };
}

impl Text {
    ghost use Rattle.std.specs.Prelude.{IsTrue, is_ok};

    /// The bytes with their lines. Takes no memory.
    pub(crate) fn new(bytes: Vec<u8>, lines: Vec<Line>) -> Text
        requires lines { lines.items ≡ lines_of bytes.items }
        requires accepted { IsTrue (is_ok (statements_of bytes.items)) }
        ensures bytes { result.bytes ≡ bytes.items }
        ensures lines { result.lines ≡ lines.items }
    {
        Text { bytes, lines }
    }

    /// The text itself, every byte of it.
    pub fn bytes(&self) -> &[u8]
        ensures { result.now ≡ self.now.bytes }
    {
        self.bytes.as_slice()
    }

    /// Its lines that make statements.
    pub fn lines(&self) -> &[Line]
        ensures lines { result.now ≡ self.now.lines }
        ensures of_bytes { self.now.lines ≡ lines_of self.now.bytes }
        ensures statements { statements_of self.now.bytes ≡ Ok (stated_lines self.now) }
        ensures spelled { AllSpelled self.now }
    {
        self.lines.as_slice()
    }

    /// How many lines make a statement.
    pub fn len(&self) -> usize
        ensures { result ≡ length (stated_lines self.now) }
    {
        self.lines.len()
    }

    pub fn is_empty(&self) -> bool
        ensures { result ≡ (length (stated_lines self.now) == 0) }
    {
        self.lines.is_empty()
    }

    /// The statement at an index. With it the statements from there on are it and those from the next on.
    pub fn line(&self, index: usize) -> StatedLine<'_>
        requires { index < length (stated_lines self.now) }
        ensures value { slice_get (stated_lines self.now) index ≡ Some result }
        ensures is_next { drop index (stated_lines self.now) ≡ result ∷ drop (index + 1) (stated_lines self.now) }
        ensures seen { All IsWord (words_of result) }
    {
        let line = self.spelled(index);
        let bytes = self.bytes();
        let part = &bytes[line.part.start as usize..line.part.end as usize];
        StatedLine::new(line.number, part, bytes, line.words.as_slice())
    }

    /// Where the statement at an index stands.
    fn spelled(&self, index: usize) -> &Line
        requires { index < length (stated_lines self.now) }
        ensures value { slice_get (stated_lines self.now) index ≡ Some (stated_at self.now.bytes result.now) }
        ensures spelled { IsSpelled self.now.bytes result.now }
        ensures statements { statements_of self.now.bytes ≡ Ok (stated_lines self.now) }
    {
        &self.lines()[index]
    }

    /// The word at an index of the statement at an index.
    pub fn word(&self, line: usize, i: usize) -> &[u8]
        requires line { line < length (stated_lines self.now) }
        requires word { IfSome (slice_get (stated_lines self.now) line) (λ line. i < length (words_of line)) }
        ensures { IfSome (slice_get (stated_lines self.now) line) (λ line. result.now ≡ slice_index_or (words_of line) i []) }
    {
        self.line(line).word(i)
    }
}

//! One line of a text that makes a statement.
ghost use Rattle.std.specs.Prelude.{◌≡◌, ◌==◌, ◌<◌, length, slice_index_or, []};

use crate::line::Span;
use std::marker::Model;

/// A line that makes a statement: its number, from 1, its part before the comment, and its words. Contracts see
/// the number and the part, of which the words are a function.
#[derive(Drop)]
pub struct StatedLine<'a> {
    number: u32,
    part: &'a [u8],
    bytes: &'a [u8],
    spans: &'a [Span],
}

impl<'a> Model for StatedLine<'a> {
    ghost use Rattle.std.specs.Prelude.{◌≡◌, map};
    ghost use Rattle.smol_text.specs.Lines.{words_in};
    ghost use Rattle.smol_text.specs.Reading.{Stated};
    ghost use Rattle.smol_text.specs.Spans.{slice_of, AllWithin};

    ghost Value = { Stated };

    ghost view = { λ line. record { number = line.number; part = line.part.now } };

    ghost invariant = { λ line. AllWithin line.bytes.now line.spans.now
        × (map (slice_of line.bytes.now) line.spans.now ≡ words_in line.part.now) };
}

impl<'a> StatedLine<'a> {
    ghost use Rattle.std.specs.Prelude.{map};
    ghost use Rattle.smol_text.specs.Lines.{words_in};
    ghost use Rattle.smol_text.specs.Reading.{words_of};
    ghost use Rattle.smol_text.specs.Spans.{slice_of, AllWithin};

    /// The line of this number and part, whose words stand at these places among the bytes.
    pub(crate) fn new(
        number: u32,
        part: &'a [u8],
        bytes: &'a [u8],
        spans: &'a [Span],
    ) -> StatedLine<'a>
        requires within { AllWithin bytes.now spans.now }
        requires words { map (slice_of bytes.now) spans.now ≡ words_in part.now }
        ensures number { result.number ≡ number }
        ensures part { result.part ≡ part.now }
    {
        StatedLine {
            number,
            part,
            bytes,
            spans,
        }
    }

    /// The line's number in its text.
    pub fn number(&self) -> u32
        ensures { result ≡ self.now.number }
    {
        self.number
    }

    /// What stands before the comment, with all blanks and tabs.
    pub fn part(&self) -> &'a [u8]
        ensures { result.now ≡ self.now.part }
    {
        self.part
    }

    /// How many words the line has.
    pub fn len(&self) -> usize
        ensures { result ≡ length (words_of self.now) }
    {
        self.spans.len()
    }

    pub fn is_empty(&self) -> bool
        ensures { result ≡ (length (words_of self.now) == 0) }
    {
        self.spans.is_empty()
    }

    /// The word at an index.
    pub fn word(&self, i: usize) -> &'a [u8]
        requires { i < length (words_of self.now) }
        ensures { result.now ≡ slice_index_or (words_of self.now) i [] }
    {
        let spans = self.spans;
        let span = spans[i];
        &self.bytes[span.start as usize..span.end as usize]
    }
}

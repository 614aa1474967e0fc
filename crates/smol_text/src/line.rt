//! A line of a text, and where its words stand.
ghost use Rattle.std.specs.Prelude.{◌≡◌, ◌==◌, length};

use std::marker::Model;

/// Places in a text: from the byte `start` on to before the byte `end`.
#[derive(Clone, Copy, Debug, PartialEq, Eq)]
pub struct Span {
    pub start: u32,
    pub end: u32,
}

/// The words of a line, as places in its text, in their order. Contracts see the list.
#[derive(Debug, Drop)]
pub struct Words {
    spans: Vec<Span>,
}

impl Model for Words {
    ghost use Rattle.std.specs.Prelude.{List};
    ghost use Rattle.smol_text.specs.declared.line.Span.{Span};

    ghost Value = { List Span };

    ghost view = { λ words. words.spans.items };
}

impl Words {
    pub fn as_slice(&self) -> &[Span]
        ensures { result.now ≡ self.now }
    {
        self.spans.as_slice()
    }

    pub fn len(&self) -> usize
        ensures { result ≡ length self.now }
    {
        self.spans.len()
    }

    pub fn is_empty(&self) -> bool
        ensures { result ≡ (length self.now == 0) }
    {
        self.spans.is_empty()
    }
}

impl From<Vec<Span>> for Words {
    ghost from_gives = { λ spans words. words ≡ spans.items };

    fn from(spans: Vec<Span>) -> Words {
        Words { spans }
    }
}

impl From<Words> for Vec<Span> {
    ghost from_gives = { λ words spans. spans.items ≡ words };

    fn from(words: Words) -> Vec<Span> {
        words.spans
    }
}

/// A line of a text. Lines are numbered from 1.
#[derive(Debug, Drop)]
pub struct Line {
    pub number: u32,
    /// Its part before the comment.
    pub part: Span,
    pub words: Words,
}

//! In which state a line of a text is reached.

/// How a line is reached: open to be read, in a block comment, or behind the end of the text.
#[derive(Clone, Copy)]
pub enum LineState {
    /// The line is read, unless it opens a comment or ends the text itself.
    Open,
    /// In the block comment that the line of this number opened.
    Commented { line: u32 },
    /// Behind the line that ended the text.
    Ended,
}

impl LineState {
    ghost use Rattle.std.specs.Prelude.{◌≡◌};
    ghost use Rattle.smol_text.specs.Reading.{is_open, is_ended, standing_after};
    ghost use Rattle.smol_text.specs.declared.line_state.LineState.TheVariants.{Open, Commented};

    pub fn is_open(self) -> bool
        ensures { result ≡ is_open self }
    {
        match self {
            LineState::Open => true,
            LineState::Commented { .. } | LineState::Ended => false,
        }
    }

    pub fn is_ended(self) -> bool
        ensures { result ≡ is_ended self }
    {
        match self {
            LineState::Ended => true,
            LineState::Open | LineState::Commented { .. } => false,
        }
    }

    /// How the line behind the line of this number stands, by the first word of that line.
    pub fn after(self, number: u32, word: &[u8]) -> LineState
        ensures { result ≡ standing_after number self word.now }
    {
        match self {
            LineState::Open => LineState::after_open(number, word),
            LineState::Commented { line } => LineState::after_commented(line, word),
            LineState::Ended => LineState::Ended,
        }
    }

    /// `/*` opens a block comment, and `end_file` ends the text.
    fn after_open(number: u32, word: &[u8]) -> LineState
        ensures { result ≡ standing_after number Open word.now }
    {
        if word == b"/*".as_slice() {
            LineState::Commented { line: number }
        } else if word == b"end_file".as_slice() {
            LineState::Ended
        } else {
            LineState::Open
        }
    }

    /// `*/` closes the block comment that the line of this number opened.
    fn after_commented(line: u32, word: &[u8]) -> LineState
        ensures { result ≡ standing_after 0 (Commented line) word.now }
    {
        if word == b"*/".as_slice() {
            LineState::Open
        } else {
            LineState::Commented { line }
        }
    }
}

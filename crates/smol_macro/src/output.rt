//! What has been given of the expanded text.
ghost use Rattle.std.specs.Prelude.{◌≡◌, ◌<◌, ◌≤◌, length, OnOk, IfErr};
ghost use Rattle.smol_macro.specs.Refusal.{RefusesLine};
ghost use Rattle.smol_macro.specs.Given.{feed_before, nothing_given, with_line};

use crate::expand_fault::{ExpandFault, MacroKind};
use std::alloc::Global;
use std::marker::Model;

/// The most bytes that the text may have.
const MOST_BYTES: usize = 4_194_304;

/// The text of the lines given so far, and how many they are.
#[derive(Drop)]
pub(crate) struct Output {
    bytes: Vec<u8>,
    lines: u32,
}

impl Model for Output {
    ghost use Rattle.std.specs.Prelude.{◌≤◌, length};
    ghost use Rattle.smol_macro.specs.Given.{Given};

    ghost Value = { Given };

    ghost view = { λ output. record { text = output.bytes.items; lines = output.lines } };

    ghost invariant = { λ output. (length output.bytes.items ≤ 4194304) × (output.lines ≤ 65536) };
}

/// What stands between a line and these many lines before it.
fn feed_before(lines: u32) -> &'static [u8]
    ensures { result.now ≡ feed_before lines }
{
    if lines == 0 { b"" } else { b"\n" }
}

impl Output {
    /// No line yet, which takes no memory.
    pub(crate) fn new(alloc: Global) -> Output
        ensures { result ≡ nothing_given }
    {
        Output {
            bytes: Vec::new(alloc),
            lines: 0,
        }
    }

    /// How many lines have been given.
    pub(crate) fn lines(&self) -> u32
        ensures lines { result ≡ self.now.lines }
        ensures few { result ≤ 65536 }
    {
        self.lines
    }

    /// Gives one more line, with a line feed between it and the one before it.
    pub(crate) fn give(&mut self, line: &[u8]) -> Result<(), ExpandFault>
        requires { self.old.lines < 65536 }
        ensures given { OnOk result (with_line self.old line.now ≡ Ok self.new) }
        ensures refused { IfErr result (λ fault. RefusesLine fault (with_line self.old line.now)) }
    {
        let feed = feed_before(self.lines);
        if self.bytes.len() + feed.len() + line.len() > MOST_BYTES {
            return Err(ExpandFault::At {
                line: 0,
                kind: MacroKind::TooLong,
            });
        }
        self.bytes.extend_from_slice(feed)?;
        self.bytes.extend_from_slice(line)?;
        self.lines += 1;
        Ok(())
    }

    /// The text of all lines.
    pub(crate) fn into_bytes(self) -> Vec<u8>
        ensures { result.items ≡ self.text }
    {
        self.bytes
    }
}

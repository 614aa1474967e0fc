//! The conditions that are open at a line.
ghost use Rattle.std.specs.Prelude.{◌≡◌, [], ◌∷◌, false, OnOk, OnErr, IfErr};
ghost use Rattle.smol_text.specs.Lines.{words_in};
ghost use Rattle.smol_macro.specs.Refusal.{RefusesLine};
ghost use Rattle.smol_macro.specs.Conditions.{conditions_of, left_out, turned_by, closed_by, outermost};
ghost use Rattle.smol_macro.specs.Kept.{HasWords};

use crate::expand_fault::{ExpandFault, MacroKind};
use crate::words::split_word;
use std::alloc::Global;

/// A condition: the line that opened it, whether that line is left out itself, whether it holds, and whether
/// `else` has turned it.
#[derive(Clone, Copy)]
pub(crate) struct Condition {
    pub line: u32,
    pub outside: bool,
    pub holds: bool,
    pub turned: bool,
}

/// The conditions that are open: the innermost one, and those around it, outermost first.
#[derive(Drop)]
pub(crate) struct Conditions {
    pub outer: Vec<Condition>,
    pub innermost: Option<Condition>,
}

impl Conditions {
    /// None is open, which takes no memory.
    pub(crate) fn new(alloc: Global) -> Conditions
        ensures { conditions_of result ≡ [] }
    {
        Conditions {
            outer: Vec::new(alloc),
            innermost: None,
        }
    }

    /// Whether a line is left out.
    pub(crate) fn left_out(&self) -> bool
        ensures { result ≡ left_out (conditions_of self.now) }
    {
        match self.innermost {
            None => false,
            Some(condition) => !condition.holds || condition.outside,
        }
    }

    /// Opens a condition inside those that are open.
    pub(crate) fn open(&mut self, line: u32, holds: bool) -> Result<(), ExpandFault>
        ensures opened { OnOk result (conditions_of self.new ≡ (record { line = line; outside = left_out (conditions_of self.old); holds = holds; turned = false }) ∷ conditions_of self.old) }
        ensures memory { IfErr result (λ fault. fault ≡ ExpandFault.OutOfMemory) }
    {
        let outside = self.left_out();
        match self.innermost {
            None => self.outer.clear(),
            Some(condition) => self.outer.push(condition)?,
        }
        self.innermost = Some(Condition {
            line,
            outside,
            holds,
            turned: false,
        });
        Ok(())
    }

    /// What the `else` of this number does, by its words behind the first one.
    pub(crate) fn turn(&mut self, number: u32, words: &[u8]) -> Result<(), ExpandFault>
        ensures turned { OnOk result (turned_by number (conditions_of self.old) (words_in words.now) ≡ Ok (conditions_of self.new)) }
        ensures refused { IfErr result (λ fault. RefusesLine fault (turned_by number (conditions_of self.old) (words_in words.now))) }
    {
        let Some(condition) = self.innermost else {
            return Err(bad_order(number));
        };
        if condition.turned {
            return Err(bad_order(number));
        }
        no_words(number, words)?;
        self.innermost = Some(Condition {
            line: condition.line,
            outside: condition.outside,
            holds: !condition.holds,
            turned: true,
        });
        Ok(())
    }

    /// What the `endif` of this number does, by its words behind the first one.
    pub(crate) fn close(&mut self, number: u32, words: &[u8]) -> Result<(), ExpandFault>
        ensures closed { OnOk result (closed_by number (conditions_of self.old) (words_in words.now) ≡ Ok (conditions_of self.new)) }
        ensures refused { IfErr result (λ fault. RefusesLine fault (closed_by number (conditions_of self.old) (words_in words.now))) }
    {
        if self.innermost.is_none() {
            return Err(bad_order(number));
        }
        no_words(number, words)?;
        self.innermost = self.outer.pop();
        Ok(())
    }

    /// The line that opened the outermost condition, if one is open.
    pub(crate) fn outermost(&self) -> Option<u32>
        ensures { result ≡ outermost (conditions_of self.now) }
    {
        match self.innermost {
            None => None,
            Some(condition) => match self.outer.first() {
                None => Some(condition.line),
                Some(outer) => Some(outer.line),
            },
        }
    }
}

/// The refusal of a line that stands out of place.
fn bad_order(number: u32) -> ExpandFault
    ensures { result ≡ ExpandFault.At number MacroKind.BadOrder }
{
    ExpandFault::At {
        line: number,
        kind: MacroKind::BadOrder,
    }
}

/// There are no words.
fn no_words(number: u32, words: &[u8]) -> Result<(), ExpandFault>
    ensures none { OnOk result (words_in words.now ≡ []) }
    ensures some { IfErr result (λ fault. fault ≡ ExpandFault.At number MacroKind.WrongWordCount) }
    ensures not_none { OnErr result (HasWords (words_in words.now)) }
{
    match split_word(words) {
        None => Ok(()),
        Some(_) => Err(ExpandFault::At {
            line: number,
            kind: MacroKind::WrongWordCount,
        }),
    }
}

//! What the lines of a file have come to, and what one more line does.
ghost use Rattle.std.specs.Prelude.{◌≡◌, ◌+◌, ◌<◌, [], if◌then◌else◌, option_map, OnOk, IfOk, IfErr, IfSome};
ghost use Rattle.smol_text.specs.Lines.{words_in};
ghost use Rattle.smol_macro.specs.Refusal.{RefusesLine};
ghost use Rattle.smol_macro.specs.Walking.{walked_of, taken_of};
ghost use Rattle.smol_macro.specs.Conditions.{conditions_of, opened_by, tests};
ghost use Rattle.smol_macro.specs.Expanding.{gives, obeyed, obeyed_word, said_or_left_out, file_words, line_taken, nothing_walked};

use crate::conditions::Conditions;
use crate::definitions::Definitions;
use crate::expand_fault::{ExpandFault, MacroKind};
use crate::files::Files;
use crate::output::Output;
use crate::replace::replace_names;
use crate::words::{only_word, split_word};
use smol_text::are_allowed;
use std::alloc::Global;
use std::mem;

/// The most lines that may be given.
const MOST_LINES: u32 = 65_536;

/// What has been given, which names are defined, and which conditions are open.
#[derive(Drop)]
pub(crate) struct Walk {
    pub output: Output,
    pub definitions: Definitions,
    pub conditions: Conditions,
}

/// A line without words, unless it is left out.
fn unless_left_out(left_out: bool, part: &[u8]) -> &[u8]
    ensures { result.now ≡ (if left_out then [] else part.now) }
{
    if left_out { &[] } else { part }
}

impl Walk {
    /// Nothing yet, which takes no memory.
    pub(crate) fn new(alloc: Global) -> Walk
        ensures { walked_of result ≡ nothing_walked }
    {
        Walk {
            output: Output::new(alloc),
            definitions: Definitions::new(alloc),
            conditions: Conditions::new(alloc),
        }
    }

    /// Gives a line.
    pub(crate) fn give(&mut self, line: &[u8]) -> Result<(), ExpandFault>
        requires { self.old.output.lines < 65536 }
        ensures given { OnOk result (gives (walked_of self.old).given (walked_of self.old).defined (walked_of self.old).open_ones line.now ≡ Ok (walked_of self.new)) }
        ensures refused { IfErr result (λ fault. RefusesLine fault (gives (walked_of self.old).given (walked_of self.old).defined (walked_of self.old).open_ones line.now)) }
    {
        self.output.give(line)
    }

    /// Gives what is read of a line, or does what it asks for, where it is allowed. The answer is the name of the file that it
    /// asks for, which isn't being read.
    pub(crate) fn take<'a>(
        &mut self,
        alloc: Global,
        files: &Files,
        part: &'a [u8],
    ) -> Result<Option<&'a str>, ExpandFault>
        ensures taken { IfOk result (λ name. line_taken files.now.names part.now (walked_of self.old) ≡ Ok (taken_of (option_map (λ name. name.now) name) (walked_of self.new))) }
        ensures asked { IfOk result (λ name. IfSome name (λ _. self.new ≡ self.old)) }
        ensures one_more { IfOk result (λ name. IfSome name (λ _. self.new.output.lines < 65536)) }
        ensures refused { IfErr result (λ fault. RefusesLine fault (line_taken files.now.names part.now (walked_of self.old))) }
    {
        let number = self.output.lines() + 1;
        if number > MOST_LINES {
            return Err(ExpandFault::At {
                line: number,
                kind: MacroKind::TooMany,
            });
        }
        if !are_allowed(part) {
            return Err(ExpandFault::At {
                line: number,
                kind: MacroKind::BadByte,
            });
        }
        match self.file_words(part) {
            None => {
                self.obey(alloc, number, part)?;
                Ok(None)
            }
            Some(words) => Ok(Some(files.named(number, words)?)),
        }
    }

    /// The words behind `read_file`, where no condition leaves that out.
    fn file_words<'a>(&self, part: &'a [u8]) -> Option<&'a [u8]>
        ensures { option_map (λ words. words_in words.now) result ≡ file_words (walked_of self.now) (words_in part.now) }
    {
        let (word, words) = split_word(part)?;
        if !self.conditions.left_out() && word == b"read_file".as_slice() {
            Some(words)
        } else {
            None
        }
    }

    /// Before the lines of a file that is asked for none of its conditions is open. Those that are open are handed out.
    pub(crate) fn enter(&mut self, alloc: Global) -> Conditions
        ensures entered { walked_of self.new ≡ (record { given = (walked_of self.old).given; defined = (walked_of self.old).defined; open_ones = [] }) }
        ensures around { conditions_of result ≡ (walked_of self.old).open_ones }
    {
        mem::replace(&mut self.conditions, Conditions::new(alloc))
    }

    /// Behind the lines of a file these conditions are open again.
    pub(crate) fn leave(&mut self, around: Conditions)
        ensures { walked_of self.new ≡ (record { given = (walked_of self.old).given; defined = (walked_of self.old).defined; open_ones = conditions_of around }) }
    {
        self.conditions = around;
    }

    /// Does what a line asks for.
    fn obey(&mut self, alloc: Global, number: u32, part: &[u8]) -> Result<(), ExpandFault>
        requires { self.old.output.lines < 65536 }
        ensures obeyed { OnOk result (obeyed number (walked_of self.old) part.now (words_in part.now) ≡ Ok (walked_of self.new)) }
        ensures refused { IfErr result (λ fault. RefusesLine fault (obeyed number (walked_of self.old) part.now (words_in part.now))) }
    {
        let Some((word, rest)) = split_word(part) else {
            let left_out = self.conditions.left_out();
            return self.give(unless_left_out(left_out, part));
        };
        self.obey_word(alloc, number, part, word, rest)
    }

    /// Does what a line asks for by its first word, where that is a directive of conditions.
    fn obey_word(
        &mut self,
        alloc: Global,
        number: u32,
        part: &[u8],
        word: &[u8],
        rest: &[u8],
    ) -> Result<(), ExpandFault>
        requires { self.old.output.lines < 65536 }
        ensures obeyed { OnOk result (obeyed_word number (walked_of self.old) part.now word.now (words_in rest.now) ≡ Ok (walked_of self.new)) }
        ensures refused { IfErr result (λ fault. RefusesLine fault (obeyed_word number (walked_of self.old) part.now word.now (words_in rest.now))) }
    {
        if word == b"ifdefine".as_slice() {
            self.open(number, rest, true)?;
            self.give(&[])
        } else if word == b"ifundefine".as_slice() {
            self.open(number, rest, false)?;
            self.give(&[])
        } else if word == b"else".as_slice() {
            self.conditions.turn(number, rest)?;
            self.give(&[])
        } else if word == b"endif".as_slice() {
            self.conditions.close(number, rest)?;
            self.give(&[])
        } else {
            self.say_or_leave_out(alloc, number, part, word, rest)
        }
    }

    /// Opens a condition that holds where a name is defined, or where it isn't.
    fn open(&mut self, number: u32, words: &[u8], if_defined: bool) -> Result<(), ExpandFault>
        ensures opened { OnOk result (opened_by number (tests if_defined (walked_of self.old).defined) (walked_of self.old).open_ones (words_in words.now) ≡ Ok (walked_of self.new).open_ones) }
        ensures given { OnOk result (self.new.output ≡ self.old.output) }
        ensures defined { OnOk result ((walked_of self.new).defined ≡ (walked_of self.old).defined) }
        ensures refused { IfErr result (λ fault. RefusesLine fault (opened_by number (tests if_defined (walked_of self.old).defined) (walked_of self.old).open_ones (words_in words.now))) }
    {
        let Some(name) = only_word(words) else {
            return Err(ExpandFault::At {
                line: number,
                kind: MacroKind::WrongWordCount,
            });
        };
        let holds = self.definitions.meaning(name).is_some() == if_defined;
        self.conditions.open(number, holds)
    }

    /// Says what a line says, or leaves it out.
    fn say_or_leave_out(
        &mut self,
        alloc: Global,
        number: u32,
        part: &[u8],
        word: &[u8],
        rest: &[u8],
    ) -> Result<(), ExpandFault>
        requires { self.old.output.lines < 65536 }
        ensures said { OnOk result (said_or_left_out number (walked_of self.old) part.now word.now (words_in rest.now) ≡ Ok (walked_of self.new)) }
        ensures refused { IfErr result (λ fault. RefusesLine fault (said_or_left_out number (walked_of self.old) part.now word.now (words_in rest.now))) }
    {
        if self.conditions.left_out() {
            self.give(&[])
        } else if word == b"define".as_slice() {
            self.definitions.define(alloc, number, rest)?;
            self.give(&[])
        } else if word == b"undefine".as_slice() {
            self.definitions.undefine(alloc, number, rest)?;
            self.give(&[])
        } else {
            let line = replace_names(alloc, &self.definitions, part)?;
            self.give(&line)
        }
    }
}

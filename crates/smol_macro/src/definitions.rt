//! The definitions of names.
ghost use Rattle.std.specs.Prelude.{◌≡◌, ◌∷◌, None, Some, option_map, OnOk, OnErr, IfErr};
ghost use Rattle.smol_text.specs.Lines.{words_in};
ghost use Rattle.smol_macro.specs.Refusal.{RefusesLine};
ghost use Rattle.smol_macro.specs.Kept.{meanings_of};
ghost use Rattle.smol_macro.specs.Meanings.{nothing_defined, with_meaning, defined_as, defined_by, undefined_by};

use crate::expand_fault::{ExpandFault, MacroKind};
use crate::words::{join_words, only_word, split_word};
use indexmap::IndexMap;
use smol_line::name_in;
use std::alloc::Global;

/// What names stand for, each found quickly. A name that is no longer
/// defined stays with no meaning.
#[derive(Drop)]
pub(crate) struct Definitions {
    meanings: IndexMap<Vec<u8>, Option<Vec<u8>>>,
}

impl Definitions {
    /// None yet, which takes no memory.
    pub(crate) fn new(alloc: Global) -> Definitions
        ensures { meanings_of result ≡ nothing_defined }
    {
        Definitions {
            meanings: IndexMap::new(alloc),
        }
    }

    /// What a name stands for, where it is defined.
    pub(crate) fn meaning(&self, name: &[u8]) -> Option<&[u8]>
        ensures { option_map (λ meaning. meaning.now) result ≡ meanings_of self.now name.now }
    {
        match self.meanings.get(name) {
            Some(Some(meaning)) => Some(meaning.as_slice()),
            _ => None,
        }
    }

    /// From now on a name stands for this, or for nothing any more.
    fn put(
        &mut self,
        alloc: Global,
        name: &[u8],
        meaning: Option<Vec<u8>>,
    ) -> Result<(), ExpandFault>
        ensures put { OnOk result (meanings_of self.new ≡ with_meaning (meanings_of self.old) name.now (option_map (λ meaning. meaning.items) meaning)) }
        ensures memory { IfErr result (λ fault. fault ≡ ExpandFault.OutOfMemory) }
    {
        let name = Vec::from_slice(alloc, name)?;
        self.meanings.insert(name, meaning)?;
        Ok(())
    }

    /// What the line of this number defines, by its words behind `define`.
    pub(crate) fn define(
        &mut self,
        alloc: Global,
        number: u32,
        words: &[u8],
    ) -> Result<(), ExpandFault>
        ensures defined { OnOk result (defined_by number (meanings_of self.old) (words_in words.now) ≡ Ok (meanings_of self.new)) }
        ensures refused { IfErr result (λ fault. RefusesLine fault (defined_by number (meanings_of self.old) (words_in words.now))) }
    {
        let Some((name, rest)) = split_word(words) else {
            return Err(ExpandFault::At {
                line: number,
                kind: MacroKind::WrongWordCount,
            });
        };
        self.define_name(alloc, number, name, rest)
    }

    /// The name that the line of this number defines stands for the words behind it.
    fn define_name(
        &mut self,
        alloc: Global,
        number: u32,
        name: &[u8],
        rest: &[u8],
    ) -> Result<(), ExpandFault>
        ensures defined { OnOk result (defined_as number (meanings_of self.old) name.now (words_in rest.now) ≡ Ok (meanings_of self.new)) }
        ensures refused { IfErr result (λ fault. RefusesLine fault (defined_as number (meanings_of self.old) name.now (words_in rest.now))) }
    {
        if name_in(name).is_none() {
            return Err(ExpandFault::At {
                line: number,
                kind: MacroKind::NotInProfile,
            });
        }
        if self.meaning(name).is_some() {
            return Err(ExpandFault::At {
                line: number,
                kind: MacroKind::RepeatedName,
            });
        }
        let meaning = join_words(alloc, rest)?;
        self.put(alloc, name, Some(meaning))
    }

    /// What the line of this number takes back, by its words behind `undefine`.
    pub(crate) fn undefine(
        &mut self,
        alloc: Global,
        number: u32,
        words: &[u8],
    ) -> Result<(), ExpandFault>
        ensures undefined { OnOk result (undefined_by number (meanings_of self.old) (words_in words.now) ≡ Ok (meanings_of self.new)) }
        ensures refused { IfErr result (λ fault. RefusesLine fault (undefined_by number (meanings_of self.old) (words_in words.now))) }
    {
        let Some(name) = only_word(words) else {
            return Err(ExpandFault::At {
                line: number,
                kind: MacroKind::WrongWordCount,
            });
        };
        if self.meaning(name).is_none() {
            return Err(ExpandFault::At {
                line: number,
                kind: MacroKind::UnknownName,
            });
        }
        self.put(alloc, name, None)
    }
}

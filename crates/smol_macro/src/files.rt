//! The files that are read for a text.
ghost use Rattle.std.specs.Prelude.{◌≡◌, ◌+◌, ◌-◌, ◌≤◌, ◌∷◌, ◌++◌, [], All, length, map, take, string_bytes, OnOk, IfOk, IfErr, IsErrOf};
ghost use Rattle.smol_edge.specs.Faults.{Rose, Tells};
ghost use Rattle.std.specs.Str.{IsAscii};
ghost use Rattle.smol_text.specs.Lines.{words_in};
ghost use Rattle.smol_macro.specs.Refusal.{RefusesLine, UnlessReadFault};
ghost use Rattle.smol_macro.specs.Files.{ReadsFile, added_to, bytes_of};
ghost use Rattle.smol_macro.specs.Expanding.{is_among, file_named};

use crate::expand_fault::{ExpandFault, MacroKind};
use crate::file::read_file;
use crate::words::only_word;
use smol_edge::Source;
use std::alloc::Global;
use std::marker::Model;

/// The most bytes that all files may have together.
const MOST_BYTES: usize = 16_777_216;

/// The names of the files that are being read, and how many bytes all files have that were read so far.
#[derive(Drop)]
pub(crate) struct Files {
    names: Vec<String>,
    size: usize,
}

impl Model for Files {
    ghost use Rattle.std.specs.Prelude.{◌≤◌, map, string_bytes};
    ghost use Rattle.smol_macro.specs.Files.{BeingRead};

    ghost Value = { BeingRead };

    ghost view = { λ files. record { names = map string_bytes files.names.items; size = files.size } };

    ghost invariant = { λ files. files.size ≤ 16777216 };
}

/// Whether a name is among these.
fn is_among(names: &[String], name: &str) -> bool
    ensures { result ≡ is_among (map string_bytes names.now) name.now }
{
    for other in names {
        if other.as_str() == name {
            return true;
        }
    }
    false
}

impl Files {
    /// None yet, which takes no memory.
    pub(crate) fn new(alloc: Global) -> Files
        ensures { result ≡ (record { names = []; size = 0 }) }
    {
        Files {
            names: Vec::new(alloc),
            size: 0,
        }
    }

    /// Opens the file of this name and takes all its bytes. From now on it is being read.
    pub(crate) fn enter<S: Source>(
        &mut self,
        alloc: Global,
        source: &mut S,
        name: &str,
    ) -> Result<Vec<u8>, ExpandFault>
        ensures read { Tells (S.told source.old) (S.told source.new) (ReadsFile name.now (λ contents. bytes_of contents name.now self.old.size) result) }
        ensures names { OnOk result (self.new.names ≡ self.old.names ++ name.now ∷ []) }
        ensures size { IfOk result (λ bytes. self.new.size ≡ self.old.size + length bytes.items) }
        ensures faults_stay { S.faults source.old ≤ S.faults source.new }
        ensures cause { IsErrOf result ExpandFault.ReadFault → Rose (S.faults source.old) (S.faults source.new) }
        ensures no_fault { UnlessReadFault result (S.faults source.new ≡ S.faults source.old) }
    {
        let bytes = read_file(alloc, source, name)?;
        self.add(alloc, name, &bytes)?;
        Ok(bytes)
    }

    /// Adds a file of these bytes to those that are being read.
    fn add(&mut self, alloc: Global, name: &str, bytes: &[u8]) -> Result<(), ExpandFault>
        requires { length bytes.now ≤ 4194304 }
        ensures added { OnOk result (added_to self.old.size bytes.now ≡ Ok bytes.now) }
        ensures names { OnOk result (self.new.names ≡ self.old.names ++ name.now ∷ []) }
        ensures size { OnOk result (self.new.size ≡ self.old.size + length bytes.now) }
        ensures refused { IfErr result (λ fault. RefusesLine fault (added_to self.old.size bytes.now)) }
    {
        if self.size + bytes.len() > MOST_BYTES {
            return Err(ExpandFault::At {
                line: 0,
                kind: MacroKind::TooLong,
            });
        }
        self.names.push(String::from_str(alloc, name)?)?;
        self.size += bytes.len();
        Ok(())
    }

    /// The innermost of the files is no longer being read.
    pub(crate) fn leave(&mut self)
        ensures names { self.new.names ≡ take (length self.old.names - 1) self.old.names }
        ensures size { self.new.size ≡ self.old.size }
    {
        self.names.pop();
    }

    /// The name of the file that a `read_file` of this number asks for, by the words behind its first one.
    pub(crate) fn named<'a>(&self, number: u32, words: &'a [u8]) -> Result<&'a str, ExpandFault>
        requires { All IsAscii (words_in words.now) }
        ensures named { IfOk result (λ name. file_named number self.now.names (words_in words.now) ≡ Ok name.now) }
        ensures refused { IfErr result (λ fault. RefusesLine fault (file_named number self.now.names (words_in words.now))) }
    {
        let Some(word) = only_word(words) else {
            return Err(ExpandFault::At {
                line: number,
                kind: MacroKind::WrongWordCount,
            });
        };
        let name = str::from_utf8(word).unwrap();
        if is_among(&self.names, name) {
            return Err(ExpandFault::At {
                line: number,
                kind: MacroKind::Cycle,
            });
        }
        Ok(name)
    }
}

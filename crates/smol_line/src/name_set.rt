//! The names of one kind of thing, each found quickly.
ghost use Rattle.std.specs.Prelude.{◌≡◌, ◌==◌, ◌<◌, ◌++◌, ◌∷◌, [], None, Some, length, position, slice_get, IfSome, OnOk, OnErr};
ghost use Rattle.std.specs.Str.{bytes_eq};

use indexmap::IndexSet;
use std::alloc::{AllocError, Global};
use std::marker::Model;
use std::str;

/// Names in the order in which they were given. Contracts see the list of them, each as its bytes.
#[derive(Drop)]
pub struct NameSet {
    names: IndexSet<String>,
}

impl Model for NameSet {
    ghost use Rattle.std.specs.Prelude.{List, ℕ, map, string_bytes};

    ghost Value = { List (List ℕ) };

    ghost view = { λ set. map string_bytes set.names.keys };
}

impl NameSet {
    ghost use Rattle.smol_line.specs.Names.{is_named};
    ghost use Rattle.std.specs.Prelude.{false};

    /// No names, which takes no memory.
    pub fn new(alloc: Global) -> NameSet
        ensures { result ≡ [] }
    {
        NameSet {
            names: IndexSet::new(alloc),
        }
    }

    /// How many names there are.
    pub fn len(&self) -> usize
        ensures { result ≡ length self.now }
    {
        self.names.len()
    }

    /// Whether there are none.
    pub fn is_empty(&self) -> bool
        ensures { result ≡ (length self.now == 0) }
    {
        self.len() == 0
    }

    /// The number of a name, counted from 0.
    pub fn number_of(&self, name: &[u8]) -> Option<usize>
        ensures value { result ≡ position (bytes_eq name.now) self.now }
        ensures within { IfSome result (λ number. number < length self.now) }
    {
        match str::from_utf8(name) {
            Ok(text) => self.names.get_index_of(text),
            Err(_) => None,
        }
    }

    /// Adds a new name behind the others.
    pub fn add(&mut self, alloc: Global, name: &str) -> Result<(), AllocError>
        requires new { is_named self.old name.now ≡ false }
        ensures added { OnOk result (self.new ≡ self.old ++ name.now ∷ []) }
        ensures err { OnErr result (self.new ≡ self.old) }
    {
        let name = String::from_str(alloc, name)?;
        self.names.insert(name)?;
        Ok(())
    }

    /// The name of a number.
    pub fn name(&self, number: usize) -> &str
        requires { number < length self.now }
        ensures { slice_get self.now number ≡ Some result.now }
    {
        self.names.as_slice()[number].as_str()
    }
}

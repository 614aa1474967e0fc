//! Memory that counts what it refuses.
ghost use Rattle.std.specs.Prelude.{◌≡◌, ◌+◌, ◌<◌, ◌≤◌, ◌++◌, length, string_bytes, vec_len, vec_capacity, IfOk, OnOk, OnErr};
ghost use Rattle.smol_edge.specs.Faults.{RoseByOne};

use std::alloc::{AllocError, Global};
use std::marker::Model;

/// The memory of a source or outlets in memory. It counts the growths that it refused, and contracts see it as
/// that count. The count rises in this module alone, so a body elsewhere can't say that it was refused memory
/// without having asked for some.
#[derive(Debug, Drop)]
pub(crate) struct Memory {
    alloc: Global,
    shortages: u64,
}

impl Model for Memory {
    ghost use Rattle.std.specs.Prelude.{ℕ};

    ghost Value = { ℕ };

    ghost view = { λ memory. memory.shortages };
}

impl Memory {
    pub fn of(alloc: Global) -> Memory
        ensures none_refused { result ≡ 0 }
    {
        Memory {
            alloc,
            shortages: 0,
        }
    }

    // Counts a growth that was refused.
    fn refuse(&mut self) -> AllocError
        ensures counted { RoseByOne self.old self.new }
    {
        self.shortages = self.shortages.saturating_add(1);
        AllocError
    }

    /// Makes room in the list for so many items more.
    pub fn reserve<T>(&mut self, list: &mut Vec<T>, more: usize) -> Result<(), AllocError>
        ensures room { OnOk result (vec_len list.new + more ≤ vec_capacity list.new) }
        ensures items_stay { list.new.items ≡ list.old.items }
        ensures len { vec_len list.new ≡ vec_len list.old }
        ensures given { OnOk result (self.new ≡ self.old) }
        ensures refused { OnErr result (RoseByOne self.old self.new) }
    {
        match list.reserve(more) {
            Ok(()) => Ok(()),
            Err(_) => Err(self.refuse()),
        }
    }

    /// Adds the bytes at the end of the list.
    pub fn append(&mut self, list: &mut Vec<u8>, bytes: &[u8]) -> Result<(), AllocError>
        ensures appended { OnOk result (list.new.items ≡ list.old.items ++ bytes.now) }
        ensures not_appended { OnErr result (list.new.items ≡ list.old.items) }
        ensures takes_room { OnErr result (0 < length bytes.now) }
        ensures given { OnOk result (self.new ≡ self.old) }
        ensures refused { OnErr result (RoseByOne self.old self.new) }
    {
        match list.extend_from_slice(bytes) {
            Ok(()) => Ok(()),
            Err(_) => Err(self.refuse()),
        }
    }

    /// A copy of the text.
    pub fn copy(&mut self, text: &str) -> Result<String, AllocError>
        ensures same { IfOk result (λ copy. string_bytes copy ≡ text.now) }
        ensures given { OnOk result (self.new ≡ self.old) }
        ensures refused { OnErr result (RoseByOne self.old self.new) }
    {
        match String::from_str(self.alloc, text) {
            Ok(copy) => Ok(copy),
            Err(_) => Err(self.refuse()),
        }
    }

    /// An empty list, for which none is taken.
    pub fn list<T>(&self) -> Vec<T>
        ensures empty { vec_len result ≡ 0 }
    {
        Vec::new(self.alloc)
    }
}

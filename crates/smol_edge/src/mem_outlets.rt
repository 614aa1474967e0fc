//! Outlets in memory.
ghost use Rattle.std.specs.Prelude.{◌≡◌, ◌⊎◌, ◌+◌, ◌^◌, ◌<◌, ◌≤◌, ◌∷◌, ◌++◌, [], ℕ, length, take, map, min, Some, IfOk, OnOk, OnErr, IsErr, vec_len, slice_index_or, slice_set, string_bytes};
ghost use Rattle.smol_edge.specs.Faults.{Rose, RoseByOne};
ghost use Rattle.smol_edge.specs.Outlets.{Names, Appends};
ghost use Rattle.smol_edge.specs.Calls.{IsNumbered};
ghost use Rattle.smol_edge.specs.MemOutlets.{bytes_of, written_of, Counts, MayFail};

use crate::calls::Calls;
use crate::memory::Memory;
use crate::names::add_name;
use crate::{Failed, Outlets};
use std::alloc::{AllocError, Global};
use std::marker::Model;

/// Outlets in memory, which keep all names and bytes and tell them. They fail at the calls that they were
/// told to fail at, counted from 1 over `write` and `open`.
#[derive(Debug, Drop)]
pub struct MemOutlets {
    memory: Memory,
    names: Vec<String>,
    outlets: Vec<Vec<u8>>,
    most: usize,
    calls: Calls,
}

impl Model for MemOutlets {
    ghost use Rattle.std.specs.Prelude.{◌≡◌, ◌+◌, ◌<◌, map, string_bytes, vec_len};
    ghost use Rattle.smol_edge.specs.MemOutlets.{OutletsState};

    ghost Value = { OutletsState };

    ghost view = { λ state. record {
      names = map string_bytes state.names.items;
      outlets = map (λ outlet. outlet.items) state.outlets.items;
      most = state.most;
      fails = state.calls.fails.items;
      calls = state.calls.made;
      faults = state.calls.faults;
      shortages = state.memory;
    } };

    ghost invariant = { λ state. (vec_len state.outlets ≡ 2 + vec_len state.names) × (0 < state.most) };
}

// Adds the bytes to the end of those of the outlet.
fn append_to(
    memory: &mut Memory,
    outlets: &mut Vec<Vec<u8>>,
    outlet: usize,
    bytes: &[u8],
) -> Result<(), AllocError>
    requires { outlet < vec_len outlets.old }
    ensures appended { OnOk result (map (λ o. o.items) outlets.new.items ≡
        slice_set (map (λ o. o.items) outlets.old.items) outlet
        (slice_index_or (map (λ o. o.items) outlets.old.items) outlet [] ++ bytes.now)) }
    ensures not_appended { OnErr result (map (λ o. o.items) outlets.new.items ≡ map (λ o. o.items) outlets.old.items) }
    ensures takes_room { OnErr result (0 < length bytes.now) }
    ensures len { vec_len outlets.new ≡ vec_len outlets.old }
    ensures given { OnOk result (memory.new ≡ memory.old) }
    ensures refused { OnErr result (RoseByOne memory.old memory.new) }
{
    let written = &mut outlets[outlet];
    memory.append(written, bytes)?;
    Ok(())
}

impl MemOutlets {
    /// Outlets that take at most `most` bytes in a write, and fail at these calls.
    pub fn of(alloc: Global, fail: &[u32], most: usize) -> Result<MemOutlets, AllocError>
        requires { 1 ≤ most }
        ensures no_names { IfOk result (λ outlets. outlets.names ≡ []) }
        ensures no_bytes { IfOk result (λ outlets. (outlet : ℕ) → bytes_of outlets outlet ≡ []) }
        ensures most { IfOk result (λ outlets. outlets.most ≡ most) }
        ensures numbers { IfOk result (λ outlets. outlets.fails ≡ fail.now) }
        ensures no_calls { IfOk result (λ outlets. outlets.calls ≡ 0) }
        ensures no_faults { IfOk result (λ outlets. outlets.faults ≡ 0) }
        ensures no_shortages { IfOk result (λ outlets. outlets.shortages ≡ 0) }
    {
        let calls = Calls::of(alloc, fail)?;
        let mut outlets = Vec::with_capacity(alloc, 2)?;
        outlets.push(Vec::new(alloc))?;
        outlets.push(Vec::new(alloc))?;
        Ok(MemOutlets {
            memory: Memory::of(alloc),
            names: Vec::new(alloc),
            outlets,
            most,
            calls,
        })
    }

    /// The bytes of an outlet.
    pub fn bytes(&self, outlet: u32) -> &[u8]
        requires { outlet < 2 + length self.now.names }
        ensures { result.now ≡ bytes_of self.now outlet }
    {
        &self.outlets[outlet as usize]
    }

    /// The names opened, in order.
    pub fn names(&self) -> &[String]
        ensures { map string_bytes result.now ≡ self.now.names }
    {
        &self.names
    }
}

impl Outlets for MemOutlets {
    ghost use Rattle.std.proofs.Common.{refl};
    ghost use Rattle.smol_edge.specs.OutletBytes.{blank};

    ghost told = { λ outlets. Some (written_of outlets) };

    ghost opened = { λ outlets. length outlets.names };

    ghost faults = { λ outlets. outlets.faults };

    fn open(&mut self, name: &str) -> Result<u32, Failed>
        requires { length self.old.names < 2 ^ 31 }
        ensures outlet { IfOk result (λ outlet. outlet ≡ 2 + length self.old.names) }
        ensures named { OnOk result (Names name.now (written_of self.old) (written_of self.new)) }
        ensures counted { OnOk result (length self.new.names ≡ length self.old.names + 1) }
        ensures not_named { OnErr result (Appends [] (written_of self.old) (written_of self.new)) }
        ensures not_counted { OnErr result (length self.new.names ≡ length self.old.names) }
        ensures faults_stay { self.old.faults ≤ self.new.faults }
        ensures cause { OnErr result (Rose self.old.faults self.new.faults) }

        // It fails at its numbers, and elsewhere only where memory was refused.
        ensures numbered { IsNumbered self.old.fails self.old.calls → IsErr result }
        ensures fails_only { OnErr result (MayFail self.old self.new) }
        ensures no_shortage { OnOk result (self.new.shortages ≡ self.old.shortages) }

        ensures counts { Counts self.old self.new }
        ensures no_fault { OnOk result (self.new.faults ≡ self.old.faults) }
        ensures one_fault { OnErr result (RoseByOne self.old.faults self.new.faults) }
    {
        if self.calls.begin() {
            return Err(self.calls.fault());
        }
        if self.memory.reserve(&mut self.outlets, 1).is_err() {
            return Err(self.calls.fault());
        }
        if add_name(&mut self.memory, &mut self.names, name).is_err() {
            return Err(self.calls.fault());
        }
        let outlet = self.outlets.len() as u32;
        self.outlets.push(self.memory.list()).unwrap();
        Ok(outlet)
    }

    fn write(&mut self, outlet: u32, bytes: &[u8]) -> Result<usize, Failed>
        requires { outlet < 2 + length self.old.names }
        ensures within { IfOk result (λ n. n ≤ length bytes.now) }
        ensures some { IfOk result (λ n. 0 < length bytes.now → 0 < n) }
        ensures appended { IfOk result (λ n. Appends ((outlet, take n bytes.now) ∷ []) (written_of self.old) (written_of self.new)) }
        ensures not_appended { OnErr result (Appends [] (written_of self.old) (written_of self.new)) }
        ensures opened_stays { length self.new.names ≡ length self.old.names }
        ensures faults_stay { self.old.faults ≤ self.new.faults }
        ensures cause { OnErr result (Rose self.old.faults self.new.faults) }

        // It fails at its numbers, and elsewhere only where memory was refused, which bytes alone take.
        ensures numbered { IsNumbered self.old.fails self.old.calls → IsErr result }
        ensures fails_only { OnErr result (MayFail self.old self.new) }
        ensures no_shortage { OnOk result (self.new.shortages ≡ self.old.shortages) }
        ensures takes_room { OnErr result (IsNumbered self.old.fails self.old.calls ⊎ (0 < length bytes.now)) }
        ensures as_many_as_allowed { IfOk result (λ n. n ≡ min (length bytes.now) self.old.most) }

        ensures counts { Counts self.old self.new }
        ensures no_fault { OnOk result (self.new.faults ≡ self.old.faults) }
        ensures one_fault { OnErr result (RoseByOne self.old.faults self.new.faults) }
    {
        if self.calls.begin() {
            return Err(self.calls.fault());
        }
        let count = bytes.len().min(self.most);
        if append_to(
            &mut self.memory,
            &mut self.outlets,
            outlet as usize,
            &bytes[..count],
        )
        .is_err()
        {
            return Err(self.calls.fault());
        }
        Ok(count)
    }

    ghost is_counted = { λ outlets. record { count_is = refl; blank = blank (length outlets.names) outlets.outlets } };
}

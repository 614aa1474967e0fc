//! A source in memory.
ghost use Rattle.std.specs.Prelude.{◌≡◌, ◌<◌, ◌≤◌, ◌↔◌, ◌∷◌, [], length, take, map, string_bytes, Some, IfOk, OnOk, OnErr, IsErr, min};
ghost use Rattle.smol_edge.specs.Faults.{Rose, RoseByOne};
ghost use Rattle.smol_edge.specs.Source.{Opens, FailsToOpen, Takes};
ghost use Rattle.smol_edge.specs.Calls.{IsNumbered};
ghost use Rattle.smol_edge.specs.MemSource.{reading_of, Counts, MayFailToOpen, Adds, IsRefusedMemory};

use crate::calls::Calls;
use crate::mem_file::MemFile;
use crate::mem_files::{bytes_left, find_file, place_kept};
use crate::memory::Memory;
use crate::names::add_name;
use crate::{Failed, Source};
use std::alloc::{AllocError, Global};
use std::marker::Model;

/// A source in memory, which tells everything. It fails at the calls that it was told to fail at, counted
/// from 1 over `open` and `read`, and at a name that it doesn't hold.
#[derive(Debug, Drop)]
pub struct MemSource {
    memory: Memory,
    files: Vec<MemFile>,
    /// Where the file that is open stands, or a place past the last file.
    place: usize,
    position: usize,
    asked: Vec<String>,
    calls: Calls,
}

impl Model for MemSource {
    ghost use Rattle.std.specs.Prelude.{map, drop, string_bytes};
    ghost use Rattle.smol_edge.specs.MemSource.{SourceState};
    ghost use Rattle.smol_edge.specs.MemFile.{file_of, bytes_at};

    ghost Value = { SourceState };

    ghost view = { λ source. record {
      files = map file_of source.files.items;
      left = drop source.position (bytes_at source.files.items source.place);
      asked = map string_bytes source.asked.items;
      fails = source.calls.fails.items;
      calls = source.calls.made;
      faults = source.calls.faults;
      shortages = source.memory;
    } };
}

impl MemSource {
    /// A source with one file. None is open yet.
    pub fn of(
        alloc: Global,
        name: &str,
        bytes: &[u8],
        fail: &[u32],
    ) -> Result<MemSource, AllocError>
        ensures files { IfOk result (λ source. source.files ≡ (record { name = name.now; bytes = bytes.now }) ∷ []) }
        ensures none_left { IfOk result (λ source. source.left ≡ []) }
        ensures none_asked { IfOk result (λ source. source.asked ≡ []) }
        ensures numbers { IfOk result (λ source. source.fails ≡ fail.now) }
        ensures no_calls { IfOk result (λ source. source.calls ≡ 0) }
        ensures no_faults { IfOk result (λ source. source.faults ≡ 0) }
        ensures no_shortages { IfOk result (λ source. source.shortages ≡ 0) }
    {
        let file = MemFile {
            name: String::from_str(alloc, name)?,
            bytes: Vec::from_slice(alloc, bytes)?,
        };
        let calls = Calls::of(alloc, fail)?;
        let files = vec![in alloc; file]?;
        Ok(MemSource {
            memory: Memory::of(alloc),
            files,
            place: 1,
            position: 0,
            asked: Vec::new(alloc),
            calls,
        })
    }

    /// Adds a file. One of this name that is there already stays as it is. Where memory is refused, nothing is added.
    pub fn add(&mut self, name: &str, bytes: &[u8]) -> Result<(), AllocError>
        ensures added { OnOk result (Adds name.now bytes.now self.old self.new) }
        ensures not_added { OnErr result (IsRefusedMemory self.old self.new) }
    {
        if find_file(&self.files, name).is_some() {
            return Ok(());
        }
        self.memory.reserve(&mut self.files, 1)?;
        let name = self.memory.copy(name)?;
        let mut kept = self.memory.list();
        self.memory.append(&mut kept, bytes)?;
        self.place = place_kept(&self.files, self.place);
        self.files.push(MemFile { name, bytes: kept }).unwrap();
        Ok(())
    }

    /// The names asked for, in order.
    pub fn asked(&self) -> &[String]
        ensures { map string_bytes result.now ≡ self.now.asked }
    {
        &self.asked
    }
}

impl Source for MemSource {
    ghost told = { λ source. Some (reading_of source) };

    ghost faults = { λ source. source.faults };

    fn open(&mut self, name: &str) -> Result<(), Failed>
        ensures opened { OnOk result (Opens name.now (reading_of self.old) (reading_of self.new)) }
        ensures not_opened { OnErr result (FailsToOpen name.now (reading_of self.old) (reading_of self.new)) }
        ensures faults_stay { self.old.faults ≤ self.new.faults }
        ensures cause { OnErr result (Rose self.old.faults self.new.faults) }

        // It fails at its numbers and at unknown names, and elsewhere only where memory was refused.
        ensures numbered { IsNumbered self.old.fails self.old.calls → IsErr result }
        ensures fails_only { OnErr result (MayFailToOpen name.now self.old self.new) }
        ensures no_shortage { OnOk result (self.new.shortages ≡ self.old.shortages) }

        ensures counted { Counts self.old self.new }
        ensures no_fault { OnOk result (self.new.faults ≡ self.old.faults) }
        ensures one_fault { OnErr result (RoseByOne self.old.faults self.new.faults) }
    {
        let is_numbered = self.calls.begin();
        if add_name(&mut self.memory, &mut self.asked, name).is_err() {
            return Err(self.calls.fault());
        }
        if is_numbered {
            return Err(self.calls.fault());
        }
        match find_file(&self.files, name) {
            Some(place) => {
                self.place = place;
                self.position = 0;
                Ok(())
            }
            None => Err(self.calls.fault()),
        }
    }

    fn read(&mut self, buf: &mut [u8]) -> Result<usize, Failed>
        ensures within { IfOk result (λ n. n ≤ length buf.old) }
        ensures taken { IfOk result (λ n. Takes (take n buf.new) (reading_of self.old) (reading_of self.new)) }
        ensures ended { IfOk result (λ n. n ≡ 0 → 0 < length buf.old → self.old.left ≡ []) }
        ensures not_taken { OnErr result (Takes [] (reading_of self.old) (reading_of self.new)) }
        ensures faults_stay { self.old.faults ≤ self.new.faults }
        ensures cause { OnErr result (Rose self.old.faults self.new.faults) }

        // It fails at its numbers alone, and else takes as many bytes as fit.
        ensures numbered { IsErr result ↔ IsNumbered self.old.fails self.old.calls }
        ensures no_shortage { self.new.shortages ≡ self.old.shortages }
        ensures as_many_as_fit { IfOk result (λ n. n ≡ min (length buf.old) (length self.old.left)) }

        ensures counted { Counts self.old self.new }
        ensures no_fault { OnOk result (self.new.faults ≡ self.old.faults) }
        ensures one_fault { OnErr result (RoseByOne self.old.faults self.new.faults) }
    {
        if self.calls.begin() {
            return Err(self.calls.fault());
        }
        let left = bytes_left(&self.files, self.place, self.position);
        let count = buf.len().min(left.len());
        buf[..count].copy_from_slice(&left[..count]);
        self.position += count;
        Ok(count)
    }
}

//! Who reads the pages of a run.
ghost use Rattle.std.specs.Prelude.{◌≡◌, ◌+◌, ◌≤◌, ℕ, [], None, Option, OnErr, OnOk, length, replicate};
ghost use Rattle.smol_edge.specs.Faults.{Rose, Tells};
ghost use Rattle.smol_edge.specs.Outlets.{Appends, AppendsFrontOf, Written};
ghost use Rattle.smol_loop.specs.Parts.{on_pages};

use crate::writing::write_pages;
use smol_edge::{Failed, Outlets};
use smol_print::Pages;

/// Who reads what the commands of a run print.
pub trait Readers {
    /// What they tell of what they were given, or nothing where they don't tell.
    ghost told: { Self → Option Written };

    /// For how many files there are readers, beside those of standard output and standard error.
    ghost opened: { Self → ℕ };

    /// How often a call has failed.
    ghost faults: { Self → ℕ };

    /// Takes each page that isn't empty, in the order of outlets, and makes all of them empty.
    fn take(&mut self, count: u32, pages: &mut Pages) -> Result<(), Failed>
        requires count { count ≡ length pages.old }
        requires opened { length pages.old ≤ 2 + opened self.old }
        ensures appended { OnOk result (Tells (told self.old) (told self.new) (Appends (on_pages 0 pages.old))) }
        ensures front_appended { OnErr result (Tells (told self.old) (told self.new) (AppendsFrontOf (on_pages 0 pages.old))) }
        ensures cleared { OnOk result (pages.new ≡ replicate count []) }
        ensures opened { opened self.new ≡ opened self.old }
        ensures cause { OnErr result (Rose (faults self.old) (faults self.new)) }
        ensures no_fault { OnOk result (faults self.new ≡ faults self.old) };
}

/// What is read on outlets is written to them.
impl<K: Outlets> Readers for K {
    ghost told = { K.told };

    ghost opened = { K.opened };

    ghost faults = { K.faults };

    fn take(&mut self, count: u32, pages: &mut Pages) -> Result<(), Failed> {
        write_pages(count, pages, self)
    }
}

/// Nobody reads the pages, which would be of so many files. Nothing is written.
#[derive(Clone, Copy, Debug)]
pub struct Nobody {
    pub files: u32,
}

impl Readers for Nobody {
    ghost told = { λ _. None };

    ghost opened = { λ nobody. nobody.files };

    ghost faults = { λ _. 0 };

    fn take(&mut self, _count: u32, pages: &mut Pages) -> Result<(), Failed> {
        pages.clear();
        Ok(())
    }
}

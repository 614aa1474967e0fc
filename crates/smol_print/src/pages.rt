ghost use Rattle.std.specs.Prelude.{◌≡◌, ◌<◌, [], IfOk, Some, length, replicate, slice_get};
ghost use Rattle.std.specs.Borrow.{sem};
ghost use Rattle.smol_print.specs.Lent.{LendsPage};

use std::alloc::{AllocError, Global};
use std::marker::Model;

/// What is to be written to each outlet, until it is written. Contracts see the pages as the list of their bytes.
#[derive(Drop)]
pub struct Pages {
    pages: Vec<Vec<u8>>,
}

impl Model for Pages {
    ghost use Rattle.std.specs.Prelude.{List, ℕ};
    ghost use Rattle.smol_print.specs.Page.{all_bytes};

    ghost Value = { List (List ℕ) };

    ghost view = { λ pages. all_bytes pages.pages.items };
}

impl Pages {
    /// An empty page for each of so many outlets.
    pub fn open(alloc: Global, outlets: u32) -> Result<Pages, AllocError>
        ensures { IfOk result (λ pages. pages ≡ replicate outlets []) }
    {
        let mut pages = Vec::new(alloc);
        for _outlet in 0..outlets {
            pages.push(Vec::new(alloc))?;
        }
        Ok(Pages { pages })
    }

    /// The page of an outlet.
    pub fn page(&self, outlet: u32) -> &[u8]
        requires { outlet < length self.now }
        ensures { slice_get self.now outlet ≡ Some result.now }
    {
        self.pages[outlet as usize].as_slice()
    }

    /// The page of an outlet, to be written on.
    pub fn page_mut(&mut self, outlet: u32) -> &mut Vec<u8>
        requires { outlet < length self.old }
        ensures* writes_back { sem 𝓛 (LendsPage self.entry outlet result) }
        ensures value { slice_get self.old outlet ≡ Some result.now.items }
    {
        &mut self.pages[outlet as usize]
    }

    /// Makes all pages empty. They keep their memory.
    pub fn clear(&mut self)
        ensures { self.new ≡ replicate (length self.old) [] }
    {
        for page in self.pages.iter_mut() {
            page.clear();
        }
    }
}

#[cfg(test)]
mod tests {
    use super::*;
    use crate::{add_time, end_line};
    use std::test::Fail;

    #[test]
    fn pages_are_written_on_apart(rt: HostRuntime) -> Result<(), Fail> {
        let mut pages = Pages::open(rt.alloc(), 3)?;
        add_time(pages.page_mut(2), -10_000_000)?;
        end_line(pages.page_mut(2))?;
        end_line(pages.page_mut(0))?;
        assert!(rt; pages.page(0) == b"\n".as_slice());
        assert!(rt; pages.page(1).is_empty());
        assert!(rt; pages.page(2) == b"-0.01\n".as_slice());
        pages.clear();
        assert!(rt; pages.page(2).is_empty());
        Ok(())
    }
}

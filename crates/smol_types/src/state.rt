ghost use Rattle.std.specs.Prelude.{◌≡◌, IfOk};

use crate::Items;
use smol_geom::Place;
use std::alloc::{AllocError, Global};

/// A molecule.
#[derive(Clone, Copy, Debug, PartialEq, Eq)]
pub struct Mol {
    /// Its number, which no other molecule of the run has.
    pub serial: u64,
    /// The number of its species.
    pub species: u16,
    /// Where it stands, in ticks.
    pub place: Place,
}

/// The molecules after some steps.
#[derive(Debug, Drop)]
pub struct State {
    /// How many steps were made.
    pub step: u32,
    /// The molecules in ascending order of serial.
    pub mols: Items<Mol>,
    /// The serial of the next molecule.
    pub next: u64,
}

impl State {
    /// An equal state.
    pub fn copy(&self, alloc: Global) -> Result<State, AllocError>
        ensures { IfOk result (λ copy. copy ≡ self.now) }
    {
        Ok(State {
            step: self.step,
            mols: Items::from_slice(alloc, self.mols.as_slice())?,
            next: self.next,
        })
    }
}

#[cfg(test)]
mod tests {
    use super::*;
    use std::test::Fail;

    #[test]
    fn a_copy_is_equal(rt: HostRuntime) -> Result<(), Fail> {
        let mols = [
            Mol {
                serial: 1,
                species: 0,
                place: Place([1, -3, 5]),
            },
            Mol {
                serial: 4,
                species: 2,
                place: Place([7, 9, 1]),
            },
        ];
        let state = State {
            step: 6,
            mols: Items::from_slice(rt.alloc(), &mols)?,
            next: 9,
        };
        let copy = state.copy(rt.alloc())?;
        assert_eq!(rt; copy.step, 6);
        assert_eq!(rt; copy.mols.as_slice(), mols.as_slice());
        assert_eq!(rt; copy.next, 9);
        Ok(())
    }
}

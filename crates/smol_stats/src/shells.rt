//! In which shell a pair is.
ghost use Rattle.std.specs.Prelude.{◌≡◌, ◌*◌, ◌^◌, ◌<◌, ◌≤◌, All, length};
ghost use Rattle.smol_geom.specs.Axes.{IsWithin};
ghost use Rattle.smol_types.specs.declared.state.Mol.{Mol as TheMol};
ghost use Rattle.smol_stats.specs.Radial.{is_behind_in, is_in_shell, is_pair_of};
ghost use Rattle.smol_stats.specs.Tally.{IsPlaced};

use smol_geom::dist2;
use smol_types::Mol;

// The two species of pairs, and how many shells of one thickness there are within reach, in ticks.
#[derive(Clone, Copy)]
pub(crate) struct Shells {
    pub first: u16,
    pub second: u16,
    pub reach: u64,
    pub n: u32,
    ghost positive: { 0 < reach },
    ghost short: { reach ≤ 2 * 10 ^ 9 },
    ghost some: { 0 < n },
    ghost few: { n ≤ 1000 },
}

impl Shells {
    // The shell of the molecules at two indexes, where the second is behind the first, they are a pair, and within reach.
    pub fn of_pair(&self, mols: &[Mol], one: usize, other: usize) -> Option<usize>
        requires places { All (λ (mol : TheMol). IsWithin (2 ^ 57) mol.place.0) mols.now }
        requires one { one < length mols.now }
        requires other { other < length mols.now }
        ensures { IsPlaced (is_behind_in self.now.first self.now.second self.now.reach self.now.n mols.now one) self.now.n other result }
    {
        let a = &mols[one];
        let b = &mols[other];
        if one < other && self.are_of(a, b) {
            self.of_square(dist2(&a.place, &b.place))
        } else {
            None
        }
    }

    // Whether one of two molecules is of the first species, and the other of the second.
    fn are_of(&self, a: &Mol, b: &Mol) -> bool
        ensures { result ≡ is_pair_of self.now.first self.now.second a.now b.now }
    {
        (a.species == self.first && b.species == self.second)
            || (a.species == self.second && b.species == self.first)
    }

    // The shell of a squared distance, where it is within reach.
    fn of_square(&self, square: u128) -> Option<usize>
        ensures { IsPlaced (is_in_shell self.now.reach self.now.n) self.now.n square result }
    {
        let reach = u128::from(self.reach);
        let n = u128::from(self.n);
        if square >= reach * reach {
            return None;
        }
        let root = (square * (n * n)).isqrt();
        Some((root / reach) as usize)
    }
}

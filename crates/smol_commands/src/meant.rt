//! Which molecules a command means, and the tests before it.
ghost use Rattle.std.specs.Prelude.{◌≡◌, nat_eq};
ghost use Rattle.std.specs.List.{list_all, list_any};
ghost use Rattle.smol_meaning.specs.Commands.{holds_of, is_meant, number_meant};

use smol_types::{Mol, Test};

/// Whether a species is one of these.
pub fn is_among(who: &[u16], species: u16) -> bool
    ensures { result ≡ list_any (nat_eq species) who.now }
{
    who.iter().any(|one| species == *one)
}

/// Whether a molecule is of one of these species.
pub fn is_meant(who: &[u16], mol: &Mol) -> bool
    ensures { result ≡ is_meant who.now mol.now }
{
    is_among(who, mol.species)
}

fn number_meant(who: &[u16], mols: &[Mol]) -> usize
    ensures { result ≡ number_meant who.now mols.now }
{
    mols.iter().filter(|mol| is_meant(who, mol)).count()
}

// Whether a test holds of these molecules.
fn holds_of(mols: &[Mol], test: &Test) -> bool
    ensures { result ≡ holds_of mols.now test.now }
{
    match test {
        Test::IfNo { who } => number_meant(who.as_slice(), mols) == 0,
        Test::IfLess { who, n } => number_meant(who.as_slice(), mols) < (*n as usize),
        Test::IfMore { who, n } => (*n as usize) < number_meant(who.as_slice(), mols),
    }
}

/// Whether all tests hold of these molecules.
pub fn all_hold(mols: &[Mol], tests: &[Test]) -> bool
    ensures { result ≡ list_all (holds_of mols.now) tests.now }
{
    tests.iter().all(|test| holds_of(mols, test))
}

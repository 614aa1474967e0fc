//! The species that a command means.
ghost use Rattle.std.specs.Prelude.{◌≡◌, ◌≤◌, length, IfOk};
ghost use Rattle.smol_types.specs.Limits.{most_species};
ghost use Rattle.smol_line.specs.Answers.{Answers};
ghost use Rattle.smol_cmd.specs.Who.{numbers_of, who_in};

use smol_line::{Chosen, NameSet, Refusal, chosen_in};
use smol_types::Items;
use std::alloc::{AllocError, Global};

// The numbers of species that are meant, ascending.
#[tactic(auto, using(crate::proofs::WhoLemmas::range_more))]
fn numbers_of(alloc: Global, chosen: Chosen) -> Result<Items<u16>, AllocError>
    requires ordered { chosen.first ≤ chosen.end }
    requires few { chosen.end ≤ most_species }
    ensures { IfOk result (λ numbers. numbers ≡ numbers_of chosen) }
{
    let mut numbers = Items::new(alloc);
    for number in chosen.first..chosen.end {
        numbers.push(number as u16)?;
    }
    Ok(numbers)
}

/// The numbers of the species that a word means, of these names.
pub fn who_in(alloc: Global, species: &NameSet, word: &[u8]) -> Result<Items<u16>, Refusal>
    requires { length species.now ≤ most_species }
    ensures { Answers (who_in species.now word.now) result }
{
    let chosen = chosen_in(species, word)?;
    let numbers = numbers_of(alloc, chosen)?;
    Ok(numbers)
}

//! Serial matching: first come, first served.
ghost use Rattle.std.specs.Prelude.{◌≡◌, ℕ, IfOk, OnOk, nat_eq};
ghost use Rattle.std.specs.HashSet.{contains};
ghost use Rattle.smol_plan.specs.Matching.{is_free, taken_after, serial};

use crate::pair::Pair;
use std::alloc::{AllocError, Global};
use std::collections::HashSet;

/// Which pairs fire, each tried in its turn: a pair fires where no fired pair before it has one of its molecules.
pub fn greedy(alloc: Global, pairs: &[Pair]) -> Result<Vec<bool>, AllocError>
    ensures matched { IfOk result (λ fired. fired.items ≡ serial pairs.now) }
{
    let mut taken = HashSet::new(alloc);
    let mut fired = Vec::with_capacity(alloc, pairs.len())?;
    for pair in pairs {
        let fires = take_both(&mut taken, pair)?;
        fired.push(fires)?;
    }
    Ok(fired)
}

// Puts both molecules into the set where neither is there, and says whether it did.
fn take_both(taken: &mut HashSet<u64>, pair: &Pair) -> Result<bool, AllocError>
    ensures fires { IfOk result (λ fires. fires ≡ is_free (contains nat_eq taken.old) pair.now) }
    ensures taken { OnOk result ((m : ℕ) → contains nat_eq taken.new m ≡ taken_after (contains nat_eq taken.old) pair.now m) }
{
    if taken.contains(&pair.a) || taken.contains(&pair.b) {
        return Ok(false);
    }
    taken.insert(pair.a)?;
    taken.insert(pair.b)?;
    Ok(true)
}

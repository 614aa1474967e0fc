//! The rule of the words and views of a matching, which each step keeps.
ghost use Rattle.smol_claims.specs.Rule.{KeepsRule};
ghost use Rattle.smol_claims.specs.View.{newcomer};

use crate::terms::Terms;
use crate::view::View;
use atomic_table::TableRule;

/// The rule of a matching.
pub struct Claiming;

impl TableRule<(), View, Terms> for Claiming {
    ghost holds = { λ terms s. KeepsRule terms.plan terms.workers s };

    ghost first = { λ terms. newcomer terms.plan terms.workers terms.workers };
}

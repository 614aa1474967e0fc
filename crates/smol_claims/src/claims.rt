//! The words of a matching.
use crate::rule::Claiming;
use crate::terms::Terms;
use crate::view::View;
use atomic_table::Table;
use std::alloc::Global;
use std::marker::Model;

/// The words of a matching, over its plan. Workers share it, and their steps change it.
#[derive(Drop)]
pub struct Claims {
    pub(crate) terms: Terms,
    pub(crate) table: Table<(), View, Terms, Claiming, Global>,
    pub(crate) answer: Vec<bool>,
}

impl Model for Claims {
    ghost use Rattle.smol_claims.specs.Task.{Task};

    ghost Value = { Task };

    ghost use Rattle.smol_claims.specs.KeptClaims.{task_of, AreKept};

    ghost view = { task_of };

    ghost invariant = { AreKept };
}

//! A worker: a seat, and a stack of the pairs that it holds.
use crate::claims::Claims;
use crate::view::View;
use atomic_table::Seat;
use smol_edge::Gate;
use std::marker::Model;

/// A worker of a matching. Its stack has the pairs that its seat holds.
#[derive(Drop)]
pub struct Worker {
    pub(crate) seat: Seat<(), View>,
    pub(crate) stack: Vec<usize>,
}

impl Model for Worker {
    ghost use Rattle.smol_claims.specs.Hand.{Hand};

    ghost Value = { Hand };

    ghost use Rattle.smol_claims.specs.KeptWorker.{hand_of, IsAtRest};

    ghost view = { hand_of };

    ghost invariant = { IsAtRest };
}

impl Worker {
    ghost use Rattle.std.specs.Prelude.{◌≡◌, ◌<◌, [], length};
    ghost use Rattle.smol_plan.specs.Machine.{slice_count};
    ghost use Rattle.smol_claims.specs.Plays.{Sees};
    ghost use Rattle.smol_claims.specs.Hand.{WorksFor, GoesOn};

    /// Takes slices, decides pairs and tells links until it holds and owes nothing and has seen every slice taken.
    /// Where it was the first to take a slice, it asks the gate before it decides a pair of it.
    pub fn run<G: Gate>(&mut self, claims: &Claims, gate: &G)
        requires works { WorksFor self.old claims.now }
        ensures works { WorksFor self.new claims.now }
        ensures held { self.new.view.held ≡ [] }
        ensures owed { self.new.view.owed ≡ [] }
        ensures seen { self.new.view.seen ≡ slice_count claims.now.pairs }
        ensures goes_on { GoesOn self.old.view self.new.view }
    {
        for slice in 0..claims.terms.plan.slices() {
            claims.work_on(gate, &mut self.seat, &mut self.stack, slice);
        }
    }

    /// Whether a pair fired, where it was decided when this looked.
    pub fn look(&mut self, claims: &Claims, pair: usize) -> Option<bool>
        requires works { WorksFor self.old claims.now }
        requires pair { pair < length claims.now.pairs }
        ensures works { WorksFor self.new claims.now }
        ensures sees { Sees self.old.view pair result self.new.view }
    {
        claims.see(&mut self.seat, pair)
    }
}

//! How a worker goes through the slices.
ghost use Rattle.std.specs.Prelude.{◌≡◌, ℕ, ◌+◌, ◌<◌, ◌≤◌, [], length, vec_capacity};
ghost use Rattle.smol_plan.specs.Machine.{slice_count};
ghost use Rattle.smol_claims.specs.View.{has, times, free_pairs};
ghost use Rattle.smol_claims.specs.Plays.{Sees};
ghost use Rattle.smol_claims.specs.Hand.{SitsAt, OnlyLooks, GoesOn, IsDone};

use crate::claims::Claims;
use crate::code::decision_in;
use crate::view::View;
use atomic_table::Seat;
use smol_edge::Gate;
use smol_plan::Plan;

/// How often a gate is asked for one slice at most.
const MOST_QUESTIONS: u32 = 100_000_000;

// Puts the pairs of a slice that wait for no other on an empty stack.
fn stack_free(plan: &Plan, stack: &mut Vec<usize>, slice: usize)
    requires slice { slice < slice_count plan.now }
    requires empty { stack.old.items ≡ [] }
    requires room { length plan.now ≤ vec_capacity stack.old }
    ensures free { (j : ℕ) → has stack.new.items j ≡ has (free_pairs plan.now slice) j }
    ensures once { (j : ℕ) → times stack.new.items j ≤ 1 }
    ensures room { vec_capacity stack.new ≡ vec_capacity stack.old }
{
    let range = plan.slice(slice);
    for pair in range.start..range.end {
        if plan.is_unlinked(pair) {
            stack.push_reserved(pair);
        }
    }
}

impl Claims {
    /// Looks at a pair, and says what is decided of it.
    pub(crate) fn see(&self, seat: &mut Seat<(), View>, pair: usize) -> Option<bool>
        requires sits { SitsAt seat.old.table_id seat.old.me self.now }
        requires pair { pair < length self.now.pairs }
        ensures sits { SitsAt seat.new.table_id seat.new.me self.now }
        ensures sees { Sees seat.old.me.0 pair result seat.new.me.0 }
    {
        match decision_in(self.look_at(seat, pair)) {
            Some(decision) => Some(decision.fired),
            None => None,
        }
    }

    // Makes the looks that a gate asks for before a slice is decided, and tells it what they answered.
    fn question<G: Gate>(&self, gate: &G, seat: &mut Seat<(), View>, slice: usize)
        requires sits { SitsAt seat.old.table_id seat.old.me self.now }
        ensures sits { SitsAt seat.new.table_id seat.new.me self.now }
        ensures looks { OnlyLooks seat.old.me.0 seat.new.me.0 }
    {
        for _ in 0..MOST_QUESTIONS {
            match gate.ask(slice) {
                Some(pair) if pair < self.terms.plan.len() => {
                    let fired = self.see(seat, pair);
                    gate.saw(slice, pair, fired);
                }
                _ => return,
            }
        }
    }

    /// Takes a slice, and where it was not taken decides its pairs and all that get ready by that.
    pub(crate) fn work_on<G: Gate>(
        &self,
        gate: &G,
        seat: &mut Seat<(), View>,
        stack: &mut Vec<usize>,
        slice: usize,
    )
        requires sits { SitsAt seat.old.table_id seat.old.me self.now }
        requires slice { slice < slice_count self.now.pairs }
        requires done { IsDone seat.old.me.0 stack.old.items }
        requires room { length self.now.pairs ≤ vec_capacity stack.old }
        requires seen { seat.old.me.0.seen ≤ slice_count self.now.pairs }
        ensures sits { SitsAt seat.new.table_id seat.new.me self.now }
        ensures done { IsDone seat.new.me.0 stack.new.items }
        ensures room { vec_capacity stack.new ≡ vec_capacity stack.old }
        ensures goes_on { GoesOn seat.old.me.0 seat.new.me.0 }
        ensures seen { seat.new.me.0.seen ≤ slice_count self.now.pairs }
        ensures seen_it { slice ≤ seat.old.me.0.seen → slice + 1 ≤ seat.new.me.0.seen }
    {
        if self.take(seat, slice) {
            stack_free(&self.terms.plan, stack, slice);
            self.question(gate, seat, slice);
            self.settle_all(seat, stack);
        }
    }
}

//! How a worker decides the pairs that it holds, and those that it gets by that.
ghost use Rattle.std.specs.Prelude.{◌≡◌, ℕ, ◌+◌, ◌<◌, ◌≤◌, [], ◌∷◌, ◌++◌, true, not, ◌&&◌, length, vec_capacity};
ghost use Rattle.smol_plan.specs.declared.pair.Side.{Side};
ghost use Rattle.smol_plan.specs.Pair.{molecule_at, IsOrdered};
ghost use Rattle.smol_plan.specs.Links.{is_taken_before, comes_by};
ghost use Rattle.smol_claims.specs.View.{has, has_link};
ghost use Rattle.smol_claims.specs.Code.{serial_decision};
ghost use Rattle.smol_claims.specs.Hand.{SitsAt, IsInHand, OnlyLooks, GoesOn};

use crate::claims::Claims;
use crate::code::decision_in;
use crate::view::View;
use atomic_table::Seat;
use smol_plan::{Decision, Side};

impl Claims {
    // Whether the molecule of a held pair on a side is taken before it, as the last earlier pair with it says.
    fn is_taken(&self, seat: &mut Seat<(), View>, pair: usize, side: Side) -> bool
        requires sits { SitsAt seat.old.table_id seat.old.me self.now }
        requires pair { pair < length self.now.pairs }
        requires holds { has seat.old.me.0.held pair ≡ true }
        ensures sits { SitsAt seat.new.table_id seat.new.me self.now }
        ensures looks { OnlyLooks seat.old.me.0 seat.new.me.0 }
        ensures taken { result ≡ is_taken_before self.now.pairs (molecule_at self.now.pairs pair side) pair }
    {
        let plan = &self.terms.plan;
        let Some(source) = plan.before(pair, side) else {
            return false;
        };
        match decision_in(self.look_at(seat, source)) {
            Some(decision) => decision.is_taken(plan.side_of(source, plan.molecule(pair, side))),
            None => false,
        }
    }

    // What serial matching decides of a held pair.
    fn decision_of(&self, seat: &mut Seat<(), View>, pair: usize) -> Decision
        requires sits { SitsAt seat.old.table_id seat.old.me self.now }
        requires pair { pair < length self.now.pairs }
        requires holds { has seat.old.me.0.held pair ≡ true }
        ensures sits { SitsAt seat.new.table_id seat.new.me self.now }
        ensures looks { OnlyLooks seat.old.me.0 seat.new.me.0 }
        ensures serial { result ≡ serial_decision self.now.pairs pair }
    {
        let low = self.is_taken(seat, pair, Side::Low);
        let high = self.is_taken(seat, pair, Side::High);
        Decision::after(low, high)
    }

    // Tells the link that comes from a decided pair by its molecule on a side. Where that was the last link of its
    // pair, the pair goes on the stack.
    fn tell_next(&self, seat: &mut Seat<(), View>, stack: &mut Vec<usize>, pair: usize, side: Side)
        requires sits { SitsAt seat.old.table_id seat.old.me self.now }
        requires pair { pair < length self.now.pairs }
        requires owes { (k : ℕ) (t : Side) → comes_by self.now.pairs pair side k t ≡ true → has_link seat.old.me.0.owed k t ≡ true }
        requires hand { IsInHand seat.old.me.0 stack.old.items }
        requires room { length self.now.pairs ≤ vec_capacity stack.old }
        ensures sits { SitsAt seat.new.table_id seat.new.me self.now }
        ensures owed { (k : ℕ) (t : Side) → has_link seat.new.me.0.owed k t
            ≡ (not (comes_by self.now.pairs pair side k t) && has_link seat.old.me.0.owed k t) }
        ensures hand { IsInHand seat.new.me.0 stack.new.items }
        ensures mine { seat.new.me.0.mine ≡ seat.old.me.0.mine }
        ensures seen { seat.new.me.0.seen ≡ seat.old.me.0.seen }
        ensures share { seat.new.me.0.share ≡ seat.old.me.0.share }
        ensures room { vec_capacity stack.new ≡ vec_capacity stack.old }

        // The two molecules of a pair differ, so that no link comes by both.
        ensures ordered { IsOrdered self.now.pairs }
    {
        if let Some((next, next_side)) = self.terms.plan.after(pair, side) {
            if self.tell(seat, next, next_side) {
                stack.push_reserved(next);
            }
        }
    }

    // Decides a pair that came off the stack, and tells both links that come from it.
    fn settle(&self, seat: &mut Seat<(), View>, stack: &mut Vec<usize>, pair: usize)
        requires sits { SitsAt seat.old.table_id seat.old.me self.now }
        requires pair { pair < length self.now.pairs }
        requires hand { IsInHand seat.old.me.0 (stack.old.items ++ pair ∷ []) }
        requires owed { seat.old.me.0.owed ≡ [] }
        requires room { length self.now.pairs ≤ vec_capacity stack.old }
        ensures sits { SitsAt seat.new.table_id seat.new.me self.now }
        ensures hand { IsInHand seat.new.me.0 stack.new.items }
        ensures owed { seat.new.me.0.owed ≡ [] }
        ensures mine { seat.new.me.0.mine ≡ pair ∷ seat.old.me.0.mine }
        ensures seen { seat.new.me.0.seen ≡ seat.old.me.0.seen }
        ensures share { seat.new.me.0.share ≡ seat.old.me.0.share }
        ensures room { vec_capacity stack.new ≡ vec_capacity stack.old }
    {
        let decision = self.decision_of(seat, pair);
        self.decide(seat, pair, decision);
        self.tell_next(seat, stack, pair, Side::Low);
        self.tell_next(seat, stack, pair, Side::High);
    }

    /// Decides every pair on the stack, and every pair that gets there by that.
    pub(crate) fn settle_all(&self, seat: &mut Seat<(), View>, stack: &mut Vec<usize>)
        requires sits { SitsAt seat.old.table_id seat.old.me self.now }
        requires hand { IsInHand seat.old.me.0 stack.old.items }
        requires owed { seat.old.me.0.owed ≡ [] }
        requires room { length self.now.pairs ≤ vec_capacity stack.old }
        ensures sits { SitsAt seat.new.table_id seat.new.me self.now }
        ensures hand { IsInHand seat.new.me.0 stack.new.items }
        ensures empty { stack.new.items ≡ [] }
        ensures owed { seat.new.me.0.owed ≡ [] }
        ensures goes_on { GoesOn seat.old.me.0 seat.new.me.0 }
        ensures seen { seat.new.me.0.seen ≡ seat.old.me.0.seen }
        ensures room { vec_capacity stack.new ≡ vec_capacity stack.old }
    {
        while let Some(pair) = stack.pop() {
            self.settle(seat, stack, pair);
        }
    }
}

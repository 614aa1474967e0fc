//! How a matching is closed.
ghost use Rattle.std.specs.Prelude.{◌≡◌, ℕ, ◌+◌, ◌<◌, ◌≤◌, ◌^◌, [], length, All, Some, slice_index, sum_by, vec_len};
ghost use Rattle.std.specs.Mem.Slots.{slots_items, slots_len, IsFull};
ghost use Rattle.smol_plan.specs.Matching.{serial};
ghost use Rattle.smol_plan.specs.Machine.{slice_count};
ghost use Rattle.smol_claims.specs.View.{view_joining};
ghost use Rattle.smol_claims.specs.Layout.{decision_at, claim_word_count};
ghost use Rattle.smol_claims.specs.Code.{decision_in, serial_decision};
ghost use Rattle.smol_claims.specs.Hand.{SitsAt, WorksFor};

use crate::claims::Claims;
use crate::code::decision_in;
use crate::plays::Joining;
use crate::view::View;
use crate::worker::Worker;
use atomic_table::{Closed, Seat};
use smol_plan::Plan;
use std::alloc::Global;

// Whether each pair fired, from the words of a matching in which all are decided.
fn read_answer(plan: &Plan, closed: &Closed<(), Global>, mut answer: Vec<bool>) -> Vec<bool>
    requires as_many { vec_len answer ≡ length plan.now }
    requires words { slots_len closed.now.words ≡ claim_word_count plan.now }
    requires full { IsFull closed.now.words }
    requires room { claim_word_count plan.now < 2 ^ 64 }
    requires decided { (j : ℕ) → j < length plan.now →
        decision_in (slice_index (slots_items closed.now.words) (decision_at plan.now j)) ≡ Some (serial_decision plan.now j) }
    ensures serial { result.items ≡ serial plan.now }
{
    let first = 1 + plan.slices() + plan.len();
    for pair in 0..plan.len() {
        answer[pair] = match decision_in(closed.word(first + pair)) {
            Some(decision) => decision.fired,
            None => false,
        };
    }
    answer
}

impl Claims {
    /// Whether each pair fired. Takes back all workers, each of which has run.
    pub fn close(self, workers: Vec<Worker>) -> Vec<bool>
        requires work { All (λ worker. WorksFor worker self) workers.items }
        requires seen { All (λ worker. worker.view.seen ≡ slice_count self.pairs) workers.items }
        requires all { sum_by (λ worker. worker.view.share) workers.items ≡ self.workers }
        ensures serial { result.items ≡ serial self.pairs }
    {
        let seat = self.join_all(workers);
        let Claims {
            terms,
            table,
            answer,
        } = self;
        let closed = table.close_with(seat);
        let answer = read_answer(&terms.plan, &closed, answer);
        closed.free();
        answer
    }

    // Joins the seats of all workers into one.
    fn join_all(&self, mut workers: Vec<Worker>) -> Seat<(), View>
        requires some { 1 ≤ self.now.workers }
        requires work { All (λ worker. WorksFor worker self.now) workers.items }
        requires seen { All (λ worker. worker.view.seen ≡ slice_count self.now.pairs) workers.items }
        requires all { sum_by (λ worker. worker.view.share) workers.items ≡ self.now.workers }
        ensures sits { SitsAt result.table_id result.me self.now }
        ensures held { result.me.0.held ≡ [] }
        ensures owed { result.me.0.owed ≡ [] }
        ensures seen { result.me.0.seen ≡ slice_count self.now.pairs }
        ensures share { result.me.0.share ≡ self.now.workers }
    {
        let Some(first) = workers.pop() else {
            unreachable!();
        };
        let Worker { mut seat, stack: _ } = first;
        while let Some(worker) = workers.pop() {
            self.join(&mut seat, worker);
        }
        seat
    }

    // Joins the seat of a worker into another seat.
    fn join(&self, seat: &mut Seat<(), View>, worker: Worker)
        requires sits { SitsAt seat.old.table_id seat.old.me self.now }
        requires works { WorksFor worker self.now }
        ensures sits { SitsAt seat.new.table_id seat.new.me self.now }
        ensures view { seat.new.me.0 ≡ view_joining seat.old.me.0 worker.view }
    {
        let Worker {
            seat: other,
            stack: _,
        } = worker;
        self.table.shared.join_seat::<Joining>(seat, other);
    }
}

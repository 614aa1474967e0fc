//! How a matching is opened.
ghost use Rattle.std.specs.Prelude.{◌≡◌, ◌<◌, ◌≤◌, [], length, All, IfOk};
ghost use Rattle.smol_claims.specs.View.{newcomer, view_splitting, view_of_new};
ghost use Rattle.smol_claims.specs.Hand.{IsNewFor};

use crate::claims::Claims;
use crate::fresh::fresh_words;
use crate::plays::Splitting;
use crate::terms::Terms;
use crate::view::View;
use crate::worker::Worker;
use atomic_table::{Seat, Table};
use smol_plan::Plan;
use std::alloc::{AllocError, Global};

impl Claims {
    /// The words of a matching, and so many workers that have done nothing. All memory of the matching is taken here.
    pub fn open(
        alloc: Global,
        plan: Plan,
        workers: u32,
    ) -> Result<(Claims, Vec<Worker>), AllocError>
        requires some { 1 ≤ workers }
        requires few { workers ≤ 16 }
        ensures pairs { IfOk result (λ opened. opened.0.pairs ≡ plan) }
        ensures workers { IfOk result (λ opened. opened.0.workers ≡ workers) }
        ensures as_many { IfOk result (λ opened. length opened.1.items ≡ workers) }
        ensures new { IfOk result (λ opened. All (IsNewFor opened.0) opened.1.items) }
    {
        let words = fresh_words(alloc, &plan)?;
        let answer = vec![in alloc; false; plan.len()]?;
        let _ordered = plan.pairs();
        let terms = Terms { plan, workers };
        let (table, seat) = Table::of_words(alloc, &words, &terms)?;
        let claims = Claims {
            terms,
            table,
            answer,
        };
        let workers = claims.seat_all(alloc, seat)?;
        Ok((claims, workers))
    }

    // Splits one seat into one for each worker.
    fn seat_all(&self, alloc: Global, mut seat: Seat<(), View>) -> Result<Vec<Worker>, AllocError>
        requires table { seat.table_id ≡ self.now.table }
        requires view { seat.me.0 ≡ newcomer self.now.pairs self.now.workers self.now.workers }
        requires slots { seat.me.1 ≡ [] }
        ensures as_many { IfOk result (λ workers. length workers.items ≡ self.now.workers) }
        ensures new { IfOk result (λ workers. All (IsNewFor self.now) workers.items) }
    {
        let mut workers = Vec::with_capacity(alloc, 16)?;
        for _ in 1..self.terms.workers {
            let new = self.split(&mut seat);
            workers.push(self.hire(alloc, new)?)?;
        }
        workers.push(self.hire(alloc, seat)?)?;
        Ok(workers)
    }

    // Gives one part of a seat's share to a new seat.
    fn split(&self, seat: &mut Seat<(), View>) -> Seat<(), View>
        requires table { seat.old.table_id ≡ self.now.table }
        requires share { 1 < seat.old.me.0.share }
        ensures table { seat.new.table_id ≡ self.now.table }
        ensures view { seat.new.me.0 ≡ view_splitting seat.old.me.0 }
        ensures slots { seat.new.me.1 ≡ seat.old.me.1 }
        ensures new_table { result.table_id ≡ self.now.table }
        ensures new_view { result.me.0 ≡ view_of_new seat.old.me.0 }
        ensures new_slots { result.me.1 ≡ [] }
    {
        self.table.shared.split_seat::<Splitting>(seat)
    }

    // A worker on a seat that has done nothing, with room for every pair.
    fn hire(&self, alloc: Global, seat: Seat<(), View>) -> Result<Worker, AllocError>
        requires table { seat.table_id ≡ self.now.table }
        requires view { seat.me.0 ≡ newcomer self.now.pairs self.now.workers 1 }
        requires slots { seat.me.1 ≡ [] }
        ensures new { IfOk result (IsNewFor self.now) }
    {
        let stack = Vec::with_capacity(alloc, self.terms.plan.len())?;
        Ok(Worker { seat, stack })
    }
}

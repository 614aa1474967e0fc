//! The steps of a seat, each of which changes one word or none.
ghost use Rattle.std.specs.Prelude.{◌≡◌, ℕ, ◌+◌, ◌<◌, ◌==◌, true, length};
ghost use Rattle.smol_plan.specs.Machine.{slice_count};
ghost use Rattle.smol_claims.specs.View.{has, has_link, free_pairs, view_taking, view_telling};
ghost use Rattle.smol_claims.specs.Layout.{counter_at, decision_at, claim_word_count};
ghost use Rattle.smol_claims.specs.Code.{serial_decision};
ghost use Rattle.smol_claims.specs.Plays.{IsNew, LooksAt, Decides};
ghost use Rattle.smol_claims.specs.Hand.{SitsAt};

use crate::claims::Claims;
use crate::code::code_of;
use crate::plays::{Deciding, Looking, Taking, TellingHigh, TellingLow};
use crate::view::View;
use atomic_table::Seat;
use smol_plan::{Decision, Side};

impl Claims {
    // The place of the counter of a pair.
    fn counter_at(&self, pair: usize) -> usize
        requires { pair < length self.now.pairs }
        ensures value { result ≡ counter_at self.now.pairs pair }
        ensures inside { result < claim_word_count self.now.pairs }
    {
        1 + self.terms.plan.slices() + pair
    }

    // The place of the decision of a pair.
    fn decision_at(&self, pair: usize) -> usize
        requires { pair < length self.now.pairs }
        ensures value { result ≡ decision_at self.now.pairs pair }
        ensures inside { result < claim_word_count self.now.pairs }
    {
        1 + self.terms.plan.slices() + self.terms.plan.len() + pair
    }

    /// Takes a slice, and says whether it was not taken before.
    pub(crate) fn take(&self, seat: &mut Seat<(), View>, slice: usize) -> bool
        requires sits { SitsAt seat.old.table_id seat.old.me self.now }
        requires slice { slice < slice_count self.now.pairs }
        ensures sits { SitsAt seat.new.table_id seat.new.me self.now }
        ensures view { seat.new.me.0 ≡ view_taking seat.old.me.0 slice result }
        ensures new { result ≡ true → (j : ℕ) → has (free_pairs self.now.pairs slice) j ≡ true → IsNew seat.old.me.0 j }
    {
        self.table.shared.swap::<Taking>(seat, 1 + slice, 1) == 0
    }

    /// Looks at a pair, and gives the word of its decision.
    pub(crate) fn look_at(&self, seat: &mut Seat<(), View>, pair: usize) -> u64
        requires sits { SitsAt seat.old.table_id seat.old.me self.now }
        requires pair { pair < length self.now.pairs }
        ensures sits { SitsAt seat.new.table_id seat.new.me self.now }
        ensures looks { LooksAt seat.old.me.0 pair result seat.new.me.0 }
    {
        let place = self.decision_at(pair);
        self.table.shared.load::<Looking>(seat, place)
    }

    /// Decides a pair that the seat holds, as serial matching decides it.
    pub(crate) fn decide(&self, seat: &mut Seat<(), View>, pair: usize, decision: Decision)
        requires sits { SitsAt seat.old.table_id seat.old.me self.now }
        requires pair { pair < length self.now.pairs }
        requires holds { has seat.old.me.0.held pair ≡ true }
        requires serial { decision ≡ serial_decision self.now.pairs pair }
        ensures sits { SitsAt seat.new.table_id seat.new.me self.now }
        ensures decides { Decides seat.old.me.0 pair seat.new.me.0 }
    {
        let place = self.decision_at(pair);
        self.table
            .shared
            .swap::<Deciding>(seat, place, code_of(decision));
    }

    /// Tells a link that the seat owes, and says whether it was the last one of its pair.
    pub(crate) fn tell(&self, seat: &mut Seat<(), View>, pair: usize, side: Side) -> bool
        requires sits { SitsAt seat.old.table_id seat.old.me self.now }
        requires pair { pair < length self.now.pairs }
        requires owes { has_link seat.old.me.0.owed pair side ≡ true }
        ensures sits { SitsAt seat.new.table_id seat.new.me self.now }
        ensures view { seat.new.me.0 ≡ view_telling seat.old.me.0 (record { pair = pair; side = side }) result }
        ensures new { result ≡ true → IsNew seat.old.me.0 pair }
    {
        let place = self.counter_at(pair);
        match side {
            Side::Low => self.table.shared.fetch_sub::<TellingLow>(seat, place, 1) == 1,
            Side::High => self.table.shared.fetch_sub::<TellingHigh>(seat, place, 1) == 1,
        }
    }
}

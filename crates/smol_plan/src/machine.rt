//! The machine by which workers decide the pairs of a plan, one event after another.
ghost use Rattle.std.specs.Prelude.{◌≡◌, ℕ, ◌+◌, ◌<◌, ◌≤◌, ◌↔◌, length, IfOk, IsTrue};
ghost use Rattle.smol_plan.specs.Pair.{molecule_at};
ghost use Rattle.smol_plan.specs.Matching.{fires};
ghost use Rattle.smol_plan.specs.Links.{is_number, is_taken_before};
ghost use Rattle.smol_plan.specs.Machine.{first_state, slice_count, left_of, effect, after_take, after_decide, after_tell, IsEnabled};
ghost use Rattle.smol_plan.specs.Good.{Good};
ghost use Rattle.smol_plan.specs.Decision.{TellsTaken};
ghost use Rattle.smol_plan.specs.Law.{OfWorkers};
ghost use Rattle.smol_plan.specs.Board.{state_of, standing_at, after_slice, after_owing, untold_count, after_telling, SourcesTell};

use crate::decision::Decision;
use crate::event::Event;
use crate::pair::Side;
use crate::pair_state::PairState;
use crate::plan::Plan;
use std::alloc::{AllocError, Global};
use std::marker::Model;

/// The machine over one plan: what its workers have taken, decided and told, and what they hold and owe.
#[derive(Drop)]
pub struct Core {
    plan: Plan,
    workers: u32,
    taken: Vec<bool>,
    standings: Vec<PairState>,
}

impl Model for Core {
    ghost use Rattle.smol_plan.specs.Board.{Board, IsWellKept};

    ghost Value = { Board };

    ghost use Rattle.smol_plan.specs.Kept.{board_of};

    ghost view = { board_of };

    ghost invariant = { λ core. IsWellKept (board_of core) };
}

// Whether it is this worker.
fn is_worker(one: Option<u32>, worker: u32) -> bool
    ensures { result ≡ is_number worker one }
{
    match one {
        Some(other) => other == worker,
        None => false,
    }
}

// How many links of a pair are not told.
fn untold(plan: &Plan, standing: &PairState, pair: usize) -> u8
    requires { pair < length plan.now }
    ensures { result ≡ untold_count plan.now pair standing.now }
{
    let low = plan.before(pair, Side::Low).is_some() && !standing.told(Side::Low);
    let high = plan.before(pair, Side::High).is_some() && !standing.told(Side::High);
    u8::from(low) + u8::from(high)
}

// Gives the worker the pairs of a slice that wait for no other.
fn hold_slice(plan: &Plan, standings: &mut [PairState], slice: usize, worker: u32)
    requires slice { slice < slice_count plan.now }
    requires one_each { length standings.old ≡ length plan.now }
    ensures { (j : ℕ) → j < length plan.now →
        standing_at standings.new j ≡ after_slice plan.now worker slice j (standing_at standings.old j) }
{
    let range = plan.slice(slice);
    for pair in range.start..range.end {
        if plan.is_unlinked(pair) {
            standings[pair].holder = Some(worker);
        }
    }
}

// Makes the worker owe the link that comes from a pair by the molecule on a side.
fn owe(plan: &Plan, standings: &mut [PairState], pair: usize, side: Side, worker: u32)
    requires pair { pair < length plan.now }
    requires one_each { length standings.old ≡ length plan.now }
    ensures { (k : ℕ) → k < length plan.now →
        standing_at standings.new k ≡ after_owing plan.now pair side worker k (standing_at standings.old k) }
{
    if let Some((next, next_side)) = plan.after(pair, side) {
        standings[next].set_ower(next_side, Some(worker));
    }
}

// Whether a pair before this one that has its molecule fires, as the last of them says.
fn is_taken(plan: &Plan, standings: &[PairState], pair: usize, side: Side) -> bool
    requires pair { pair < length plan.now }
    requires one_each { length standings.now ≡ length plan.now }
    requires sources { SourcesTell plan.now standings.now pair }
    ensures { result ≡ is_taken_before plan.now (molecule_at plan.now pair side) pair }
{
    match plan.before(pair, side) {
        Some(source) => match standings[source].decision {
            Some(decision) => decision.is_taken(plan.side_of(source, plan.molecule(pair, side))),
            None => false,
        },
        None => false,
    }
}

// What is decided of a pair: it fires where neither of its molecules is taken.
fn decision_of(plan: &Plan, standings: &[PairState], pair: usize) -> Decision
    requires pair { pair < length plan.now }
    requires one_each { length standings.now ≡ length plan.now }
    requires sources { SourcesTell plan.now standings.now pair }
    ensures fired { result.fired ≡ fires plan.now pair }
    ensures taken { TellsTaken plan.now pair result }
{
    let low = is_taken(plan, standings, pair, Side::Low);
    let high = is_taken(plan, standings, pair, Side::High);
    Decision::after(low, high)
}

// Tells the link of a pair on a side; the worker that tells the last one gets the pair.
fn tell_link(plan: &Plan, standing: &mut PairState, pair: usize, side: Side, worker: u32)
    requires { pair < length plan.now }
    ensures { standing.new ≡ after_telling plan.now pair side worker standing.old }
{
    standing.tell(side);
    standing.set_ower(side, None);
    if untold(plan, standing, pair) == 0 {
        standing.holder = Some(worker);
    }
}

impl Core {
    /// The machine over a plan, of which nothing has happened.
    pub fn open(alloc: Global, plan: Plan, workers: u32) -> Result<Core, AllocError>
        requires some { 1 ≤ workers }
        requires few { workers ≤ 16 }
        ensures plan { IfOk result (λ core. core.pairs ≡ plan) }
        ensures workers { IfOk result (λ core. core.workers ≡ workers) }
        ensures first { IfOk result (λ core. state_of core ≡ first_state) }
        ensures good { IfOk result (λ core. Good core.pairs (state_of core)) }
    {
        let taken = vec![in alloc; false; plan.slices()]?;
        let standings = vec![in alloc; PairState::fresh(); plan.len()]?;
        Ok(Core {
            plan,
            workers,
            taken,
            standings,
        })
    }

    /// Whether an event may happen: its numbers are of a worker, a slice or a pair, and the slice is not taken, the
    /// worker holds the pair, or the worker owes the link.
    pub fn enabled(&self, event: &Event) -> bool
        ensures enabled { IsTrue result ↔ IsEnabled self.now.pairs self.now.workers (state_of self.now) event.now }
        ensures good { Good self.now.pairs (state_of self.now) }
        ensures of_workers { OfWorkers self.now.workers (state_of self.now) }
    {
        match *event {
            Event::Take { worker, slice } => {
                worker < self.workers && slice < self.taken.len() && !self.taken(slice)
            }
            Event::Decide { worker, pair } => {
                worker < self.workers && pair < self.plan.len() && self.holds(worker, pair)
            }
            Event::Tell { worker, pair, side } => {
                worker < self.workers && pair < self.plan.len() && self.owes(worker, pair, side)
            }
        }
    }

    /// Lets an event happen.
    pub fn apply(&mut self, event: Event)
        requires { IsEnabled self.old.pairs self.old.workers (state_of self.old) event }
        ensures plan { self.new.pairs ≡ self.old.pairs }
        ensures workers { self.new.workers ≡ self.old.workers }
        ensures effect { state_of self.new ≡ effect self.old.pairs (state_of self.old) event }
        ensures good { Good self.new.pairs (state_of self.new) }
    {
        match event {
            Event::Take { worker, slice } => self.take(worker, slice),
            Event::Decide { worker, pair } => self.decide(worker, pair),
            Event::Tell { worker, pair, side } => self.tell(worker, pair, side),
        }
    }

    fn take(&mut self, worker: u32, slice: usize)
        requires { IsEnabled self.old.pairs self.old.workers (state_of self.old) (Event.Take worker slice) }
        ensures plan { self.new.pairs ≡ self.old.pairs }
        ensures workers { self.new.workers ≡ self.old.workers }
        ensures effect { state_of self.new ≡ after_take self.old.pairs (state_of self.old) worker slice }
        ensures good { Good self.new.pairs (state_of self.new) }
    {
        hold_slice(&self.plan, &mut self.standings, slice, worker);
        self.taken[slice] = true;
    }

    fn decide(&mut self, worker: u32, pair: usize)
        requires { IsEnabled self.old.pairs self.old.workers (state_of self.old) (Event.Decide worker pair) }
        ensures plan { self.new.pairs ≡ self.old.pairs }
        ensures workers { self.new.workers ≡ self.old.workers }
        ensures effect { state_of self.new ≡ after_decide self.old.pairs (state_of self.old) worker pair }
        ensures good { Good self.new.pairs (state_of self.new) }
    {
        let decision = decision_of(&self.plan, &self.standings, pair);
        let standing = &mut self.standings[pair];
        standing.decision = Some(decision);
        standing.holder = None;
        owe(&self.plan, &mut self.standings, pair, Side::Low, worker);
        owe(&self.plan, &mut self.standings, pair, Side::High, worker);
    }

    fn tell(&mut self, worker: u32, pair: usize, side: Side)
        requires { IsEnabled self.old.pairs self.old.workers (state_of self.old) (Event.Tell worker pair side) }
        ensures plan { self.new.pairs ≡ self.old.pairs }
        ensures workers { self.new.workers ≡ self.old.workers }
        ensures effect { state_of self.new ≡ after_tell self.old.pairs (state_of self.old) worker pair side }
        ensures good { Good self.new.pairs (state_of self.new) }
    {
        tell_link(&self.plan, &mut self.standings[pair], pair, side, worker);
    }

    /// Whether a slice is taken.
    pub fn taken(&self, slice: usize) -> bool
        requires { slice < slice_count self.now.pairs }
        ensures { result ≡ (state_of self.now).taken slice }
    {
        self.taken[slice]
    }

    /// What is decided of a pair: whether it fired, or nothing.
    pub fn decided(&self, pair: usize) -> Option<bool>
        requires { pair < length self.now.pairs }
        ensures { result ≡ (state_of self.now).decision pair }
    {
        self.standings[pair].fired()
    }

    /// How many links of a pair are not told.
    pub fn left(&self, pair: usize) -> u8
        requires { pair < length self.now.pairs }
        ensures { result ≡ left_of self.now.pairs (state_of self.now) pair }
    {
        untold(&self.plan, &self.standings[pair], pair)
    }

    /// Whether a worker holds a pair.
    pub fn holds(&self, worker: u32, pair: usize) -> bool
        requires { pair < length self.now.pairs }
        ensures { result ≡ (state_of self.now).holds worker pair }
    {
        is_worker(self.standings[pair].holder, worker)
    }

    /// Whether a worker owes the link of a pair on a side.
    pub fn owes(&self, worker: u32, pair: usize, side: Side) -> bool
        requires { pair < length self.now.pairs }
        ensures { result ≡ (state_of self.now).owes worker pair side }
    {
        is_worker(self.standings[pair].ower(side), worker)
    }
}

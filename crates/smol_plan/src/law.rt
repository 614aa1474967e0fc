//! What holds of the machine whatever the order of events. These functions do nothing: their contracts are the laws.
ghost use Rattle.std.specs.Prelude.{ℕ, ◌+◌, ◌*◌, ◌<◌, ◌≤◌, ◌⊎◌, List, length};
ghost use Rattle.smol_plan.specs.declared.pair.Pair.{Pair};
ghost use Rattle.smol_plan.specs.declared.event.Event.{Event};
ghost use Rattle.smol_plan.specs.Machine.{State, first_state, slice_count, effect, effects, IsEnabled, AreEnabled};
ghost use Rattle.smol_plan.specs.Good.{Good};
ghost use Rattle.smol_plan.specs.Law.{FollowsSerial, OfWorkers, IsFinished, AllDecided, SomeEnabled};

/// The first state is good and each enabled event keeps it so; so after every list of enabled events what is
/// decided is decided as in serial matching.
pub fn each_order_follows_serial()
    ensures first { (pairs : List Pair) → Good pairs first_state }
    ensures kept { (pairs : List Pair) (workers : ℕ) (state : State) (event : Event) →
        IsEnabled pairs workers state event → Good pairs state → Good pairs (effect pairs state event) }
    ensures good { (pairs : List Pair) (workers : ℕ) (events : List Event) →
        AreEnabled pairs workers first_state events → Good pairs (effects pairs first_state events) }
    ensures serial { (pairs : List Pair) (workers : ℕ) (events : List Event) →
        AreEnabled pairs workers first_state events → FollowsSerial pairs (effects pairs first_state events) }
{}

/// A good state in which nothing is left to do has every pair decided, and in every other one some event is enabled.
pub fn each_order_ends()
    ensures first { (workers : ℕ) → OfWorkers workers first_state }
    ensures kept { (pairs : List Pair) (workers : ℕ) (state : State) (event : Event) →
        IsEnabled pairs workers state event → OfWorkers workers state → OfWorkers workers (effect pairs state event) }
    ensures decided { (pairs : List Pair) (state : State) →
        Good pairs state → IsFinished pairs state → AllDecided pairs state }
    ensures goes_on { (pairs : List Pair) (workers : ℕ) (state : State) →
        0 < workers → Good pairs state → OfWorkers workers state →
        IsFinished pairs state ⊎ SomeEnabled pairs workers state }
{}

/// No list of enabled events has more than the slices and three times the pairs.
pub fn each_order_is_short()
    ensures { (pairs : List Pair) (workers : ℕ) (events : List Event) →
        AreEnabled pairs workers first_state events → length events ≤ slice_count pairs + 3 * length pairs }
{}

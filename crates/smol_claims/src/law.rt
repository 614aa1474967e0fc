//! What each step of a seat is on the machine. This function does nothing: its contract is the law.
ghost use Rattle.smol_claims.specs.Law.{OpensFirst, TakeIsEvent, LookIsNoEvent, DecideIsEvent, TellIsEvent, SplitIsNoEvent, JoinIsNoEvent};

/// Each step keeps the rule of words and views, and is its event on the state that they spell, or none.
pub fn each_step_is_an_event()
    ensures first { OpensFirst }
    ensures take { TakeIsEvent }
    ensures look { LookIsNoEvent }
    ensures decide { DecideIsEvent }
    ensures tell { TellIsEvent }
    ensures split { SplitIsNoEvent }
    ensures join { JoinIsNoEvent }
{}

//! How a decision stands in a word.
ghost use Rattle.std.specs.Prelude.{◌≡◌};
ghost use Rattle.smol_claims.specs.Code.{code_of, decision_in};

use smol_plan::Decision;

/// The word of a decision, which is not 0.
pub(crate) fn code_of(decision: Decision) -> u64
    ensures { result ≡ code_of decision }
{
    let fired = if decision.fired { 2 } else { 0 };
    let low = if decision.low_taken { 4 } else { 0 };
    let high = if decision.high_taken { 8 } else { 0 };
    1 + fired + low + high
}

/// The decision in a word, which is none at 0.
pub(crate) fn decision_in(word: u64) -> Option<Decision>
    ensures { result ≡ decision_in word }
{
    if word == 0 {
        return None;
    }
    Some(Decision {
        fired: (word / 2) % 2 == 1,
        low_taken: (word / 4) % 2 == 1,
        high_taken: (word / 8) % 2 == 1,
    })
}

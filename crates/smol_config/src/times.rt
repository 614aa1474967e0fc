//! `time_start T`, `time_stop T` and `time_step T`: times in nanos.
ghost use Rattle.std.specs.Prelude.{◌≡◌, ◌≤◌, IfOk, unsigned_abs};
ghost use Rattle.smol_types.specs.Limits.{latest};
ghost use Rattle.smol_config.specs.Times.{nanos_in, given_time_in, step_in, time_step_in};

use smol_line::{decimal_in, once, unless, word_at, word_count};
use smol_text::StatedLine;
use smol_types::Kind;

/// How far a time may be from 0, in nanos.
const MOST_NANOS: i64 = 1_000_000_000_000_000_000;

/// The times of a run that are given, in nanos.
#[derive(Clone, Copy)]
pub struct Times {
    pub start: Option<i64>,
    pub stop: Option<i64>,
    pub step: Option<i64>,
}

// A time in nanos.
fn nanos_in(word: &[u8]) -> Result<i64, Kind>
    ensures value { result ≡ nanos_in word.now }
    ensures size { IfOk result (λ time. unsigned_abs time ≤ latest) }
{
    decimal_in(9, -MOST_NANOS, MOST_NANOS, word)
}

// The time of a step in nanos, which takes some.
fn step_in(word: &[u8]) -> Result<i64, Kind>
    ensures value { result ≡ step_in word.now }
    ensures size { IfOk result (λ time. unsigned_abs time ≤ latest) }
{
    let time = nanos_in(word)?;
    unless(time > 0, Kind::OutOfRange)?;
    Ok(time)
}

/// The time that a line gives, where `given` is what a line before gives by the same statement.
#[tactic(auto, unfolding(crate::specs::Times::given_time_in))]
pub fn judge(given: Option<i64>, line: &StatedLine<'_>) -> Result<i64, Kind>
    ensures rule { result ≡ given_time_in given line.now }
    ensures size { IfOk result (λ time. unsigned_abs time ≤ latest) }
{
    once(&given)?;
    word_count(2, line)?;
    nanos_in(word_at(line, 1))
}

/// The time of a step that a line gives, where `given` is what a line before gives.
#[tactic(auto, unfolding(crate::specs::Times::time_step_in))]
pub fn judge_step(given: Option<i64>, line: &StatedLine<'_>) -> Result<i64, Kind>
    ensures rule { result ≡ time_step_in given line.now }
    ensures size { IfOk result (λ time. unsigned_abs time ≤ latest) }
{
    once(&given)?;
    word_count(2, line)?;
    step_in(word_at(line, 1))
}

//! `WHEN ...`: when a command is due.
ghost use Rattle.std.specs.Prelude.{◌≡◌, ◌+◌, ◌≤◌, IfOk};
ghost use Rattle.smol_cmd.specs.When.{due_in, step_in, stride_in, timing_in, timing_words, when_in};

use crate::times::{interval_in, time_in};
use smol_line::{count_in, spells, unless, word_at};
use smol_text::StatedLine;
use smol_types::{Kind, When};

/// The last step that a run may have.
const MOST_STEPS: u64 = 4_000_000;

/// What the word WHEN says of the words behind it.
#[derive(Clone, Copy, Debug, PartialEq, Eq)]
pub enum Timing {
    /// `b`.
    Before,
    /// `a`.
    After,
    /// `e`.
    Every,
    /// `n M`.
    Each,
    /// `@ T`.
    AtTime,
    /// `i ON OFF DT`.
    Times,
    /// `j ON OFF M`.
    Steps,
}

// What this word WHEN says.
#[tactic(auto, unfolding(crate::specs::When::timing_in))]
fn timing_in(word: &[u8]) -> Result<Timing, Kind>
    ensures { result ≡ timing_in word.now }
{
    if spells(word, "b") {
        Ok(Timing::Before)
    } else if spells(word, "a") {
        Ok(Timing::After)
    } else if spells(word, "e") || spells(word, "E") {
        Ok(Timing::Every)
    } else if spells(word, "n") || spells(word, "N") {
        Ok(Timing::Each)
    } else if spells(word, "@") {
        Ok(Timing::AtTime)
    } else if spells(word, "i") {
        Ok(Timing::Times)
    } else if spells(word, "j") {
        Ok(Timing::Steps)
    } else {
        Err(Kind::BadTiming)
    }
}

// How many words WHEN has, its first one included.
fn timing_words(timing: Timing) -> usize
    ensures { result ≡ timing_words timing }
{
    match timing {
        Timing::Before | Timing::After | Timing::Every => 1,
        Timing::Each | Timing::AtTime => 2,
        Timing::Times | Timing::Steps => 4,
    }
}

// The number of a step.
fn step_in(word: &[u8]) -> Result<u32, Kind>
    ensures { result ≡ step_in word.now }
{
    let step = count_in(0, MOST_STEPS, word)?;
    Ok(step as u32)
}

// How many steps there are from one to the next.
fn stride_in(word: &[u8]) -> Result<u32, Kind>
    ensures { result ≡ stride_in word.now }
{
    let steps = step_in(word)?;
    unless(steps > 0, Kind::BadTiming)?;
    Ok(steps)
}

// `i ON OFF DT`.
#[tactic(auto, unfolding(crate::specs::When::due_in))]
fn times_in(line: &StatedLine<'_>) -> Result<When, Kind>
    ensures { result ≡ due_in Timing.Times line.now }
{
    let on = time_in(word_at(line, 2))?;
    let off = time_in(word_at(line, 3))?;
    let dt = interval_in(word_at(line, 4))?;
    Ok(When::Times { on, off, dt })
}

// `j ON OFF M`.
#[tactic(auto, unfolding(crate::specs::When::due_in))]
fn steps_in(line: &StatedLine<'_>) -> Result<When, Kind>
    ensures { result ≡ due_in Timing.Steps line.now }
{
    let on = step_in(word_at(line, 2))?;
    let off = step_in(word_at(line, 3))?;
    let m = stride_in(word_at(line, 4))?;
    Ok(When::Steps { on, off, m })
}

// When a command is due, by the words behind the first one of WHEN.
#[tactic(auto, unfolding(crate::specs::When::due_in))]
fn due_in(timing: Timing, line: &StatedLine<'_>) -> Result<When, Kind>
    ensures { result ≡ due_in timing line.now }
{
    match timing {
        Timing::Before => Ok(When::Before),
        Timing::After => Ok(When::After),
        Timing::Every => Ok(When::Every),
        Timing::Each => Ok(When::Each {
            m: stride_in(word_at(line, 2))?,
        }),
        Timing::AtTime => Ok(When::AtTime {
            t: time_in(word_at(line, 2))?,
        }),
        Timing::Times => times_in(line),
        Timing::Steps => steps_in(line),
    }
}

/// When the command of a line is due, and at which word it stands.
#[tactic(auto, unfolding(crate::specs::When::when_in))]
pub fn when_in(line: &StatedLine<'_>) -> Result<(When, usize), Kind>
    ensures value { result ≡ when_in line.now }
    ensures near { IfOk result (λ due. due.1 ≤ 5) }
{
    unless(line.len() >= 2, Kind::WrongWordCount)?;
    let timing = timing_in(word_at(line, 1))?;
    let place = 1 + timing_words(timing);
    unless(line.len() >= place, Kind::WrongWordCount)?;
    let due = due_in(timing, line)?;
    Ok((due, place))
}

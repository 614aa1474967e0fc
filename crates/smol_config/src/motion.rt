//! `difc SPECIES+ V` and `difstep SPECIES+ V`: how far species move in a step.
ghost use Rattle.std.specs.Prelude.{◌≡◌, ◌≤◌, length, IfOk};
ghost use Rattle.smol_types.specs.Limits.{most_species};
ghost use Rattle.smol_config.specs.Motion.{difc_in, difstep_in, difstep_of};

use smol_line::{Chosen, NameSet, chosen_in, unsigned_in, word_at, word_count};
use smol_num::isqrt;
use smol_text::StatedLine;
use smol_types::Kind;

/// How large a diffusion coefficient may be, in billionths.
const MOST_DIFC: i64 = 1_000_000_000_000_000_000;

/// How large a difstep may be, in micros.
pub const MOST_DIFSTEP: u32 = 1_000_000_000;

/// How far a species moves in a step.
#[derive(Clone, Copy, Debug, PartialEq, Eq)]
pub enum Motion {
    /// Its diffusion coefficient, in billionths of a square length unit per unit of time.
    Difc(u64),
    /// Its difstep, the root-mean-square displacement on an axis in one step, in micros.
    Difstep(u32),
}

/// The species that a `difc` line means, and how they move.
#[tactic(auto, unfolding(crate::specs::Motion::difc_in))]
pub fn judge_difc(species: &NameSet, line: &StatedLine<'_>) -> Result<(Chosen, Motion), Kind>
    requires few { length species.now ≤ most_species }
    ensures rule { result ≡ difc_in species.now line.now }
    ensures ordered { IfOk result (λ given. given.0.first ≤ given.0.end) }
    ensures within { IfOk result (λ given. given.0.end ≤ length species.now) }
{
    word_count(3, line)?;
    let chosen = chosen_in(species, word_at(line, 1))?;
    let difc = unsigned_in(9, MOST_DIFC, word_at(line, 2))?;
    Ok((chosen, Motion::Difc(difc)))
}

/// The species that a `difstep` line means, and how they move.
#[tactic(auto, unfolding(crate::specs::Motion::difstep_in))]
pub fn judge_difstep(species: &NameSet, line: &StatedLine<'_>) -> Result<(Chosen, Motion), Kind>
    requires few { length species.now ≤ most_species }
    ensures rule { result ≡ difstep_in species.now line.now }
    ensures ordered { IfOk result (λ given. given.0.first ≤ given.0.end) }
    ensures within { IfOk result (λ given. given.0.end ≤ length species.now) }
{
    word_count(3, line)?;
    let chosen = chosen_in(species, word_at(line, 1))?;
    let difstep = unsigned_in(6, i64::from(MOST_DIFSTEP), word_at(line, 2))?;
    Ok((chosen, Motion::Difstep(difstep as u32)))
}

/// The difstep of a motion in micros, where a step takes this time in nanos.
pub fn difstep_of(motion: Motion, time: i64) -> u64
    ensures { result ≡ difstep_of time motion }
{
    match motion {
        Motion::Difc(difc) => {
            isqrt(2 * u128::from(difc) * u128::from(time.unsigned_abs()) / 1_000_000)
        }
        Motion::Difstep(difstep) => u64::from(difstep),
    }
}

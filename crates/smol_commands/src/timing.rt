ghost use Rattle.std.specs.Prelude.{◌≡◌, ◌≤◌, pos, ◌≤ℤ◌, ◌<ℤ◌, unsigned_abs};
ghost use Rattle.smol_types.specs.Limits.{latest};
ghost use Rattle.smol_types.specs.declared.command.When.TheVariants as «when»;
ghost use Rattle.smol_types.specs.Commands.{IsWhen};
ghost use Rattle.smol_types.specs.Steps.{last_step};
ghost use Rattle.smol_meaning.specs.Timing.{is_at_mark, is_due, is_due_at, is_first_from, last_mark, time_of, were_earlier};
ghost use Rattle.smol_commands.specs.Phase.{IsPhase};

use smol_types::{Config, Phase, When};

/// Whether a command of this timing is performed in a phase of the run.
#[tactic(auto, unfolding(smol_meaning::specs::Timing::is_due))]
pub fn due(when: &When, phase: Phase, config: &Config) -> bool
    requires timing { IsWhen «when».now }
    requires step { IsPhase config.now phase }
    ensures { result ≡ is_due config.now phase «when».now }
{
    match phase {
        Phase::Before => *when == When::Before,
        Phase::At(k) => is_due_at(config, k, when),
        Phase::After => *when == When::After,
    }
}

fn is_due_at(config: &Config, k: u32, when: &When) -> bool
    requires timing { IsWhen «when».now }
    requires step { k ≤ last_step config.now.start config.now.stop config.now.step }
    ensures { result ≡ is_due_at config.now k «when».now }
{
    match *when {
        When::Before | When::After => false,
        When::Every => true,
        When::Each { m } => k % m == 0,
        When::AtTime { t } => is_first_from(config, k, t),
        When::Times { on, off, dt } => is_at_mark(config, k, on, off, dt),
        When::Steps { on, off, m } => on <= k && k <= off && (k - on) % m == 0,
    }
}

/// The time of a step, in nanos.
pub fn time_of(config: &Config, k: u32) -> i64
    requires { k ≤ last_step config.now.start config.now.stop config.now.step }
    ensures { result ≡ time_of config.now k }
{
    let passed = u64::from(k) * config.step().unsigned_abs();
    config.start() + passed as i64
}

// Whether the steps before this one are earlier than a time.
fn were_earlier(config: &Config, k: u32, t: i64) -> bool
    requires { k ≤ last_step config.now.start config.now.stop config.now.step }
    ensures { result ≡ were_earlier config.now k t }
{
    k == 0 || time_of(config, k - 1) < t
}

// Whether this is the first step whose time is at least this one.
fn is_first_from(config: &Config, k: u32, t: i64) -> bool
    requires { k ≤ last_step config.now.start config.now.stop config.now.step }
    ensures { result ≡ is_first_from config.now k t }
{
    t <= time_of(config, k) && were_earlier(config, k, t)
}

// Whether this is the first step whose time is at least one of the times from `on` to `off` that are `dt` apart.
fn is_at_mark(config: &Config, k: u32, on: i64, off: i64, dt: i64) -> bool
    requires timing { IsWhen («when».Times on off dt) }
    requires step { k ≤ last_step config.now.start config.now.stop config.now.step }
    ensures { result ≡ is_at_mark config.now k on off dt }
{
    let t = off.min(time_of(config, k));
    on <= t && were_earlier(config, k, last_mark(on, dt, t))
}

// The last of the times that begin with `on` and are `dt` apart, up to this one.
fn last_mark(on: i64, dt: i64, t: i64) -> i64
    requires begun { on ≤ℤ t }
    requires first { unsigned_abs on ≤ latest }
    requires last { unsigned_abs t ≤ latest }
    requires apart { pos 0 <ℤ dt }
    ensures { result ≡ last_mark on dt t }
{
    on + (t - on).div_euclid(dt) * dt
}

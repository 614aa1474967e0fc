ghost use Rattle.std.specs.Prelude.{◌≡◌, ◌≤◌, ◌<ℤ◌, pos, unsigned_abs};
ghost use Rattle.smol_types.specs.Steps.{last_step};

/// The number of the last step of a run from `start` to `stop` in steps of `step`, all in nanos.
pub fn last_step(start: i64, stop: i64, step: i64) -> u64
    requires start { unsigned_abs start ≤ 1000000000000000000 }
    requires stop { unsigned_abs stop ≤ 1000000000000000000 }
    requires step { unsigned_abs step ≤ 1000000000000000000 }
    requires above { pos 0 <ℤ step }
    ensures { result ≡ last_step start stop step }
{
    let gap = if stop > start {
        stop.abs_diff(start)
    } else {
        0
    };
    let step = step.unsigned_abs();
    (gap + (step - 1)) / step
}

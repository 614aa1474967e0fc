//! Laws on when commands are due. These functions do nothing: the laws are their contracts.
ghost use Rattle.std.specs.Prelude.{ℕ, ℤ, pos, ◌+ℤ◌, ◌*ℤ◌, ◌≤ℤ◌, ◌<ℤ◌, ◌↔◌, IsTrue};
ghost use Rattle.smol_types.specs.declared.command.Phase.TheVariants.{At};
ghost use Rattle.smol_types.specs.declared.command.When.TheVariants.{AtTime, Times};
ghost use Rattle.smol_types.specs.declared.draft.Draft.{Draft};
ghost use Rattle.smol_types.specs.Sound.{IsSound};
ghost use Rattle.smol_meaning.specs.FirstStep.{IsFirstFrom};
ghost use Rattle.smol_meaning.specs.Timing.{is_due};

/// A command at a time is due at the least step whose time is at least this one, and at no other.
pub fn a_time_is_due_at_its_first_step()
    ensures { (draft : Draft) (k : ℕ) (t : ℤ) → IsSound draft → IsTrue (is_due draft (At k) (AtTime t)) ↔ IsFirstFrom draft k t }
{}

/// A command at the times from `on` to `off` that are `dt` apart is due at the least step whose time is at least one of
/// them, and at no other.
pub fn times_are_due_at_their_first_steps()
    ensures { (draft : Draft) (k : ℕ) (on off dt : ℤ) → IsSound draft → pos 0 <ℤ dt
        → IsTrue (is_due draft (At k) (Times on off dt))
        ↔ ((j : ℕ) × ((on +ℤ (pos j *ℤ dt)) ≤ℤ off) × IsFirstFrom draft k (on +ℤ (pos j *ℤ dt))) }
{}

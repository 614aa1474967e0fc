//! Where bytes go.
ghost use Rattle.std.specs.Prelude.{◌≡◌, ◌+◌, ◌^◌, ◌<◌, ◌≤◌, [], ◌∷◌, ℕ, length, take, Option, IfOk, OnOk, OnErr, IfSome};
ghost use Rattle.smol_edge.specs.Faults.{Rose, Tells};
ghost use Rattle.smol_edge.specs.Outlets.{Written, Names, Appends, IsCounted};

use crate::Failed;

/// Standard output (outlet 0), standard error (outlet 1), and the files that were opened (2 and up).
pub trait Outlets {
    /// What it tells of itself, or nothing where it doesn't tell: the real ones don't.
    ghost told: { Self → Option Written };

    /// How many files were opened.
    ghost opened: { Self → ℕ };

    /// How often a call has failed. It never falls, and a call that answers `Ok` leaves it as it was.
    ghost faults: { Self → ℕ };

    /// Makes the file of this name, or empties it, and answers its outlet.
    fn open(&mut self, name: &str) -> Result<u32, Failed>
        requires { opened self.old < 2 ^ 31 }
        ensures outlet { IfOk result (λ outlet. outlet ≡ 2 + opened self.old) }
        ensures named { OnOk result (Tells (told self.old) (told self.new) (Names name.now)) }
        ensures counted { OnOk result (opened self.new ≡ opened self.old + 1) }
        ensures not_named { OnErr result (Tells (told self.old) (told self.new) (Appends [])) }
        ensures not_counted { OnErr result (opened self.new ≡ opened self.old) }
        ensures faults_stay { faults self.old ≤ faults self.new }
        ensures cause { OnErr result (Rose (faults self.old) (faults self.new)) }
        ensures no_fault { OnOk result (faults self.new ≡ faults self.old) };

    /// Appends bytes to an outlet, as many from the front as it likes but at least one, and answers how many.
    fn write(&mut self, outlet: u32, bytes: &[u8]) -> Result<usize, Failed>
        requires { outlet < 2 + opened self.old }
        ensures within { IfOk result (λ n. n ≤ length bytes.now) }
        ensures some { IfOk result (λ n. 0 < length bytes.now → 0 < n) }
        ensures appended { IfOk result (λ n. Tells (told self.old) (told self.new) (Appends ((outlet, take n bytes.now) ∷ []))) }
        ensures not_appended { OnErr result (Tells (told self.old) (told self.new) (Appends [])) }
        ensures opened_stays { opened self.new ≡ opened self.old }
        ensures faults_stay { faults self.old ≤ faults self.new }
        ensures cause { OnErr result (Rose (faults self.old) (faults self.new)) }
        ensures no_fault { OnOk result (faults self.new ≡ faults self.old) };

    /// The number opened is that of the names told, and an outlet that isn't opened has no bytes.
    ghost is_counted: { (outlets : Self) → IfSome (told outlets) (IsCounted (opened outlets)) };
}
